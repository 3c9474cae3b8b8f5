// What is remembered of the symbols, and which states are possible: now, right after a symbol and with the unobservable transitions after it; and before,
// over the steps back. None of these functions is an entry: `verifier` calls them, and proves what they require.
#![tactic(auto)]

pub mod look_back; // over the steps back: the verdicts of one secret, and the sets m(l) for all

ghost use Rattle.std.specs.Prelude.{◌≡◌, ℕ, ◌+◌, ◌≤◌, ◌<◌, min, length};
ghost use Rattle.stateset.specs.Set.{In};
ghost use Rattle.automaton.specs.Run.{automaton_of};
ghost use Rattle.automaton.specs.Reaching.{Showing, Known, Gained};
ghost use Rattle.estimates.specs.Estimates.{PushedOn, Inside, Estimated, Next};

use automaton::{Header, Reach};

// What is kept of a trace for look backs: how many symbols are remembered, these, the newest first, and for each step back the states right after the last
// one that is left. (Two arrays and a count, and not a list of steps: memory is fixed, and these are an estimator's, whose bytes are the C interface.)
#[derive(Clone, Copy, PartialEq, Eq)]
pub struct Remembered {
    pub count: u8,
    pub symbols: [u8; 15],
    pub entries: [u64; 16],
}

// The states that are possible: right after the last symbol, then with the unobservable transitions after it, and how many these are. And states
// that unobservable events do not leave, with all of them among these.
#[derive(Clone, Copy)]
pub struct Estimate {
    pub entry: u64,
    pub states: u64,
    pub size: u8,
    pub near: u64,
}

// The first `n` of the newest one and those that were kept, and nothing behind them.
pub fn push<T: Copy + Default, const N: usize>(kept: [T; N], n: u8, newest: T) -> [T; N]
    requires { n ≤ N }
    ensures { PushedOn T.is_default newest kept n N result }
{
    let mut pushed = [T::default(); N];
    let mut next = newest;
    for l in 0..usize::from(n) {
        pushed[l] = next;
        next = kept[l];
    }
    pushed
}

// One symbol more to remember, and at most K.
pub fn count_after(count: u8, k: u8) -> u8
    requires { (count ≤ k) × (k ≤ 15) }
    ensures { result ≡ min k (count + 1) }
{
    k.min(count + 1)
}

// The states of all entry sets.
pub fn entered(entries: [u64; 16]) -> u64
    ensures { Inside entries result }
{
    entries.iter().fold(0, |all, entry| all | *entry)
}

// From the states right after a symbol to all that are possible, and their number: one step, for a fresh estimator and for an accepted symbol. What is
// known of unobservable events, so far of the states that `from` leads to, grows with the states that matter.
pub fn estimate_from(
    table: &[u64],
    header: Header,
    silent: &mut [u64; 64],
    known: u64,
    from: u64,
    entry: u64,
) -> Estimate
    requires { (length table.now ≡ 2048) × (header.initial ≤ 63) × Known (automaton_of table.now header) known from silent.old }
    ensures { Estimated (automaton_of table.now header) from entry silent.new result }
{
    let reach = automaton::silent_rows(table, header, silent, known, from | entry);
    let states = automaton::unobservable_reach(silent, reach.states, entry);
    Estimate {
        entry,
        states,
        size: stateset::size(states),
        near: reach.states,
    }
}

// The states that are possible after one more symbol, by the events that show it, from those right after the symbol before it; none, if no run is left.
pub fn next_estimate(
    table: &[u64],
    header: Header,
    silent: &mut [u64; 64],
    near: Reach,
    entry: u64,
    events: u64,
) -> Option<Estimate>
    requires { (length table.now ≡ 2048) × (header.initial ≤ 63) × ((e : ℕ) → In e events → e < 32)
        × Gained (automaton_of table.now header) entry silent.old near }
    ensures { (symbol : ℕ) → Showing (automaton_of table.now header) symbol events
        → Next (automaton_of table.now header) near.states entry symbol silent.new result }
{
    let estimate = automaton::unobservable_reach(silent, near.states, entry);
    let after = automaton::observable_reach(table, events, estimate);
    if after == 0 {
        return None;
    }
    Some(estimate_from(table, header, silent, near.known, near.states, after))
}
