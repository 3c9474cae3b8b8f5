// Over the steps back (source 000's delayed estimates m(l)): the verdict of one secret by each notion, alone, and m(l) for all secrets at once.
ghost use Rattle.std.specs.Prelude.{◌≡◌, List, ℕ, ◌+◌, ◌≤◌, ◌<◌, replicate};
ghost use Rattle.stateset.specs.Set.{Is};
ghost use Rattle.automaton.specs.Run.{Automaton};
ghost use Rattle.automaton.specs.Reaching.{Enters, Arrives, Closed, Entered};
ghost use Rattle.relation.specs.Relation.{Sub};
ghost use Rattle.opacity.specs.declared.Notion.TheVariants as notion;
ghost use Rattle.opacity.specs.Secrets.{secret_of};
ghost use Rattle.estimates.specs.StepsBack.{Sampled, Found, Delayed, Follows, looked_at, LooksAt, Ready, Begins, FoundBy, DelayedBy};

use super::Remembered;
use automaton::Header;
use opacity::Verdict;
use relation::Sets;

// What a look back works on: what is remembered of the trace; the automaton, and the events of each symbol; the unobservable events from the states
// that it does not leave, as rows, and the other way round, where it takes a step; these states, and the estimate, from which it starts.
#[derive(Clone, Copy)]
pub struct LookBack<'a> {
    pub remembered: &'a Remembered,
    pub table: &'a [u64],
    pub header: &'a Header,
    pub sets: &'a [u32; 32],
    pub silent: &'a [u64; 64],
    pub back: &'a [u64; 64],
    pub states: u64,
    pub estimate: u64,
}

// The unobservable events the other way round, where a look back over `last` steps needs them: where it takes no step, it does not, and the array stays.
pub fn backward_rows(silent: &[u64; 64], states: u64, last: u8, back: &mut [u64; 64])
    requires { back.old ≡ replicate 64 0 }
    ensures { 0 < last → (p : Automaton) → Closed p states silent.now → Entered p states back.new }
{
    if last == 0 {
        return;
    }
    automaton::silent_back(silent, states, back);
}

// The possible states, those in which runs can be and that are in `then`: source 000's m(l), where `then` has the states that the last l symbols can
// follow. One that is not secret is excuse enough: where there is one right after the symbol, the states right after it are given alone, and nothing is
// closed.
fn possible_states(silent: &[u64; 64], states: u64, entry: u64, then: u64, secret: u64) -> u64
    ensures { (p : Automaton) (trace : List ℕ) → p.initial ≤ 63 → Closed p states silent.now → Sub entry states
        → Is entry (Enters p trace) → Sampled secret then (Arrives p trace) result }
{
    let some = entry & then;
    if some & !secret != 0 {
        return some;
    }
    automaton::unobservable_reach(silent, states, entry) & then
}

impl<'a> LookBack<'a> {
    // One step further back, for one set or for several side by side, each through its own allowed states: from the states that the last l symbols can
    // follow, those that l + 1 can. (`events_with` takes a slice, and a field is lent as what it is: so the sets stand in a variable. In line: where it
    // was called, an accept with three further secrets took 1.13 times as long, since what it works on was written out at each step. The look backs of
    // the own secret alone, which every accept pays for, take this step themselves: through here an accept took 1.10 times as long.)
    #[inline(always)]
    pub fn step_back<S: Sets>(self, allowed: S, l: usize, then: S) -> S
        requires { Ready self × (l < self.remembered.now.count) }
        ensures { S.Each (λ i. (n : ℕ) (trace : List ℕ) → l < n → LooksAt self.entry n trace → Sub (S.at allowed i) self.entry.states
            → Follows (looked_at self.entry) (S.at allowed i) trace l (S.at then i)
            → Follows (looked_at self.entry) (S.at allowed i) trace (l + 1) (S.at result i)) }
    {
        let sets = self.sets;
        let shown = automaton::events_with(sets, self.remembered.symbols[l]);
        automaton::backward_reach(self.table, self.back, allowed, shown, then)
    }

    // The least step back at which every possible state is secret, none where there is no such step. (01: "every moment of count n − l is in a
    // secret state".) As source 000's Proposition 4 takes it: l from 0 upward, and leak l at the first l for which all of m(l), the possible states
    // l steps back, are secret. Whenever the loop takes up a step, no smaller one is a leak (`NoLeakBelow`). m(0) is the estimate, which is known.
    // (The scope names this form, nested loops over steps and states, the inner one left by its label; `first_secret` tests a set as a whole.)
    pub fn weak_verdict(self, secret: u64) -> Verdict
        requires { Ready self × Begins self }
        ensures { FoundBy notion.Weak self.entry secret result }
    {
        let sets = self.sets;
        let last = self.remembered.count; // K, or n where that is less
        let mut then = self.states;
        let mut possible = self.estimate;
        'steps: for l in 0..=last { // from 0 upward
            let mut todo = possible;
            // whether all of m(l) is secret: the first state that is not decides
            'states: while todo != 0 {
                let q = u64::trailing_zeros(todo);
                if secret >> q & 1 == 0 { // not secret
                    break 'states;
                }
                todo &= todo - 1;
            }
            if todo == 0 {
                return Verdict::Leak(l);
            }
            if l < last { // no step up to l is a leak
                let at = usize::from(l);
                let shown = automaton::events_with(sets, self.remembered.symbols[at]);
                then = automaton::backward_reach(self.table, self.back, self.states, shown, then);
                let entry = self.remembered.entries[at + 1];
                possible = possible_states(self.silent, self.states, entry, then, secret);
            }
        }
        Verdict::NoLeak
    }

    // The least step back from which no run avoids the secret. (01: "every fitting run has a moment of count at least n − l in a secret state".) In
    // the same order.
    pub fn strong_verdict(self, secret: u64) -> Verdict
        requires { Ready self }
        ensures { FoundBy notion.Strong self.entry secret result }
    {
        let sets = self.sets;
        let last = self.remembered.count;
        let clear = self.states & !secret;
        let mut then = clear;
        for l in 0..=last {
            let at = usize::from(l);
            if self.remembered.entries[at] & then == 0 {
                return Verdict::Leak(l);
            }
            if l < last {
                let shown = automaton::events_with(sets, self.remembered.symbols[at]);
                then = automaton::backward_reach(self.table, self.back, clear, shown, then);
            }
        }
        Verdict::NoLeak
    }

    // Source 000's m(l), all of it, for each step that is remembered: the states in which runs can be l steps back and from which the last l symbols
    // can follow. It depends on no secret.
    pub fn delayed_estimates(self, past: &mut [u64; 16])
        requires { Ready self × Begins self }
        ensures { DelayedBy self.entry past.new }
    {
        past[0] = self.estimate;
        let mut then = self.states;
        for l in 0..usize::from(self.remembered.count) {
            then = self.step_back(self.states, l, then);
            let entry = self.remembered.entries[l + 1];
            past[l + 1] = automaton::unobservable_reach(self.silent, self.states, entry) & then;
        }
    }
}

// The weak verdict of one secret from these sets: as `weak_verdict` takes its steps, l from 0 upward, and leak l at the first l for which all of m(l) is
// secret.
pub fn first_secret(past: &[u64; 16], secret: u64, last: u8) -> Verdict
    requires { last ≤ 15 }
    ensures { (p : Automaton) (symbols entries : List ℕ) (n : ℕ) → Delayed p symbols entries n past.now → last ≤ n
        → Found notion.Weak p (secret_of secret last) n symbols entries result }
{
    for l in 0..=last {
        let excuse = past[usize::from(l)] & !secret; // those of m(l) that are not secret
        if excuse == 0 {
            return Verdict::Leak(l);
        }
    }
    Verdict::NoLeak
}
