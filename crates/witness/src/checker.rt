// Whether a start and pairs of bytes are a run over the last symbols that excuses the system.
ghost use Rattle.std.specs.Prelude.{◌≡◌, List, ℕ, ◌≤◌, length};
ghost use Rattle.stateset.specs.Set.{Decided};
ghost use Rattle.automaton.specs.Run.{Automaton, automaton_of, Transition, Step, WellFormed};
ghost use Rattle.verifier.specs.Estimators.{InLimits};
ghost use Rattle.witness.specs.Witnesses.{recent, bytes_of, SomeClear, WitnessIn};
ghost use Rattle.witness.specs.Answers.{Pairs};
ghost use Rattle.witness.specs.Inner.{automaton_with, LeftAfter, Follows};

use super::{allowed_by, word_at};
use automaton::Header;
use opacity::Notion;
use verifier::Estimator;

// Whether a transition is listed. Any bytes may be asked for.
fn transition(table: &[u64], from: u8, event: u8, to: u8) -> bool
    requires { length table.now ≡ 2048 }
    ensures { Decided result (Transition table.now from event to) }
{
    if 63 < from {
        return false;
    }
    if 31 < event {
        return false;
    }
    let at = 64 * event as usize + from as usize;
    stateset::member(table[at], to as usize)
}

// How many of the last symbols are left after one more event: as many as before where it is unobservable, one less where it shows the next of them, and
// None where it shows another.
fn left_after(observable: u32, symbols: [u8; 32], last: [u8; 15], left: u8, event: u8) -> Option<u8>
    requires { left ≤ 15 }
    ensures { (t : List ℕ) (initial : ℕ) → LeftAfter (automaton_with t initial observable symbols) last left event result }
{
    if !stateset::member(observable as u64, event as usize) {
        return Some(left);
    }
    let next = left.checked_sub(1)?;
    if last[next as usize] != symbols[event as usize] {
        return None;
    }
    Some(next)
}

// Whether all bytes are pairs, and from the start steps through allowed states that show the last k symbols.
fn is_run(
    table: &[u64],
    header: Header,
    last: [u8; 15],
    k: u8,
    allowed: u64,
    start: u8,
    pairs: &[u8],
) -> bool
    requires { (length table.now ≡ 2048) × (k ≤ 15) }
    ensures { Decided result (Follows (automaton_of table.now header) allowed (recent k last) start pairs.now) }
{
    let mut q = start;
    let mut left = k;
    let mut rest = pairs;
    while let [event, to, more @ ..] = rest {
        if !transition(table, q, *event, *to) {
            return false;
        }
        if !stateset::member(allowed, *to as usize) {
            return false;
        }
        let Some(fewer) = left_after(header.observable, header.symbols, last, left, *event) else {
            return false;
        };
        q = *to;
        left = fewer;
        rest = more;
    }
    rest.is_empty() && left == 0
}

// Whether some position before the first observable step is not secret.
fn has_clear(observable: u32, secret: u64, start: u8, pairs: &[u8]) -> bool
    ensures { (p : Automaton) (steps : List Step) → p.observable ≡ observable → bytes_of steps ≡ pairs.now
        → Decided result (SomeClear p secret start steps) }
{
    let mut q = start;
    let mut rest = pairs;
    while stateset::member(secret, q as usize) {
        let [event, to, more @ ..] = rest else {
            return false;
        };
        if stateset::member(observable as u64, *event as usize) {
            return false;
        }
        q = *to;
        rest = more;
    }
    true
}

// Whether the start and the bytes are a run that excuses the system.
pub fn is_witness(
    estimator: Estimator,
    table: &[u64],
    header: Header,
    notion: Notion,
    secret: u64,
    k: u8,
    start: u8,
    pairs: &[u8],
) -> bool
    requires { WellFormed table.now header × InLimits header estimator × (k ≤ estimator.count) }
    ensures { Decided result (Pairs (WitnessIn notion (automaton_of table.now header) secret estimator k start) pairs.now) }
{
    let entry = word_at(&estimator.entries, k as usize);
    if !stateset::member(entry, start as usize) {
        return false;
    }
    let allowed = allowed_by(notion, secret);
    if !stateset::member(allowed, start as usize) {
        return false;
    }
    if !is_run(table, header, estimator.symbols, k, allowed, start, pairs) {
        return false;
    }
    has_clear(header.observable, secret, start, pairs)
}
