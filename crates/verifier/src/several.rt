// Several secrets: their strong verdicts by one pass over the steps back for all, and each cut down to its own K.
ghost use Rattle.std.specs.Prelude.{◌≡◌, List, ℕ, ◌^◌, ◌≤◌, ◌<◌};
ghost use Rattle.std.specs.Int.Bits.{bit_and};
ghost use Rattle.stateset.specs.Set.{complement};
ghost use Rattle.automaton.specs.Run.{Automaton};
ghost use Rattle.relation.specs.Relation.{set_at};
ghost use Rattle.opacity.specs.declared.Notion.TheVariants as notion;
ghost use Rattle.opacity.specs.declared.Verdict.TheVariants as verdict;
ghost use Rattle.opacity.specs.Secrets.{secret_of, secrets_of, secret_at};
ghost use Rattle.estimates.specs.StepsBack.{Found, Ready, FoundBy};
ghost use Rattle.verifier.specs.Inner.{verdict_at, WithStep, StrongEach};

use super::{Asked, EachSecret};
use automaton::Header;
use estimates::look_back::LookBack;
use opacity::{Further, Notion, Verdict};
use relation::StateSets;

// A strong verdict with one more step tested, l: one that was found stays; else it is leak l where no state of the entry set is in `then`.
fn with_step(found: Verdict, entry: u64, then: u64, l: u8) -> Verdict
    ensures { WithStep entry then l found result }
{
    match found {
        Verdict::NoLeak if entry & then == 0 => Verdict::Leak(l),
        _ => found,
    }
}

// So for each of four.
fn with_steps(found: EachSecret<Verdict>, entry: u64, then: StateSets, l: u8) -> EachSecret<Verdict>
    ensures { (i : ℕ) → i < 4 → WithStep entry (set_at then i) l (verdict_at found i) (verdict_at result i) }
{
    EachSecret {
        own: with_step(found.own, entry, then.own, l),
        first: with_step(found.first, entry, then.first, l),
        second: with_step(found.second, entry, then.second, l),
        third: with_step(found.third, entry, then.third, l),
    }
}

// No verdict found yet.
fn none_found() -> EachSecret<Verdict>
    ensures { (i : ℕ) → i < 4 → verdict_at result i ≡ verdict.NoLeak }
{
    EachSecret {
        own: Verdict::NoLeak,
        first: Verdict::NoLeak,
        second: Verdict::NoLeak,
        third: Verdict::NoLeak,
    }
}

// The strong verdicts of four secrets, over all steps that are remembered: as `LookBack::strong_verdict` takes them, in one pass for all.
// `clear` has for each the states that are not in it. (Each step back is that of one set, by `step_back`. The loops stay two: that of one secret ends
// at its leak and answers it, this one goes on for the others and keeps a verdict for each, so that one for both would switch between the two.)
fn strong_verdicts(look_back: LookBack, clear: StateSets) -> EachSecret<Verdict>
    requires { Ready look_back }
    ensures { (i secret : ℕ) → i < 4 → secret < 2 ^ 64 → set_at clear i ≡ bit_and look_back.entry.states (complement secret)
        → FoundBy notion.Strong look_back.entry secret (verdict_at result i) }
{
    let last = look_back.remembered.count;
    let mut then = clear;
    let mut found = none_found();
    for l in 0..last {
        let at = l as usize;
        found = with_steps(found, look_back.remembered.entries[at], then, l);
        then = look_back.step_back(clear, at, then);
    }
    with_steps(
        found,
        look_back.remembered.entries[last as usize],
        then,
        last,
    )
}

// The states that are not in the secret with a number. None where it is not given: such a place costs no closure.
fn outside_secret(header: Header, further: Further, states: u64, i: u8) -> u64
    ensures { (further.count < i → result ≡ 0) × (i ≤ further.count → ((secret_at (secrets_of header further) i).states < 2 ^ 64)
        × (result ≡ bit_and states (complement (secret_at (secrets_of header further) i).states))) }
{
    if further.count < i {
        return 0;
    }
    let secret = opacity::secret_at(header, further, i);
    states & !secret.states
}

// The strong verdicts of the secrets that are given, where they are asked for. What stands in the place of one that is not given says nothing.
pub(crate) fn strong_each(
    look_back: LookBack,
    further: Further,
    asked: Asked,
) -> EachSecret<Verdict>
    requires { Ready look_back }
    ensures { StrongEach look_back.entry further asked result }
{
    if !asked.strong {
        return none_found();
    }
    let header = *look_back.header;
    let states = look_back.states;
    let clear = StateSets {
        own: outside_secret(header, further, states, 0),
        first: outside_secret(header, further, states, 1),
        second: outside_secret(header, further, states, 2),
        third: outside_secret(header, further, states, 3),
    };
    strong_verdicts(look_back, clear)
}

// The verdict over fewer steps.
pub(crate) fn up_to(found: Verdict, last: u8) -> Verdict
    ensures { (found ≡ verdict.NoLeak → result ≡ verdict.NoLeak)
        × ((notion : Notion) (p : Automaton) (secret n : ℕ) (symbols entries : List ℕ) → last ≤ n
        → Found notion p (secret_of secret n) n symbols entries found → Found notion p (secret_of secret last) n symbols entries result) }
{
    match found {
        Verdict::Leak(l) if last < l => Verdict::NoLeak,
        _ => found,
    }
}
