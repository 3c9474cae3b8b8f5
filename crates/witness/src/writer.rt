// The run that excuses the system, over the last symbols: the states that they can follow, found backward, and then the run through them.
ghost use Rattle.std.specs.Prelude.{◌≡◌, List, ℕ, ◌+◌, ◌-◌, ◌*◌, ◌^◌, ◌≤◌, length, get_or, replicate};
ghost use Rattle.stateset.specs.Set.{In};
ghost use Rattle.automaton.specs.Run.{Automaton, automaton_of, WellFormed};
ghost use Rattle.verifier.specs.Estimators.{InLimits};
ghost use Rattle.witness.specs.Witnesses.{recent, WitnessIn};
ghost use Rattle.witness.specs.Answers.{told, Written};
ghost use Rattle.witness.specs.Inner.{Prepared, Goes, Moved, LookedBack, Candidate};

use super::walks::{Place, Ways, observable_walk, silent_walk};
use super::{Run, allowed_by, word_at};
use automaton::Header;
use opacity::Notion;
use refusal::Refusal;
use verifier::Estimator;

// For each number of the last symbols up to k, the states that they can follow through allowed states.
fn look_back(ways: Ways, symbols: [u8; 15], k: u8) -> [u64; 16]
    requires { (k ≤ 15) × ((p : Automaton) × Goes p ways) }
    ensures { (p : Automaton) → Goes p ways.entry → LookedBack p ways.entry.allowed symbols k result }
{
    let mut then = [0u64; 16];
    then[0] = ways.allowed;
    for i in 0..k as usize {
        let events = automaton::events_with(ways.sets, symbols[i]);
        then[i + 1] = automaton::backward_reach(
            ways.table,
            ways.back,
            ways.allowed,
            events,
            then[i],
        );
    }
    then
}

// Writes steps that show the last k symbols, one symbol after another.
fn follow_symbols(
    ways: Ways,
    symbols: [u8; 15],
    then: [u64; 16],
    k: u8,
    place: Place,
    output: &mut [u8],
) -> Place
    requires { (k ≤ 15) × ((p : Automaton) × Goes p ways × LookedBack p ways.allowed symbols k then) × In place.state (get_or then k 0)
        × (place.at + 128 * k ≤ length output.old) }
    ensures { (p : Automaton) → Goes p ways.entry → LookedBack p ways.entry.allowed symbols k then
        → Moved p ways.entry.allowed (recent k symbols) (64 * k) place.state place.at output.old output.new result }
{
    let mut now = place;
    for i in (0..k as usize).rev() {
        now = observable_walk(ways, symbols[i], then[i], now, output);
    }
    now
}

// Writes a run from an entry set over the last k symbols: first to a state that is not secret, then symbol by symbol.
fn write_run(
    ways: Ways,
    secret: u64,
    symbols: [u8; 15],
    then: [u64; 16],
    k: u8,
    entry: u64,
    output: &mut [u8],
) -> Result<Run, Refusal>
    requires { (k ≤ 15) × ((p : Automaton) × Goes p ways × LookedBack p ways.allowed symbols k then) × (2172 ≤ length output.old) }
    ensures { (p : Automaton) → Goes p ways.entry → LookedBack p ways.entry.allowed symbols k then
        → Written (Candidate p ways.entry.allowed secret entry (recent k symbols)) output.old (told result) output.new }
{
    let n = k as usize;
    let target = then[n] & !secret;
    let reached = relation::closure(ways.back, ways.allowed, target);
    let starts = entry & reached;
    if starts == 0 {
        return Err(Refusal::NoWitness);
    }
    let start = u64::trailing_zeros(starts) as u8;
    let clear = silent_walk(
        ways,
        target,
        Place {
            state: start,
            at: 0,
        },
        output,
    );
    let last = follow_symbols(ways, symbols, then, k, clear, output);
    Ok(Run {
        start,
        pairs: last.at / 2,
    })
}

// The unobservable transitions of all states the other way round, as rows, and the events of each symbol.
fn prepare(table: &[u64], header: Header, back: &mut [u64; 64], sets: &mut [u32])
    requires { WellFormed table.now header × (back.old ≡ replicate 64 0) × (sets.old ≡ replicate 32 0) }
    ensures { Prepared (automaton_of table.now header) table.now ((2 ^ 32 - 1) - header.observable) back.new
        sets.new }
{
    let mut silent = [0u64; 64];
    let near = automaton::silent_rows(table, header, &mut silent, 0, u64::MAX);
    automaton::silent_back(&silent, near.states, back);
    automaton::by_symbol(header, sets);
}

// Writes a run over the last k symbols that excuses the system, where there is one.
pub fn write_witness(
    estimator: Estimator,
    table: &[u64],
    header: Header,
    notion: Notion,
    secret: u64,
    k: u8,
    output: &mut [u8],
) -> Result<Run, Refusal>
    requires { WellFormed table.now header × InLimits header estimator × (k ≤ estimator.count) × (2172 ≤ length output.old) }
    ensures { Written (WitnessIn notion (automaton_of table.now header) secret estimator k) output.old (told result)
        output.new }
{
    let entry = word_at(&estimator.entries, k as usize);
    let mut back = [0u64; 64];
    let mut sets = [0u32; 32];
    prepare(table, header, &mut back, &mut sets);
    let ways = Ways {
        table,
        silent: !header.observable as u64,
        back: &back,
        sets: &sets,
        allowed: allowed_by(notion, secret),
    };
    let symbols = estimator.symbols;
    let then = look_back(ways, symbols, k);
    write_run(ways, secret, symbols, then, k, entry, output)
}
