// The interface for a gateway in Rust, and in C through `gateway_c`, whose exports call these functions: include/opacity.h describes it. Headers and saved
// states are bytes of a fixed layout (`layout`); each function answers 0, or the number of a refusal, and then leaves every slice that it was lent as it was.
#![tactic(auto)]

ghost use Rattle.gateway.specs.Interface.{Decode, Fresh, Accept, Start, Offer, Explore, FirstLeakCall, CanonicalCall, Witnessing, CheckingWitness};

use enforcer::Enforcer;
use layout::sizes;
use verifier::Estimator;

// The refusal of a slice that has not the length of its layout, and of a notion that is none: the number of `Refusal::Malformed`. (A constant calls no
// function.) Each function tests what it is lent before anything else. Its end, a `match`, is no plainer otherwise: an inner function with `?` has five lines
// more in `opacity_explore`, and each contract twice; with `answer.map(|found| ..)`, a closure that writes, the check left the contract open.
const MALFORMED: u8 = 9;

// Decodes an encoding: the table, and the header's bytes.
pub fn opacity_decode(encoding: &[u8], table: &mut [u64], header: &mut [u8]) -> u8
    ensures { Decode encoding.now table.old header.old result table.new header.new }
{
    if header.len() != sizes::HEADER_SIZE {
        return MALFORMED;
    }
    let decoded = decoding::decode(encoding, table);
    match decoded.answer {
        Err(refused) => refusal::number(refused),
        Ok(()) => {
            layout::write_header(header, decoded.header);
            0
        }
    }
}

// A fresh estimator with further secrets: its bytes, and in those of a judgement the two verdicts of each secret for the empty trace and how many states
// are possible.
pub fn opacity_fresh(
    table: &[u64],
    header: &[u8],
    further: &[u8],
    estimator: &mut [u8],
    judgement: &mut [u8],
) -> u8
    ensures { Fresh table.now header.now further.now estimator.old judgement.old
        result estimator.new judgement.new }
{
    if header.len() != sizes::HEADER_SIZE
        || estimator.len() != sizes::ESTIMATOR_SIZE
        || judgement.len() != sizes::JUDGEMENT_SIZE
        || further.len() != sizes::FURTHER_SIZE
    {
        return MALFORMED;
    }
    let reply = Estimator::fresh(
        table,
        layout::read_header(header),
        layout::read_further(further, 0),
    );
    let answer = reply.answer;
    match answer {
        Err(refusal) => refusal::number(refusal),
        Ok(told) => {
            let after = reply.estimator;
            layout::write_estimator(estimator, after);
            layout::write_judgement(judgement, told);
            0
        }
    }
}

// Accepts one symbol: the estimator after it, the two verdicts of each secret, and how many states are possible.
pub fn opacity_accept(
    table: &[u64],
    header: &[u8],
    symbol: u8,
    estimator: &mut [u8],
    judgement: &mut [u8],
) -> u8
    ensures { Accept table.now header.now symbol estimator.old judgement.old
        result estimator.new judgement.new }
{
    if header.len() != sizes::HEADER_SIZE
        || estimator.len() != sizes::ESTIMATOR_SIZE
        || judgement.len() != sizes::JUDGEMENT_SIZE
    {
        return MALFORMED;
    }
    let before = layout::read_estimator(estimator);
    let reply = before.accept(table, layout::read_header(header), symbol);
    let answer = reply.answer;
    match answer {
        Err(refusal) => refusal::number(refusal),
        Ok(told) => {
            let after = reply.estimator;
            layout::write_estimator(estimator, after);
            layout::write_judgement(judgement, told);
            0
        }
    }
}

// Starts an enforcer under a notion, 0 weak or 1 strong, with further secrets: its bytes.
pub fn opacity_start(
    table: &[u64],
    header: &[u8],
    notion: u8,
    further: &[u8],
    enforcer: &mut [u8],
) -> u8
    ensures { Start table.now header.now notion further.now enforcer.old result enforcer.new }
{
    if header.len() != sizes::HEADER_SIZE
        || sizes::STRONG_BYTE < notion
        || enforcer.len() != sizes::ENFORCER_SIZE
        || further.len() != sizes::FURTHER_SIZE
    {
        return MALFORMED;
    }
    let start = Enforcer::start(
        table,
        layout::read_header(header),
        layout::notion_of(notion),
        layout::read_further(further, 0),
    );
    let answer = start.answer;
    match answer {
        Err(refusal) => refusal::number(refusal),
        Ok(()) => {
            let fresh = start.enforcer;
            layout::write_enforcer(enforcer, fresh);
            0
        }
    }
}

// Offers one symbol: the enforcer after it, the released symbols at the front of the output, and in the bytes of a release their number and how many
// states are possible.
pub fn opacity_offer(
    table: &[u64],
    header: &[u8],
    symbol: u8,
    enforcer: &mut [u8],
    output: &mut [u8],
    release: &mut [u8],
) -> u8
    ensures { Offer table.now header.now symbol enforcer.old output.old release.old
        result enforcer.new output.new release.new }
{
    if header.len() != sizes::HEADER_SIZE
        || enforcer.len() != sizes::ENFORCER_SIZE
        || release.len() != sizes::RELEASE_SIZE
    {
        return MALFORMED;
    }
    if sizes::STRONG_BYTE < enforcer[sizes::NOTION_PLACE] {
        return MALFORMED;
    }
    let before = layout::read_enforcer(enforcer);
    let given = before.offer(table, layout::read_header(header), symbol, output);
    let answer = given.answer;
    match answer {
        Err(refusal) => refusal::number(refusal),
        Ok(told) => {
            let after = given.enforcer;
            layout::write_enforcer(enforcer, after);
            layout::write_release(release, told);
            0
        }
    }
}

// Explores an automaton with further secrets before it is delivered: in the bytes of an exploration the number of its different configurations, and for each
// notion the largest wait; or 15, where there are more than the budget allows: as many as it says, and 256 at most.
pub fn opacity_explore(
    table: &[u64],
    header: &[u8],
    further: &[u8],
    budget: u32,
    exploration: &mut [u8],
) -> u8
    ensures { Explore table.now header.now further.now budget exploration.old
        result exploration.new }
{
    if header.len() != sizes::HEADER_SIZE
        || further.len() != sizes::FURTHER_SIZE
        || exploration.len() != sizes::EXPLORATION_SIZE
    {
        return MALFORMED;
    }
    let answer = explore::explore(
        table,
        layout::read_header(header),
        layout::read_further(further, 0),
        budget,
    );
    match answer {
        Err(reason) => refusal::number(reason),
        Ok(found) => {
            layout::write_exploration(exploration, found);
            0
        }
    }
}

// The first leak among offered event bytes by a notion, 0 weak or 1 strong, with further secrets: the place of the first accepted one whose verdict is a leak
// of any secret, counted from 1; or 0, where there is none.
pub fn opacity_first_leak(
    table: &[u64],
    header: &[u8],
    notion: u8,
    further: &[u8],
    events: &[u8],
    place: &mut [u8],
) -> u8
    ensures { FirstLeakCall table.now header.now notion further.now events.now place.old
        result place.new }
{
    if header.len() != sizes::HEADER_SIZE
        || sizes::STRONG_BYTE < notion
        || further.len() != sizes::FURTHER_SIZE
        || place.len() != sizes::FIRST_LEAK_SIZE
    {
        return MALFORMED;
    }
    let answer = leaks::first_leak(
        table,
        layout::read_header(header),
        layout::read_further(further, 0),
        layout::notion_of(notion),
        events,
    );
    match answer {
        Err(refusal) => refusal::number(refusal),
        Ok(found) => {
            layout::write_number(place, found.unwrap_or(0));
            0
        }
    }
}

// Writes an encoding's automaton in its canonical form at the front of the output; and how many bytes these are.
pub fn opacity_canonical(encoding: &[u8], output: &mut [u8], size: &mut [u8]) -> u8
    ensures { CanonicalCall encoding.now output.old size.old result output.new size.new }
{
    if size.len() != sizes::WRITTEN_SIZE {
        return MALFORMED;
    }
    match canonical::canonical(encoding, output) {
        Err(refusal) => refusal::number(refusal),
        Ok(written) => {
            layout::write_number(size, written as u64);
            0
        }
    }
}

// Writes a run over the last k symbols that excuses the system of the secret with a number, by a notion, 0 weak or 1 strong: its pairs at the front of the
// output, event and state reached; and in the bytes of a run the state it starts in and the number of pairs.
pub fn opacity_witness(
    table: &[u64],
    header: &[u8],
    notion: u8,
    secret: u8,
    k: u8,
    estimator: &[u8],
    output: &mut [u8],
    run: &mut [u8],
) -> u8
    ensures { Witnessing table.now header.now notion secret k estimator.now output.old run.old
        result output.new run.new }
{
    if header.len() != sizes::HEADER_SIZE
        || sizes::STRONG_BYTE < notion
        || estimator.len() != sizes::ESTIMATOR_SIZE
        || run.len() != sizes::RUN_SIZE
    {
        return MALFORMED;
    }
    let answer = witness::witness(
        layout::read_estimator(estimator),
        table,
        layout::read_header(header),
        layout::notion_of(notion),
        secret,
        k,
        output,
    );
    match answer {
        Err(refusal) => refusal::number(refusal),
        Ok(written) => {
            layout::write_run(run, written.start, written.pairs);
            0
        }
    }
}

// Whether a start and pairs of bytes are such a run.
pub fn opacity_check_witness(
    table: &[u64],
    header: &[u8],
    notion: u8,
    secret: u8,
    k: u8,
    start: u8,
    estimator: &[u8],
    pairs: &[u8],
    valid: &mut [u8],
) -> u8
    ensures { CheckingWitness table.now header.now notion secret k start estimator.now pairs.now
        valid.old result valid.new }
{
    if header.len() != sizes::HEADER_SIZE
        || sizes::STRONG_BYTE < notion
        || estimator.len() != sizes::ESTIMATOR_SIZE
        || valid.len() != sizes::VALID_SIZE
    {
        return MALFORMED;
    }
    let checked = witness::check_witness(
        layout::read_estimator(estimator),
        table,
        layout::read_header(header),
        layout::notion_of(notion),
        secret,
        k,
        start,
        pairs,
    );
    match checked {
        Err(refusal) => refusal::number(refusal),
        Ok(holds) => {
            layout::write_valid(valid, holds);
            0
        }
    }
}
