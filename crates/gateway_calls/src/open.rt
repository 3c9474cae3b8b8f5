// Calls on states within their limits that did not grow from a fresh one. Which answer they get is left open, so `Open` stands for any that is
// allowed, and every slot gets back what it held. A state is within its limits if byte 255, which is never observable, gets 6 and not 9. And calls for a
// witness, of which there may be several: `Passes` stands for any that passes the checker.
ghost use Rattle.std.specs.Prelude.{◌≤◌};

use super::calls::{Asked, Call};
use super::store::{Memory, SLOT, Slot};
use layout::sizes;
use std::fmt;

// What is said of a call.
#[derive(Clone, Copy)]
pub enum Said {
    Answer(u8),
    // Some answer that is allowed, where the answer is left open.
    Open,
    // The answer 0 with some run that passes the checker.
    Passes,
}

impl fmt::Display for Said {
    fn fmt<W: fmt::Write>(&self, f: &mut fmt::Formatter<W>) -> fmt::Result {
        match self {
            Said::Answer(answer) => write!(f, "{answer}"),
            Said::Open => write!(f, "open"),
            Said::Passes => write!(f, "passes"),
        }
    }
}

// The most pairs that are written.
const MOST_PAIRS: usize = 1086;

// A verdict from 0 to K, or none; none where the secret is not given.
fn bounded(verdict: u8, given: bool, k: u8) -> bool {
    verdict == sizes::NO_LEAK_BYTE || given && verdict <= k
}

// A number of states.
fn some_states(size: u8) -> bool {
    1 <= size && size <= 64
}

// The two verdicts of the secret with a number, by its own K.
fn told(judgement: &[u8; SLOT], number: usize, given: bool, k: u8) -> bool
    requires { number ≤ 3 }
{
    let at = sizes::VERDICTS_SIZE * number;
    bounded(judgement[at], given, k) && bounded(judgement[at + sizes::STRONG_PLACE], given, k)
}

// The further secrets that a saved state holds.
fn secrets_of(state: &[u8; SLOT]) -> &[u8] {
    &state[sizes::FURTHER_PLACE..sizes::FURTHER_PLACE + sizes::FURTHER_SIZE]
}

// The K of the further secret at a place of those that the estimator keeps.
fn k_at(estimator: &[u8; SLOT], place: usize) -> u8
    requires { place ≤ 28 }
{
    estimator[sizes::FURTHER_PLACE + place + sizes::SECRET_K_PLACE]
}

fn judgement_allowed(memory: &Memory, before: &Memory) -> bool {
    let judgement = &memory.judgement.elements;
    let estimator = &memory.estimator.elements;
    let k = memory.header.elements[sizes::HEADER_K_PLACE];
    let count = estimator[sizes::FURTHER_PLACE];
    let first = k_at(estimator, sizes::FIRST_SECRET_PLACE);
    let second = k_at(estimator, sizes::SECOND_SECRET_PLACE);
    let third = k_at(estimator, sizes::THIRD_SECRET_PLACE);
    told(judgement, 0, true, k)
        && told(judgement, 1, 0 < count, first)
        && told(judgement, 2, 1 < count, second)
        && told(judgement, 3, 2 < count, third)
        && some_states(judgement[sizes::JUDGED_POSSIBLE_PLACE])
        && secrets_of(estimator) == secrets_of(&before.estimator.elements)
}

// Whether, of the symbols in a queue, so many stand at the front of the output, with what it had behind them, and the others are pending.
fn released_from(
    memory: &Memory,
    queue: &[u8; SLOT],
    before: &Memory,
    n: usize,
    pending: usize,
) -> bool
    requires { (n ≤ 255) × (pending ≤ 255) }
{
    let output = &memory.output.elements;
    let kept = &before.output.elements;
    let enforcer = &memory.enforcer.elements;
    let at = sizes::PENDING_SYMBOLS_PLACE;
    let next = at + n;
    &output[..n] == &queue[at..next]
        && &output[n..] == &kept[n..]
        && &enforcer[at..at + pending] == &queue[next..next + pending]
}

// Whether the symbols that were pending and the new one behind them are released and pending; whether the number of states is from 1 to 64; and whether
// the further secrets are as they were.
fn release_allowed(memory: &Memory, symbol: u8, before: &Memory) -> bool {
    let count = usize::from(before.enforcer.elements[sizes::PENDING_PLACE]);
    let released = usize::from(memory.release.elements[sizes::RELEASED_PLACE]);
    let pending = usize::from(memory.enforcer.elements[sizes::PENDING_PLACE]);
    if released + pending != count + 1 {
        return false;
    }
    let mut queue = before.enforcer.elements;
    queue[sizes::PENDING_SYMBOLS_PLACE + count] = symbol;
    released_from(memory, &queue, before, released, pending)
        && some_states(memory.release.elements[sizes::RELEASED_POSSIBLE_PLACE])
        && secrets_of(&memory.enforcer.elements) == secrets_of(&before.enforcer.elements)
}

// A call that is lent a saved state and a symbol: any answer will do where the estimate is empty or what was written is allowed, and the state is within
// its limits.
fn open_symbol(call: Call, outside: Call, memory: &mut Memory) -> Said {
    let before = *memory;
    let answer = call.answer(memory);
    let allowed = match (answer, call) {
        (7, _) => *memory == before,
        (0, Call::Offer(symbol)) => release_allowed(memory, symbol, &before),
        (0, _) => judgement_allowed(memory, &before),
        _ => false,
    };
    let within = outside.answer(memory) == 6;
    *memory = before;
    if allowed && within {
        Said::Open
    } else {
        Said::Answer(answer)
    }
}

// Whether the checker says yes to the first bytes of the output, with the start that was written. It is lent them in the slot of the pairs.
fn checked(asked: Asked, n: usize, memory: &mut Memory) -> bool {
    memory.pairs = Slot {
        size: n,
        elements: memory.output.elements,
    };
    memory.valid.size = sizes::VALID_SIZE;
    memory.valid.elements[sizes::VALID_PLACE] = 0;
    let start = memory.run.elements[sizes::RUN_START_PLACE];
    let answer = Call::CheckWitness(asked, start).answer(memory);
    answer == 0 && memory.valid.elements[sizes::VALID_PLACE] == sizes::VALID_BYTE
}

// Whether at most so many pairs were written, which pass the checker, and the rest of the output is as it was.
fn run_passes(asked: Asked, memory: &mut Memory, before: &Memory) -> bool {
    let low = memory.run.elements[sizes::RUN_PAIRS_PLACE];
    let high = memory.run.elements[sizes::RUN_PAIRS_PLACE + 1];
    let pairs = usize::from(u16::from_le_bytes([low, high]));
    if MOST_PAIRS < pairs {
        return false;
    }
    let n = 2 * pairs;
    let output = &memory.output.elements;
    let kept = &before.output.elements;
    &output[n..] == &kept[n..] && checked(asked, n, memory)
}

// What a call for a witness did.
#[derive(Clone, Copy)]
enum Outcome {
    // It wrote a run that passes.
    Wrote,
    // It gave this answer, and left every slot.
    Refused(u8),
    // It gave this answer, and should not have.
    Failed(u8),
}

fn tried(asked: Asked, memory: &mut Memory) -> Outcome {
    let before = *memory;
    let answer = Call::Witness(asked).answer(memory);
    let kept = *memory == before;
    let passes = answer == 0 && run_passes(asked, memory, &before);
    *memory = before;
    if passes {
        Outcome::Wrote
    } else if kept {
        Outcome::Refused(answer)
    } else {
        Outcome::Failed(answer)
    }
}

// What is said of a call for a witness of which any run will do; no other call is made so.
pub fn any(call: Call, memory: &mut Memory) -> Option<Said> {
    let Call::Witness(asked) = call else {
        return None;
    };
    Some(match tried(asked, memory) {
        Outcome::Wrote => Said::Passes,
        Outcome::Refused(answer) => Said::Answer(answer),
        Outcome::Failed(answer) => Said::Answer(answer),
    })
}

// What is said of a call whose answer is left open: one that is lent a saved state and a symbol, or one for a witness.
pub fn open(call: Call, memory: &mut Memory) -> Option<Said> {
    match call {
        Call::Accept(_) => Some(open_symbol(call, Call::Accept(255), memory)),
        Call::Offer(_) => Some(open_symbol(call, Call::Offer(255), memory)),
        Call::Witness(asked) => Some(match tried(asked, memory) {
            Outcome::Wrote => Said::Open,
            Outcome::Refused(16 | 17) => Said::Open,
            Outcome::Refused(answer) => Said::Answer(answer),
            Outcome::Failed(answer) => Said::Answer(answer),
        }),
        _ => None,
    }
}
