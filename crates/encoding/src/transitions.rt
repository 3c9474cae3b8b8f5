// The transitions of an encoding: the fields of each are judged, it is compared with those before it, and its bit is set.
ghost use Rattle.std.specs.Prelude.{◌≡◌, ◌+◌, ◌*◌, ◌≤◌, ◌<◌, length};
ghost use Rattle.bitfields.specs.Bits.{bits_of};
ghost use Rattle.encoding.specs.Transitions.{listed, transition_at, transitions_at};
ghost use Rattle.encoding.specs.Encoding.{transition, transitions};
ghost use Rattle.encoding.specs.Table.{mark};
ghost use Rattle.encoding.specs.Answers.{checked_means};

use super::fields::read_field;
use super::{Fixed, ListedTransition};
use bitfields::Reader;
use refusal::Refusal;

// The transition at the reader's position, of an automaton with these top numbers: each field with its own check.
fn check_transition(reader: Reader<'_>, topstate: usize, topevent: usize) -> Result<(), Refusal>
    requires { reader.position ≤ 65536 }
    ensures { checked_means (transition_at (bits_of reader.entry.bytes.now) reader.entry.position) (reader.entry.position + 6 + 5 + 6) result
        ≡ transition topstate topevent (bits_of reader.entry.bytes.now) reader.entry.position }
{
    let from = read_field(reader, 6)?;
    if topstate < from {
        return Err(Refusal::StateOutOfRange);
    }
    let reader = reader.past(6);
    let event = read_field(reader, 5)?;
    if topevent < event {
        return Err(Refusal::EventOutOfRange);
    }
    let reader = reader.past(5);
    let to = read_field(reader, 6)?;
    if topstate < to {
        return Err(Refusal::StateOutOfRange);
    }
    Ok(())
}

// Whether transition `n` of those from `at` on is the same as an earlier one. The 17 bits of each are compared as one number.
fn repeated(bytes: &[u8], at: usize, n: usize) -> bool
    requires { (at ≤ 1024) × (n ≤ 1023) × (at + n * 17 + 17 ≤ length (bits_of bytes.now)) }
    ensures { result ≡ listed (transition_at (bits_of bytes.now) (at + n * 17)) (transitions_at (bits_of bytes.now) at n) }
{
    let last = bitfields::number_at(bytes, at + n * 17, 17);
    for i in 0..n {
        if bitfields::number_at(bytes, at + i * 17, 17) == last {
            return true;
        }
    }
    false
}

// The transitions from the reader's position on, one after another: each with its own checks, and then against all before it.
pub fn check_transitions(reader: Reader<'_>, fixed: Fixed) -> Result<(), Refusal>
    requires { (reader.position ≤ 1024) × (fixed.count ≤ 1023) }
    ensures { checked_means (transitions_at (bits_of reader.entry.bytes.now) reader.entry.position fixed.count)
        (reader.entry.position + fixed.count * 17) result
        ≡ transitions fixed.topstate fixed.topevent fixed.count (bits_of reader.entry.bytes.now) reader.entry.position }
{
    let mut next = reader;
    for i in 0..fixed.count {
        check_transition(next, fixed.topstate, fixed.topevent)?;
        if repeated(reader.bytes, reader.position, i) {
            return Err(Refusal::RepeatedTransition);
        }
        next = next.past(17);
    }
    Ok(())
}

// Sets the bit of a transition.
pub fn place(table: &mut [u64], read: ListedTransition)
    requires { (length table.old ≡ 2048) × (read.from < 64) × (read.event < 32) × (read.to < 64) }
    ensures { table.new ≡ mark table.old read }
{
    let word = 64 * read.event + read.from;
    table[word] |= 1u64 << read.to;
}
