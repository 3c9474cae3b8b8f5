// The second pass, over an encoding that is in order: the symbols go into the header, and the transitions into the table. One Reader goes from the
// first transition to the last.
ghost use Rattle.std.specs.Prelude.{◌≡◌, ◌+◌, ◌*◌, ◌≤◌, length, replicate};
ghost use Rattle.bitfields.specs.Bits.{bits_of};
ghost use Rattle.encoding.specs.Transitions.{transition_at, transitions_at};
ghost use Rattle.encoding.specs.Table.{table_of};
ghost use Rattle.encoding.specs.Answers.{preamble_end, given_symbols, header_of, FrontSmall};

use automaton::Header;
use bitfields::Reader;
use encoding::{Front, ListedTransition, header, transitions};

// The transition at the reader's position: the reader goes from field to field.
fn read_transition(reader: Reader<'_>) -> ListedTransition
    requires { (reader.position ≤ 65536) × (reader.position + 17 ≤ length (bits_of reader.bytes.now)) }
    ensures { result ≡ transition_at (bits_of reader.entry.bytes.now) reader.entry.position }
{
    let from = reader.number(6);
    let reader = reader.past(6);
    let event = reader.number(5);
    let reader = reader.past(5);
    let to = reader.number(6);
    ListedTransition { from, event, to }
}

// The transitions from the reader's position on, into an empty table: the reader goes from one to the next.
fn fill(reader: Reader<'_>, count: usize, table: &mut [u64])
    requires { (reader.position ≤ 1024) × (count ≤ 1023) × (reader.position + count * 17 ≤ length (bits_of reader.bytes.now))
        × (table.old ≡ replicate 2048 0) }
    ensures { table.new ≡ table_of (transitions_at (bits_of reader.entry.bytes.now) reader.entry.position count) }
{
    for placed in 0..count {
        let next = reader.past(placed * 17);
        transitions::place(table, read_transition(next));
    }
}

// The header is read from the front and the symbols; the reader is made where the transitions begin.
pub(crate) fn read_bytes(bytes: &[u8], front: Front, table: &mut [u64]) -> Header
    requires { FrontSmall front × (preamble_end front + front.fixed.count * 17 ≤ length (bits_of bytes.now)) × (table.old ≡ replicate 2048 0) }
    ensures { (result ≡ header_of front (given_symbols (bits_of bytes.now) front))
        × (table.new ≡ table_of (transitions_at (bits_of bytes.now) (preamble_end front) front.fixed.count)) }
{
    let header = header::header_at(bytes, front.front_end(), front);
    let reader = Reader::at(bytes, front.preamble_end());
    fill(reader, front.fixed.count, table);
    header
}
