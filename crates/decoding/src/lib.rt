// Decodes an automaton (01: description): its header, and its transitions into a lent table of 2,048 words.
// The whole encoding is checked first (`first_pass`), so that a refusal leaves the table as it was; then the table is cleared and filled (`second_pass`).
// Each pass makes one Reader of `bitfields` where it begins, which goes from field to field; `encoding` below reads and judges the fields by it. Only
// `decode` is an entry: it demands nothing of its caller, and nor does `check_bytes`, the first pass alone, which is inner, for `canonical` above.
#![tactic(auto)]

pub mod first_pass; // all of an encoding is in order
mod second_pass; // what it says is stored

ghost use Rattle.std.specs.Prelude.{◌≡◌};
ghost use Rattle.decoding.specs.Decoding.{Decoding, refused_by, answer_means};

use automaton::Header;
use first_pass::check_bytes;
use refusal::Refusal;
use second_pass::read_bytes;

// What decoding answers: accepted, or the refusal; and the header beside it. That of a refused call is none: K is 255, outside its limit, so that every
// entry refuses it. (The contract promises this header of a refusal, which an Err with no header could not.)
#[derive(Clone, Copy)]
pub struct Decoded {
    pub header: Header,
    pub answer: Result<(), Refusal>,
}

fn refused(refusal: Refusal) -> Decoded
    ensures { result ≡ refused_by refusal }
{
    Decoded {
        header: Header {
            initial: 0,
            k: 255,
            secret: 0,
            observable: 0,
            symbols: [0u8; 32],
        },
        answer: Err(refusal),
    }
}

// Decodes an automaton: the header, and the transitions into the table. A refusal leaves the table as it was.
pub fn decode(bytes: &[u8], table: &mut [u64]) -> Decoded
    ensures { Decoding bytes.now table.old result.header (answer_means result.answer) table.new }
{
    if table.len() != 2048 {
        return refused(Refusal::Malformed);
    }
    match check_bytes(bytes) {
        Err(r) => refused(r),
        Ok(f) => {
            table.fill(0);
            let header = read_bytes(bytes, f, table);
            Decoded {
                header,
                answer: Ok(()),
            }
        }
    }
}
