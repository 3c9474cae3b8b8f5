// The first pass: the whole encoding is in order. Nothing is written. One Reader goes from the first field to the last transition, and the first refusal
// ends the pass.
ghost use Rattle.std.specs.Prelude.{◌≡◌};
ghost use Rattle.bitfields.specs.Bits.{bits_of};
ghost use Rattle.encoding.specs.Encoding.{encoding};
ghost use Rattle.encoding.specs.Answers.{encoding_means};

use bitfields::Reader;
use encoding::{Front, ending, preamble, transitions};
use refusal::Refusal;

fn check(reader: Reader<'_>) -> Result<Front, Refusal>
    requires { reader.position ≡ 0 }
    ensures { encoding_means (bits_of reader.entry.bytes.now) result ≡ encoding (bits_of reader.entry.bytes.now) 0 }
{
    let front = preamble::read_preamble(reader)?;
    let reader = reader.past(front.preamble_end());
    transitions::check_transitions(reader, front.fixed)?;
    ending::ending_at(reader.bytes, front.end())?;
    Ok(front)
}

// The whole first pass: the front of an encoding that is in order, or its first refusal. The reader is made where the encoding begins.
pub fn check_bytes(bytes: &[u8]) -> Result<Front, Refusal>
    ensures { encoding_means (bits_of bytes.now) result ≡ encoding (bits_of bytes.now) 0 }
{
    check(Reader::at(bytes, 0))
}
