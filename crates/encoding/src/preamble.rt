// The front of an encoding and the symbols behind it: the fields, one after another, each with its own check, in the order of the layout.
ghost use Rattle.std.specs.Prelude.{◌≡◌, ◌+◌, ◌*◌, ◌≤◌, length};
ghost use Rattle.bitfields.specs.Bits.{bits_of};
ghost use Rattle.encoding.specs.Transitions.{symbols_at};
ghost use Rattle.encoding.specs.Encoding.{fixed, front, symbols, preamble};
ghost use Rattle.encoding.specs.Answers.{fixed_means, front_means, preamble_means, checked_means};

use super::fields::{read_field, read_flags};
use super::{Fixed, Front};
use bitfields::Reader;
use refusal::Refusal;

// The fields that each encoding starts with.
fn read_fixed(reader: Reader<'_>) -> Result<Fixed, Refusal>
    requires { reader.position ≡ 0 }
    ensures { fixed_means result ≡ fixed (bits_of reader.entry.bytes.now) 0 }
{
    let topstate = read_field(reader, 6)?;
    let reader = reader.past(6);
    let topevent = read_field(reader, 5)?;
    let reader = reader.past(5);
    let k = read_field(reader, 4)?;
    let reader = reader.past(4);
    let initial = read_field(reader, 6)?;
    if topstate < initial {
        return Err(Refusal::StateOutOfRange);
    }
    let reader = reader.past(6);
    let count = read_field(reader, 10)?;
    let reader = reader.past(10);
    let symbols = read_field(reader, 1)?;
    Ok(Fixed {
        topstate,
        topevent,
        k,
        initial,
        count,
        symbols,
    })
}

// Behind them the secret states and the observable events.
fn read_front(reader: Reader<'_>) -> Result<Front, Refusal>
    requires { reader.position ≡ 0 }
    ensures { front_means result ≡ front (bits_of reader.entry.bytes.now) 0 }
{
    let fixed = read_fixed(reader)?;
    let reader = reader.past(32);
    let states = fixed.states();
    let secret = read_flags(reader, states)?;
    let reader = reader.past(states);
    let observable = read_flags(reader, fixed.events())?;
    Ok(Front {
        fixed,
        secret,
        observable,
    })
}

// A symbol of 5 bits needs no check of its own, only the bits.
pub fn symbols_at(bytes: &[u8], at: usize, n: usize) -> Result<(), Refusal>
    requires { (at ≤ 1024) × (n ≤ 32) × (at ≤ length (bits_of bytes.now)) }
    ensures { checked_means (symbols_at (bits_of bytes.now) at n) (at + n * 5) result ≡ symbols n (bits_of bytes.now) at }
{
    if bytes.len() < (at + n * 5 + 7) / 8 {
        return Err(Refusal::Truncated);
    }
    Ok(())
}

// The front, where the symbols behind it are in order too.
pub fn read_preamble(reader: Reader<'_>) -> Result<Front, Refusal>
    requires { reader.position ≡ 0 }
    ensures { preamble_means (bits_of reader.entry.bytes.now) result ≡ preamble (bits_of reader.entry.bytes.now) 0 }
{
    let front = read_front(reader)?;
    symbols_at(reader.bytes, front.front_end(), front.fixed.symbol_count())?;
    Ok(front)
}
