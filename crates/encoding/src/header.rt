// The header of an encoding that is in order: what its front says, and the symbol of each event.
ghost use Rattle.std.specs.Prelude.{◌≡◌, ◌+◌, ◌*◌, ◌≤◌, ◌<◌, length};
ghost use Rattle.bitfields.specs.Bits.{bits_of};
ghost use Rattle.encoding.specs.Transitions.{symbols_at};
ghost use Rattle.encoding.specs.Answers.{front_end, preamble_end, given_symbols, symbol_for, header_symbols, header_of, FrontSmall};

use super::Front;
use automaton::Header;

// The symbol that the header holds for an event: 0 where it is not observable, its own number where no symbols are listed.
fn symbol_at(bytes: &[u8], at: usize, n: usize, observable: u64, e: usize) -> u8
    requires { (e < 32) × (at ≤ 1024) × (n ≤ 32) × (at + n * 5 ≤ length (bits_of bytes.now)) }
    ensures { result ≡ symbol_for observable (symbols_at (bits_of bytes.now) at n) e }
{
    if !stateset::member(observable, e) {
        return 0;
    }
    if n == 0 {
        return e as u8;
    }
    if n <= e {
        return 0;
    }
    bitfields::number_at(bytes, at + e * 5, 5) as u8
}

// The symbols of all 32 events.
pub fn all_symbols(bytes: &[u8], at: usize, n: usize, observable: u64) -> [u8; 32]
    requires { (at ≤ 1024) × (n ≤ 32) × (at + n * 5 ≤ length (bits_of bytes.now)) }
    ensures { result ≡ header_symbols observable (symbols_at (bits_of bytes.now) at n) }
{
    let mut symbols = [0u8; 32];
    for e in 0..32 {
        symbols[e] = symbol_at(bytes, at, n, observable, e);
    }
    symbols
}

// The header, with the symbols that stand at a position.
pub fn header_at(bytes: &[u8], at: usize, front: Front) -> Header
    requires { (at ≡ front_end front) × FrontSmall front × (preamble_end front ≤ length (bits_of bytes.now)) }
    ensures { result ≡ header_of front (given_symbols (bits_of bytes.now) front) }
{
    let fixed = front.fixed;
    let symbols = all_symbols(bytes, at, fixed.symbol_count(), front.observable);
    Header {
        initial: fixed.initial as u8,
        k: fixed.k as u8,
        secret: front.secret,
        observable: front.observable as u32,
        symbols,
    }
}
