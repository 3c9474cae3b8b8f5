// What stands behind the last transition.
ghost use Rattle.std.specs.Prelude.{◌≡◌, ◌≤◌};
ghost use Rattle.bitfields.specs.Bits.{bits_of};
ghost use Rattle.encoding.specs.Encoding.{ending};
ghost use Rattle.encoding.specs.Answers.{checked_means};

use refusal::Refusal;

// Zero bits to the end of the byte, and no further byte. (Behind the bytes there is nothing to refuse.)
pub fn ending_at(bytes: &[u8], at: usize) -> Result<(), Refusal>
    requires { at ≤ 65536 }
    ensures { checked_means tt at result ≡ ending (bits_of bytes.now) at }
{
    if (at + 7) / 8 < bytes.len() {
        return Err(Refusal::TrailingData);
    }
    if bytes.len() * 8 < at {
        return Ok(());
    }
    let rest = bytes.len() * 8 - at;
    if bitfields::number_at(bytes, at, rest) != 0 {
        return Err(Refusal::TrailingData);
    }
    Ok(())
}
