// A field or a set at the reader's position, or the refusal where the bytes end before or inside it.
ghost use Rattle.std.specs.Prelude.{◌≡◌, ◌+◌, ◌≤◌};
ghost use Rattle.bitfields.specs.Bits.{bits_of};
ghost use Rattle.bitfields.specs.Parser.{field, flags};
ghost use Rattle.encoding.specs.Answers.{read_means};

use bitfields::Reader;
use refusal::Refusal;

pub(crate) fn read_field(reader: Reader<'_>, width: usize) -> Result<usize, Refusal>
    requires { (width ≤ 17) × (reader.position ≤ 100000) }
    ensures { read_means (reader.entry.position + width) result
        ≡ field width (bits_of reader.entry.bytes.now) reader.entry.position }
{
    reader.field(width).ok_or(Refusal::Truncated)
}

pub(crate) fn read_flags(reader: Reader<'_>, n: usize) -> Result<u64, Refusal>
    requires { (n ≤ 64) × (reader.position ≤ 65536) }
    ensures { read_means (reader.entry.position + n) result ≡ flags n (bits_of reader.entry.bytes.now) reader.entry.position }
{
    reader.flags(n).ok_or(Refusal::Truncated)
}
