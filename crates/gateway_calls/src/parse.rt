// The parts of a line: words, numbers, elements of a slot.
ghost use Rattle.std.specs.Prelude.{◌≤◌, ◌<◌, length, IsSome, IfSome};

// What is left of a line. A part that is there is taken off its front.
#[derive(Clone, Copy)]
pub struct Text<'a> {
    pub rest: &'a [u8],
}

// An element of a slot, and how many times it is meant from its place on.
#[derive(Clone, Copy)]
pub struct Element {
    pub place: usize,
    pub word: u64,
    pub times: usize,
}

fn digit(byte: u8) -> Option<u8>
    ensures { IfSome result (λ d. d < 16) }
{
    match byte {
        b'0'..=b'9' => Some(byte - b'0'),
        b'a'..=b'f' => Some(byte - b'a' + 10),
        _ => None,
    }
}

// A number with one digit more; none where the byte is no digit to the base, or the number would be too large.
fn with_digit(number: u64, base: u64, byte: u8) -> Option<u64> {
    let digit = u64::from(digit(byte)?);
    if base <= digit {
        return None;
    }
    number.checked_mul(base)?.checked_add(digit)
}

// The number at the front, 0 where there is no digit, and what stands behind it.
fn number_at(digits: &[u8], base: u64) -> (u64, &[u8])
    ensures { length result.1.now ≤ length digits.now }
{
    let mut number = 0;
    for (i, byte) in digits.iter().enumerate() {
        let Some(more) = with_digit(number, base, *byte) else {
            return (number, &digits[i..]);
        };
        number = more;
    }
    (number, b"")
}

// Of a word the last eight letters, without zero bytes before them: words are told apart by no more.
fn last_letters(word: &[u8]) -> &[u8] {
    let last = &word[word.len().saturating_sub(8)..];
    match last.iter().position(|b| *b != 0) {
        Some(first) => &last[first..],
        None => b"",
    }
}

impl<'a> Text<'a> {
    // The word up to the next space or to the end.
    pub fn word(&mut self) -> &'a [u8] {
        let all = self.rest;
        let end = all.iter().position(|b| *b == b' ').unwrap_or(all.len());
        let (word, behind) = all.split_at(end);
        self.rest = behind;
        last_letters(word)
    }

    // What stands behind a space.
    pub fn behind_space(self) -> Option<Text<'a>> {
        let rest = self.rest.strip_prefix(b" ")?;
        Some(Text { rest })
    }

    // The number behind a mark. Where the mark or the number is not there, nothing is taken.
    pub fn number_after(&mut self, mark: u8, base: u64) -> Option<u64>
        ensures shorter { IsSome result → length self.new.rest.now < length self.old.rest.now }
        ensures no_longer { length self.new.rest.now ≤ length self.old.rest.now }
    {
        let (first, digits) = self.rest.split_first()?;
        if *first != mark {
            return None;
        }
        let (number, behind) = number_at(digits, base);
        if behind.len() == digits.len() {
            return None;
        }
        self.rest = behind;
        Some(number)
    }

    // A number of a call.
    pub fn number<T: TryFrom<u64, Error: Drop>>(&mut self) -> Option<T> {
        T::try_from(self.number_after(b' ', 10)?).ok()
    }

    // The element that follows, behind its index, or else behind the one before it, which ended at `place`.
    pub fn element(&mut self, place: usize) -> Option<Element>
        ensures { IsSome result → length self.new.rest.now < length self.old.rest.now }
    {
        let (place, word) = match self.number_after(b' ', 10) {
            Some(index) => (index as usize, self.number_after(b':', 16)?),
            None => (place, self.number_after(b',', 16)?),
        };
        let times = self.number_after(b'*', 10).unwrap_or(1) as usize;
        Some(Element { place, word, times })
    }
}
