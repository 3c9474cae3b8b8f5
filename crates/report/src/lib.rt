// The lines of the log programs, written into a lent output. Bytes past the written ones stay as they were. Each public function says where the next line
// goes, or None: there is no room for its line, and nothing is written.
// (They take the output and the place side by side: the crates above call them by this signature.)
#![tactic(auto)]

pub mod witnesses; // the lines of the witnesses of a log

ghost use Rattle.std.specs.Prelude.{◌≡◌, [], ◌∷◌, ◌++◌, map, ◌+◌, ◌*◌, ◌%◌, ◌≤◌, ◌<◌, length};
ghost use Rattle.stateset.specs.Set.{Decided};
ghost use Rattle.refusal.specs.Refusals.{number_of};
ghost use Rattle.report.specs.Text.{decimal, led, steps, symbols, accepted_line, idle_line, refused_line, end_line, refused_log};
ghost use Rattle.report.specs.Text.{place_line, no_place_line};
ghost use Rattle.report.specs.Adding.{Adds};
ghost use Rattle.report.specs.Writing.{room_for, room_at_end, Written};

use opacity::{Verdict, Verdicts};
use refusal::Refusal;
use verifier::Judgement;

// Room for any line that names at most 17 released events, and for the last lines.
pub const LINE: usize = 256;

fn digit(n: u32) -> u8
    ensures { result ≡ 48 + n % 10 }
{
    b'0' + (n % 10) as u8
}

// An output, and the place of the byte that is written next.
#[derive(Drop)]
struct Writer<'a> {
    out: &'a mut [u8],
    at: usize,
}

impl Writer<'_> {
    // One byte.
    fn byte(&mut self, b: u8)
        requires { self.old.at < length self.old.out.now }
        ensures { Adds 1 (b ∷ []) self.old self.new }
    {
        self.out[self.at] = b;
        self.at += 1;
    }

    // A number in base ten.
    fn number(&mut self, n: u32)
        requires { self.old.at + 10 ≤ length self.old.out.now }
        ensures { Adds 10 (decimal n) self.old self.new }
    {
        if n < 10 {
            return self.byte(digit(n));
        }
        self.number(n / 10);
        self.byte(digit(n));
    }

    // All of a text.
    fn text(&mut self, s: &[u8])
        requires { self.old.at + length s.now ≤ length self.old.out.now }
        ensures { Adds (length s.now) s.now self.old self.new }
    {
        let next = self.at + s.len();
        self.out[self.at..next].copy_from_slice(s);
        self.at = next;
    }

    // A separator and a number.
    fn field(&mut self, sep: u8, n: u32)
        requires { self.old.at + 11 ≤ length self.old.out.now }
        ensures { Adds 11 (sep ∷ decimal n) self.old self.new }
    {
        self.byte(sep);
        self.number(n);
    }

    // A space and `-`.
    fn dash(&mut self)
        requires { self.old.at + 2 ≤ length self.old.out.now }
        ensures { Adds 2 (32 ∷ 45 ∷ []) self.old self.new }
    {
        self.byte(b' ');
        self.byte(b'-');
    }

    // A space and a verdict.
    fn verdict_field(&mut self, verdict: Verdict)
        requires { self.old.at + 11 ≤ length self.old.out.now }
        ensures { Adds 11 (32 ∷ steps verdict) self.old self.new }
    {
        match verdict {
            Verdict::NoLeak => self.dash(),
            Verdict::Leak(l) => self.field(b' ', u32::from(l)),
        }
    }

    // A space and the weak verdict of the automaton's own secret, a space and the strong one, a space and how many states are possible: for an event's
    // line and for the line of an idle log.
    fn judgement_fields(&mut self, judgement: Judgement<Verdicts>)
        requires { self.old.at + 33 ≤ length self.old.out.now }
        ensures { Adds 33
            ((32 ∷ steps judgement.verdicts.own.weak) ++ ((32 ∷ steps judgement.verdicts.own.strong) ++ (32 ∷ decimal judgement.size)))
            self.old self.new }
    {
        let own = judgement.verdicts.own; // the log has no further secret
        self.verdict_field(own.weak);
        self.verdict_field(own.strong);
        self.field(b' ', u32::from(judgement.size));
    }

    // Each symbol with a comma in front of it.
    fn more_symbols(&mut self, released: &[u8])
        requires { self.old.at + 11 * length released.now ≤ length self.old.out.now }
        ensures { Adds (11 * length released.now) (led 44 (map decimal released.now)) self.old self.new }
    {
        for symbol in released {
            self.field(b',', u32::from(*symbol));
        }
    }

    // A space and the symbols, or a space and `-`.
    fn symbols_field(&mut self, released: &[u8])
        requires { self.old.at + 2 + 11 * length released.now ≤ length self.old.out.now }
        ensures { Adds (2 + 11 * length released.now) (32 ∷ symbols released.now) self.old self.new }
    {
        let [first, others @ ..] = released else {
            return self.dash();
        };
        self.field(b' ', u32::from(*first));
        self.more_symbols(others);
    }

    // A space and a refusal's number: for an event's line and for a refused log.
    fn refusal_field(&mut self, refusal: Refusal)
        requires { self.old.at + 11 ≤ length self.old.out.now }
        ensures { Adds 11 (32 ∷ decimal (number_of refusal)) self.old self.new }
    {
        self.field(b' ', u32::from(refusal::number(refusal)));
    }

    // The last line: of a log, and behind the line of an idle one.
    fn last_line(&mut self, accepted: u32, released: u32, pending: u32)
        requires { self.old.at + room_for 0 ≤ length self.old.out.now }
        ensures { Adds (room_for 0) (end_line accepted released pending) self.old self.new }
    {
        self.text(b"end");
        self.field(b' ', accepted);
        self.field(b' ', released);
        self.field(b' ', pending);
        self.byte(b'\n');
    }
}

// There is room at a place for a line that names so many released events. (Divided, since a product might not fit.)
fn has_room(out: &[u8], at: usize, released: usize) -> bool
    ensures { Decided result (at + room_for released ≤ length out.now) }
{
    at <= out.len() && 64 <= out.len() - at && released <= (out.len() - at - 64) / 11
}

// There is room at a place for the last lines: for one of them, 64 bytes, and for one behind it.
fn has_room_at_end(out: &[u8], at: usize) -> bool
    ensures { Decided result (at + room_at_end ≤ length out.now) }
{
    has_room(out, at, 0) && has_room(out, at + 64, 0)
}

// The line of an accepted event: its place, its symbol, the verdicts, how many states are possible, and the symbols that it released.
pub fn accepted(
    out: &mut [u8],
    at: usize,
    place: u32,
    symbol: u8,
    judgement: Judgement<Verdicts>,
    released: &[u8],
) -> Option<usize>
    ensures { Written (room_for (length released.now)) out.old at
        (accepted_line place symbol judgement.verdicts.own.weak judgement.verdicts.own.strong judgement.size released.now) result
        out.new }
{
    if !has_room(out, at, released.len()) {
        return None;
    }
    let mut line = Writer { out, at };
    line.number(place);
    line.field(b' ', u32::from(symbol));
    line.judgement_fields(judgement);
    line.symbols_field(released);
    line.byte(b'\n');
    Some(line.at)
}

// The line of a refused event.
pub fn refused(out: &mut [u8], at: usize, byte: u8, refusal: Refusal) -> Option<usize>
    ensures { Written (room_for 0) out.old at (refused_line byte refusal) result out.new }
{
    if !has_room(out, at, 0) {
        return None;
    }
    let mut line = Writer { out, at };
    line.byte(b'!');
    line.field(b' ', u32::from(byte));
    line.refusal_field(refusal);
    line.byte(b'\n');
    Some(line.at)
}

// The last line. (Room for two lines is asked for, as `idle` does, so that a log's end asks for the same whichever it writes.)
pub fn ended(out: &mut [u8], at: usize, accepted: u32, released: u32, pending: u32) -> Option<usize>
    ensures { Written room_at_end out.old at (end_line accepted released pending) result out.new }
{
    if !has_room_at_end(out, at) {
        return None;
    }
    let mut line = Writer { out, at };
    line.last_line(accepted, released, pending);
    Some(line.at)
}

// The lines of a log without event bytes: the opening verdicts with how many states are possible, and the last line.
pub fn idle(
    out: &mut [u8],
    at: usize,
    opening: Judgement<Verdicts>,
    accepted: u32,
    released: u32,
    pending: u32,
) -> Option<usize>
    ensures { Written room_at_end out.old at
        (idle_line opening.verdicts.own.weak opening.verdicts.own.strong opening.size ++ end_line accepted released pending) result out.new }
{
    if !has_room_at_end(out, at) {
        return None;
    }
    let mut lines = Writer { out, at };
    lines.number(0);
    lines.dash();
    lines.judgement_fields(opening);
    lines.dash();
    lines.byte(b'\n');
    lines.last_line(accepted, released, pending);
    Some(lines.at)
}

// The one line of a refused log.
pub fn refused_log(out: &mut [u8], at: usize, refusal: Refusal) -> Option<usize>
    ensures { Written (room_for 0) out.old at (refused_log refusal) result out.new }
{
    if !has_room(out, at, 0) {
        return None;
    }
    let mut line = Writer { out, at };
    line.text(b"refused");
    line.refusal_field(refusal);
    line.byte(b'\n');
    Some(line.at)
}

// The line of the first leak of a log (02, S-8): its place.
pub fn leak_at(out: &mut [u8], at: usize, place: u32) -> Option<usize>
    ensures { Written (room_for 0) out.old at (place_line place) result out.new }
{
    if !has_room(out, at, 0) {
        return None;
    }
    let mut line = Writer { out, at };
    line.number(place);
    line.byte(b'\n');
    Some(line.at)
}

// The line of a log without a leak (02, S-8).
pub fn leak_nowhere(out: &mut [u8], at: usize) -> Option<usize>
    ensures { Written (room_for 0) out.old at no_place_line result out.new }
{
    if !has_room(out, at, 0) {
        return None;
    }
    let mut line = Writer { out, at };
    line.text(b"-\n");
    Some(line.at)
}
