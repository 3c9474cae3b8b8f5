// The lines of the witnesses of a log (02, S-10: alibis): for a notion and a step a run that excuses the system, or that there is none; and the last line.
ghost use Rattle.std.specs.Prelude.{◌∷◌, ◌++◌, ◌+◌, ◌*◌, ◌≤◌, length};
ghost use Rattle.report.specs.Text.{decimal, led};
ghost use Rattle.report.specs.Witnesses.{word, pair_field, pair_fields, witness_line, no_witness_line, accepted_end};
ghost use Rattle.report.specs.Adding.{Adds};
ghost use Rattle.report.specs.Writing.{room_for, Written};

use super::{Writer, has_room};
use opacity::Notion;

impl Writer<'_> {
    // The word of a notion.
    fn word(&mut self, notion: Notion)
        requires { self.old.at + 6 ≤ length self.old.out.now }
        ensures { Adds 6 (word notion) self.old self.new }
    {
        match notion {
            Notion::Weak => self.text(b"weak"),
            Notion::Strong => self.text(b"strong"),
        }
    }

    // The word of a notion, a space and the step.
    fn step(&mut self, notion: Notion, k: u8)
        requires { self.old.at + 17 ≤ length self.old.out.now }
        ensures { Adds 17 (word notion ++ (32 ∷ decimal k)) self.old self.new }
    {
        self.word(notion);
        self.field(b' ', u32::from(k));
    }

    // A space and a pair: the event, a comma, and the state that it reaches.
    fn pair(&mut self, event: u8, state: u8)
        requires { self.old.at + 22 ≤ length self.old.out.now }
        ensures { Adds 22 (32 ∷ pair_field event state) self.old self.new }
    {
        self.field(b' ', u32::from(event));
        self.field(b',', u32::from(state));
    }

    // Each pair with a space in front of it.
    fn pairs(&mut self, pairs: &[u8])
        requires { self.old.at + 11 * length pairs.now ≤ length self.old.out.now }
        ensures { Adds (11 * length pairs.now) (led 32 (pair_fields pairs.now)) self.old self.new }
    {
        let mut left = pairs;
        while let [event, state, more @ ..] = left {
            self.pair(*event, *state);
            left = more;
        }
    }
}

// The line of a witness: the notion, the step, the state that the run starts in, and its pairs.
pub fn witness(
    out: &mut [u8],
    at: usize,
    notion: Notion,
    k: u8,
    start: u8,
    pairs: &[u8],
) -> Option<usize>
    ensures { Written (room_for (length pairs.now)) out.old at (witness_line notion k start pairs.now) result
        out.new }
{
    if !has_room(out, at, pairs.len()) {
        return None;
    }
    let mut line = Writer { out, at };
    line.step(notion, k);
    line.field(b' ', u32::from(start));
    line.pairs(pairs);
    line.byte(b'\n');
    Some(line.at)
}

// The line of a step for which there is no witness.
pub fn no_witness(out: &mut [u8], at: usize, notion: Notion, k: u8) -> Option<usize>
    ensures { Written (room_for 0) out.old at (no_witness_line notion k) result out.new }
{
    if !has_room(out, at, 0) {
        return None;
    }
    let mut line = Writer { out, at };
    line.step(notion, k);
    line.text(b" no alibi\n");
    Some(line.at)
}

// The last line: how many events were accepted.
pub fn accepted_end(out: &mut [u8], at: usize, accepted: u32) -> Option<usize>
    ensures { Written (room_for 0) out.old at (accepted_end accepted) result out.new }
{
    if !has_room(out, at, 0) {
        return None;
    }
    let mut line = Writer { out, at };
    line.text(b"end");
    line.field(b' ', accepted);
    line.byte(b'\n');
    Some(line.at)
}
