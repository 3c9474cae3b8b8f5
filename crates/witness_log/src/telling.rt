// The lines of what was followed: for weak and then strong a line for each step, and the last line.
ghost use Rattle.std.specs.Prelude.{◌≡◌, ◌+◌, ◌*◌, ◌≤◌, length};
ghost use Rattle.opacity.specs.Secrets.{no_further};
ghost use Rattle.witness.specs.Answers.{Usable, InReachOf};
ghost use Rattle.witness_log.specs.Putting.{PutLine, PutLines, PutOutput};

use super::Followed;
use automaton::Header;
use opacity::Notion;
use report::witnesses::{accepted_end, no_witness};
use streams::writes::place;
use verifier::Estimator;

// Two bytes for each of 1,086 pairs.
const RUN: usize = 2172;

// The line of one step.
fn put_line(
    estimator: Estimator,
    table: &[u64],
    header: Header,
    notion: Notion,
    k: u8,
    out: &mut [u8],
    at: usize,
) -> usize
    requires { Usable table.now header estimator × InReachOf header estimator 0 k × (at + 23956 ≤ length out.old) }
    ensures { PutLine table.now header estimator notion k out.old at out.new result }
{
    let mut pairs = [0u8; RUN];
    match witness::witness(estimator, table, header, notion, 0, k, &mut pairs) {
        Err(_) => place(no_witness(out, at, notion, k)),
        Ok(run) => {
            let n = 2 * run.pairs;
            place(report::witnesses::witness(out, at, notion, k, run.start, &pairs[0..n]))
        }
    }
}

// The lines of each step up to K and the accepted events: the estimator remembers so many.
fn put_lines(
    estimator: Estimator,
    table: &[u64],
    header: Header,
    notion: Notion,
    out: &mut [u8],
    at: usize,
) -> usize
    requires { Usable table.now header estimator × (estimator.further ≡ no_further) × (at + 16 * 23956 ≤ length out.old) }
    ensures { PutLines table.now header estimator notion (estimator.count + 1) out.old at out.new result }
{
    let steps = estimator.count;
    let mut next = at;
    for k in 0..=steps {
        next = put_line(estimator, table, header, notion, k, out, next);
    }
    next
}

// All lines. It says how many bytes they have.
pub fn put_output(followed: Followed, table: &[u64], header: Header, out: &mut [u8]) -> usize
    requires { Usable table.now header followed.estimator × (followed.estimator.further ≡ no_further) × (766656 ≤ length out.old) }
    ensures { PutOutput table.now header followed out.new result }
{
    let estimator = followed.estimator;
    let weak = put_lines(estimator, table, header, Notion::Weak, out, 0);
    let strong = put_lines(estimator, table, header, Notion::Strong, out, weak);
    place(accepted_end(out, strong, followed.accepted))
}
