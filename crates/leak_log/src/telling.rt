// The one line of a search that has ended: the place of the first leak, or `-`.
ghost use Rattle.std.specs.Prelude.{◌≤◌};
ghost use Rattle.report.specs.Text.{place_line, no_place_line};
ghost use Rattle.leak_log.specs.Feeding.{OneLine, Finished};

use leaks::Search;
use streams::Ending;
use streams::writes::{flush, place};

fn tell_place(rt: &(impl Print + Eprint), leak: u32, out: &mut [u8])
    ensures { OneLine (place_line leak) out.old out.new }
{
    let next = place(report::leak_at(out, 0, leak));
    flush(rt, out, next);
}

fn tell_none(rt: &(impl Print + Eprint), out: &mut [u8])
    ensures { OneLine no_place_line out.old out.new }
{
    let next = place(report::leak_nowhere(out, 0));
    flush(rt, out, next);
}

// What the search has found. (A log has at most 4,294,967,295 event bytes, so each place is a u32.)
pub fn finish(rt: &(impl Print + Eprint), ending: Ending, search: Search, out: &mut [u8])
    requires { search.accepted ≤ 4294967295 }
    ensures { Finished ending search out.old out.new }
{
    match ending {
        Ending::Done => tell_place(rt, search.accepted as u32, out),
        Ending::Ended => tell_none(rt, out),
        Ending::Failed => {}
    }
}
