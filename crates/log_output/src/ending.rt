// How a log ends: its last lines, and all that is not written out yet.
ghost use Rattle.log_output.specs.Whole.{EndLines, Finished};

use super::output::with_room;
use super::{Progress, Status};
use streams::writes::{flush, place};

// The last lines, unless the output takes no more: what could not be written out is not written once more.
fn write_end(rt: &(impl Print + Eprint), progress: Progress, out: &mut [u8])
    ensures { EndLines progress out.old out.new }
{
    let last = with_room(rt, progress, out);
    if last.status == Status::Closed {
        return;
    }
    let next = place(last.monitor.end(out, last.at));
    flush(rt, out, next);
}

// The last lines, and all that is not written out yet.
pub fn finish(rt: &(impl Print + Eprint), progress: Progress, out: &mut [u8])
    ensures { Finished progress.status progress out.old out.new }
{
    match progress.status {
        Status::Going | Status::Ended => write_end(rt, progress, out),
        Status::Failed => {
            flush(rt, out, progress.at);
        }
        Status::Closed => {}
    }
}
