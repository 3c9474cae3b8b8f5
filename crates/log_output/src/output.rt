// The output: its lines are written out where there is no room for one more, and before a read that may wait.
ghost use Rattle.log_output.specs.Progressing.{Roomy};
ghost use Rattle.log_output.specs.Feeding.{WrittenOut};

use super::{Progress, Status};
use streams::writes::flush;

// Writes the output out, if the next line might not fit into what is left of it.
pub fn with_room(rt: &(impl Print + Eprint), progress: Progress, out: &[u8]) -> Progress
    ensures { Roomy progress out.now result }
{
    let at = progress.at;
    if at <= out.len() && report::LINE <= out.len() - at {
        return progress;
    }
    if !flush(rt, out, at) {
        return Progress {
            status: Status::Closed,
            ..progress
        };
    }
    Progress { at: 0, ..progress }
}

// Writes out all that stands in the output.
pub fn written_out(rt: &(impl Print + Eprint), progress: Progress, out: &[u8]) -> Progress
    ensures { WrittenOut progress out.now result }
{
    let at = progress.at;
    if !flush(rt, out, at) {
        return Progress {
            status: Status::Closed,
            ..progress
        };
    }
    Progress { at: 0, ..progress }
}
