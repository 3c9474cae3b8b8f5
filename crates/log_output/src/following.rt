// Event bytes are followed: the monitor takes as many as the output has room for, and room is made; and how a log begins.
ghost use Rattle.std.specs.Prelude.{◌≤◌, length};
ghost use Rattle.log_output.specs.Progressing.{Usable, Parted, Followed};
ghost use Rattle.log_output.specs.Whole.{Begins};

use super::output::with_room;
use super::{Monitored, Part, Progress, Status};
use automaton::Header;
use streams::writes::refuse;

// The event bytes for which the output has room.
fn advance(progress: Progress, table: &[u64], header: Header, events: &[u8], out: &mut [u8]) -> Part
    ensures taken_in_bounds { result.taken ≤ length events.now }
    ensures parted { Parted table.now header progress events.now out.old result out.new }
{
    let monitor = progress.monitor;
    let at = progress.at;
    let advanced = monitor.advance(table, header, events, out, at);
    let answer = advanced.answer;
    let after = advanced.monitor;
    match answer {
        Err(_) => Part { progress, taken: 0 },
        Ok(advance) => Part {
            progress: Progress {
                monitor: after,
                at: advance.next,
                status: Status::Going,
            },
            taken: advance.taken,
        },
    }
}

// Some event bytes. With room for a line, none is taken only where the log may have no more of them.
pub fn follow(
    rt: &(impl Print + Eprint),
    progress: Progress,
    table: &[u64],
    header: Header,
    events: &[u8],
    out: &mut [u8],
) -> Progress
    ensures { Usable table.now header progress out.old → Followed table.now header progress events.now
        out.old result out.new }
{
    let mut now = progress;
    let mut i: usize = 0;
    // (No `for`: how many bytes a call takes is known behind it.)
    while i < events.len() {
        now = with_room(rt, now, out);
        if now.status != Status::Going {
            return now;
        }
        let part = advance(now, table, header, &events[i..], out);
        let taken = part.taken;
        now = part.progress;
        if taken == 0 {
            return Progress {
                status: Status::Ended,
                ..now
            };
        }
        i += taken;
    }
    now
}

// Opens a log by its first bytes, as `monitor::open` takes them, and follows the events among them.
pub fn start(rt: &(impl Print + Eprint), log: &[u8], out: &mut [u8]) -> Monitored
    ensures { Begins log.now out.old result out.new }
{
    let opened = monitor::open(log);
    let table = opened.table;
    let header = opened.header;
    let monitor = opened.follower;
    let answer = opened.answer;
    match answer {
        Err(refusal) => {
            refuse(rt, refusal, out);
            Monitored {
                table,
                header,
                progress: Progress {
                    monitor,
                    at: 0,
                    status: Status::Closed,
                },
            }
        }
        Ok(first) => {
            let begun = Progress {
                monitor,
                at: 0,
                status: Status::Going,
            };
            let progress = follow(rt, begun, &table, header, &log[first..], out);
            Monitored {
                table,
                header,
                progress,
            }
        }
    }
}
