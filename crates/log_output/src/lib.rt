// A log that is read from standard input and monitored, with its lines written to standard output: the log program's loop. `streams` reads and writes.
// Here the types, and a log from its first read to its last line. The modules, each on those before it:
#![tactic(auto)]

mod output; // lines are written out
mod following; // the monitor follows event bytes
mod ending; // the last lines

ghost use Rattle.std.specs.Prelude.{◌-◌, ◌≤◌, ◌≡◌, length, take};
ghost use Rattle.streams.specs.Reads.{There};
ghost use Rattle.log_output.specs.Feeding.{with_status, TakenIn, Turning, Fed, Ran, Monitors};

use automaton::Header;
use ending::finish;
use following::{follow, start};
use monitor::Monitor;
use output::written_out;
use streams::reads::{fetch, gather};
use streams::{Fetched, Gathered};

#[derive(Clone, Copy, PartialEq, Eq)]
pub enum Status {
    // More event bytes may follow.
    Going,
    // No more of them follow, or a log may have no more.
    Ended,
    // They could not be read: the lines so far are written out, and no other.
    Failed,
    // Nothing more is written: the log was refused, or the output takes no more.
    Closed,
}

// The monitor after the events so far, and where the next line goes in the output. (The status beside them: each of them is kept, whatever the status.)
#[derive(Clone, Copy)]
pub struct Progress {
    pub monitor: Monitor,
    pub at: usize,
    pub status: Status,
}

// The automaton of a log, and how far it is monitored.
#[derive(Clone, Copy)]
pub struct Monitored {
    pub table: [u64; 2048],
    pub header: Header,
    pub progress: Progress,
}

// The progress by some event bytes.
#[derive(Clone, Copy)]
struct Part {
    progress: Progress,
    taken: usize,
}

// What one more read leaves, and how many bytes it brought, 0 where no more is read. (No `Option`: so `Feeding` in the specs has it. Here and below no
// `streams::following`, which the other programs that read a log share: lines are written out while bytes are followed and before each read, so that its
// trait, its loop and its definitions would all take the handle and the output, which no search has, and each search's would say that it stays.)
#[derive(Clone, Copy)]
struct Reading {
    progress: Progress,
    brought: usize,
}

// How a log was left, and how many bytes might still have been read. (Of every ending the number is told.)
#[derive(Clone, Copy)]
pub struct Rest {
    pub progress: Progress,
    pub left: usize,
}

// A read that brought nothing, and why no more is read.
fn over(progress: Progress, status: Status) -> Reading
    ensures { result ≡ record { progress = with_status progress status; brought = 0 } }
{
    Reading {
        progress: Progress { status, ..progress },
        brought: 0,
    }
}

// What a read found: its bytes are followed, all of them in order; or the log has ended, or failed.
fn taken_in(
    rt: &(impl Print + Eprint),
    fetched: Fetched,
    progress: Progress,
    table: &[u64],
    header: Header,
    input: &[u8],
    out: &mut [u8],
) -> Reading
    requires { There (length input.now) fetched }
    ensures { TakenIn table.now header progress out.old input.now fetched result out.new }
{
    match fetched {
        Fetched::Bytes(n) => Reading {
            progress: follow(rt, progress, table, header, &input[0..n], out),
            brought: n,
        },
        Fetched::End => over(progress, Status::Ended),
        Fetched::Failed => over(progress, Status::Failed),
    }
}

// One more read. It may wait, so the lines so far are written out before it.
fn turn(
    rt: &(impl Input + Print + Eprint),
    progress: Progress,
    table: &[u64],
    header: Header,
    input: &mut [u8],
    out: &mut [u8],
    left: usize,
) -> Reading
    ensures { Turning table.now header left progress out.old input.new result out.new }
{
    let shown = written_out(rt, progress, out);
    if shown.status != Status::Going {
        return Reading {
            progress: shown,
            brought: 0,
        };
    }
    let fetched = fetch(rt, input, left);
    taken_in(rt, fetched, shown, table, header, input, out)
}

// Reads on while the log goes on, at most `left` bytes.
fn all(
    rt: &(impl Input + Print + Eprint),
    progress: Progress,
    table: &[u64],
    header: Header,
    input: &mut [u8],
    out: &mut [u8],
    left: usize,
) -> Rest
    ensures { Fed table.now header left progress out.old result out.new }
{
    let mut now = progress;
    let mut rest = left;
    loop {
        if now.status != Status::Going {
            return Rest {
                progress: now,
                left: rest,
            };
        }
        let one = turn(rt, now, table, header, input, out, rest);
        now = one.progress;
        let brought = one.brought;
        if brought == 0 {
            return Rest {
                progress: now,
                left: rest,
            };
        }
        rest -= brought;
    }
}

// How many event bytes a log may still have: 01 ends it after 4,294,967,295.
fn allowed(progress: Progress) -> usize
    ensures { result ≡ 4294967295 - progress.monitor.offered }
{
    (u32::MAX - progress.monitor.offered) as usize
}

// A log whose first `n` bytes are there, and at most `size` more. It says how many of them were not read.
fn run(
    rt: &(impl Input + Print + Eprint),
    input: &mut [u8],
    n: usize,
    out: &mut [u8],
    size: usize,
    piece: usize,
) -> usize
    requires { n ≤ length input.old }
    ensures { Ran (take (n - 0) input.old) out.old size out.new result }
{
    let monitored = start(rt, &input[0..n], out);
    let limit = allowed(monitored.progress).min(size);
    let part = piece.min(input.len());
    let rest = all(
        rt,
        monitored.progress,
        &monitored.table,
        monitored.header,
        &mut input[0..part],
        out,
        limit,
    );
    finish(rt, rest.progress, out);
    unread(size, limit, rest.left)
}

// How many of `size` bytes are left, where of the first `limit` of them `left` are.
fn unread(size: usize, limit: usize, left: usize) -> usize
    ensures { result ≡ size - (limit - left) }
{
    if limit < left {
        return size;
    }
    if size < limit - left {
        return 0;
    }
    size - (limit - left)
}

// A log on standard input: at most `size` bytes, in reads of at most `piece` bytes. It says how many were not read. (`leak_log` and `witness_log` begin so
// too: one function for the three would take `run` as a closure that is lent the input and the output, for this one `match`.)
pub fn monitor_input(
    rt: &(impl Input + Print + Eprint),
    input: &mut [u8],
    out: &mut [u8],
    size: usize,
    piece: usize,
) -> usize
    ensures { Monitors size out.old result out.new }
{
    match gather(rt, input, size, piece) {
        Gathered::Bytes(n) | Gathered::All(n) => run(rt, input, n, out, size - n, piece),
        Gathered::Failed => 0,
    }
}

// A log on standard input, all of it: what the log program runs. The longest length and encoding take 65,537 bytes, and there is room for them.
pub fn monitor_log(
    rt: &(impl Input + Print + Eprint),
    input: &mut [u8; 131072],
    out: &mut [u8; 65536],
) -> usize
    ensures { Monitors 18446744073709551615 out.old result out.new }
{
    monitor_input(rt, input, out, usize::MAX, 131072)
}

// The log program.
pub fn log_program(rt: &(impl Input + Print + Eprint)) {
    let mut input = [0u8; 131072];
    let mut out = [0u8; 65536];
    monitor_log(rt, &mut input, &mut out);
}
