// Monitors a log (01: Log program): a verifier and a weak enforcer follow its events, and each event becomes a line.
// Here the types and the entries: `open`, `has_encoding`, `Monitor::advance` and `Monitor::end` demand nothing of their callers.
#![tactic(auto)]

mod opening; // the monitor of a log with its first bytes
mod stepping; // one event byte, and its line

ghost use Rattle.std.specs.Prelude.{◌≡◌, ◌+◌, ◌*◌, ◌≤◌, ◌<◌, length, Err};
ghost use Rattle.stateset.specs.Set.{Decided};
ghost use Rattle.report.specs.Writing.{room_at_end, Written};
ghost use Rattle.monitor.specs.Stepping.{Balanced, Within};
ghost use Rattle.monitor.specs.Opening.{front_size, Describing, Opening, open_outcome as opened};
ghost use Rattle.monitor.specs.Advancing.{Advancing, advance_outcome as advanced};
ghost use Rattle.monitor.specs.Ending.{last_lines};

use automaton::Header;
use enforcer::Enforcer;
use opacity::Verdicts;
use opening::{refused, start};
use refusal::Refusal;
use verifier::{Estimator, Judgement};

// The opening verdicts with how many states are possible, the verifier's and the enforcer's state, and how many event bytes were offered, events accepted,
// and events released.
#[derive(Clone, Copy)]
pub struct Monitor {
    pub opening: Judgement<Verdicts>,
    pub estimator: Estimator,
    pub enforcer: Enforcer,
    pub offered: u32,
    pub accepted: u32,
    pub released: u32,
}

// The monitor after an event byte, and where the next line goes.
#[derive(Clone, Copy)]
struct Entry {
    monitor: Monitor,
    next: usize,
}

// How many event bytes were taken, and where the next line goes.
#[derive(Clone, Copy)]
pub struct Advance {
    pub taken: usize,
    pub next: usize,
}

// The monitor after some events, and how far it came. (The monitor beside the answer, as in `verifier::Reply`.)
#[derive(Clone, Copy)]
pub struct Advanced {
    pub monitor: Monitor,
    pub answer: Result<Advance, Refusal>,
}

// The automaton of a log, and how many bytes its length and its encoding take.
#[derive(Clone, Copy)]
pub struct Described {
    pub table: [u64; 2048],
    pub header: Header,
    pub size: usize,
}

// A log's automaton and what follows its events, as a monitor; and where they start. (The table is no lent one: a refusal may come after it is filled.)
#[derive(Clone, Copy)]
pub struct Opened<F> {
    pub table: [u64; 2048],
    pub header: Header,
    pub follower: F,
    pub answer: Result<usize, Refusal>,
}

impl Monitor {
    // The counts agree.
    fn balanced(self) -> bool
        ensures { Decided result (Balanced self) }
    {
        self.released <= self.accepted
            && self.accepted <= self.offered
            && self.accepted - self.released == u32::from(self.enforcer.count)
    }

    // The table and the header are an automaton, and the monitor is within its limits.
    fn well_formed(self, table: &[u64], header: Header) -> bool
        ensures { Decided result (Within table.now header self) }
    {
        let estimator = self.estimator;
        if !estimator.well_formed(table, header) {
            return false;
        }
        if !self.balanced() {
            return false;
        }
        let enforcer = self.enforcer;
        enforcer.well_formed(table, header)
    }

    // Takes event bytes and writes their lines, until there are no more or there is no room for a line. A log has at most 4,294,967,295 event bytes.
    pub fn advance(
        self,
        table: &[u64],
        header: Header,
        events: &[u8],
        out: &mut [u8],
        at: usize,
    ) -> Advanced
        ensures { Advancing table.now header self events.now out.old at (advanced result.answer) result.monitor
            out.new }
    {
        if !self.well_formed(table, header) {
            return Advanced {
                monitor: self,
                answer: Err(Refusal::Malformed),
            };
        }
        let mut now = self;
        let mut next = at;
        let mut taken = 0;
        for byte in events {
            if !now.ready(out, next) {
                break;
            }
            let entry = now.step(table, header, *byte, out, next);
            now = entry.monitor;
            next = entry.next;
            taken += 1;
        }
        Advanced {
            monitor: now,
            answer: Ok(Advance { taken, next }),
        }
    }

    // The last line of a log: how many events were accepted, released and are pending. Where no event byte was offered, the line of the opening comes before
    // it.
    pub fn end(self, out: &mut [u8], at: usize) -> Option<usize>
        ensures { Written room_at_end out.old at (last_lines self) result out.new }
    {
        let enforcer = self.enforcer;
        let pending = enforcer.count as u32;
        if self.offered == 0 {
            let opening = self.opening;
            return report::idle(out, at, opening, self.accepted, self.released, pending);
        }
        report::ended(out, at, self.accepted, self.released, pending)
    }
}

// How many bytes the length of an encoding and the encoding take.
pub fn front_size(high: u8, low: u8) -> usize
    ensures { result ≡ 2 + (high * 256 + low) }
{
    2 + usize::from(u16::from_be_bytes([high, low]))
}

// Whether the bytes have a log's length and its encoding whole.
pub fn has_encoding(log: &[u8]) -> bool
    ensures { Decided result (front_size log.now ≤ length log.now) }
{
    let [high, low, ..] = log else {
        return false;
    };
    front_size(*high, *low) <= log.len()
}

// The automaton of a log by its first bytes: all of its length and its encoding, unless the log ends before that.
pub fn description(log: &[u8]) -> Result<Described, Refusal>
    ensures { Describing log.now result }
{
    if !has_encoding(log) {
        return Err(Refusal::Truncated);
    }
    let size = front_size(log[0], log[1]);
    let mut table = [0u64; 2048];
    let decoded = decoding::decode(&log[2..size], &mut table);
    let header = decoded.header;
    match decoded.answer {
        Err(refusal) => Err(refusal),
        Ok(()) => Ok(Described {
            table,
            header,
            size,
        }),
    }
}

// What a refused log hands back: a header outside its limits, and what follows no byte.
pub fn no_log<F: Copy>(refusal: Refusal, follower: F) -> Opened<F>
    ensures { (result.answer ≡ Err refusal) × (15 < result.header.k) × (result.follower ≡ follower) }
{
    Opened {
        table: [0u64; 2048],
        header: Header {
            initial: 0,
            k: 255,
            secret: 0,
            observable: 0,
            symbols: [0u8; 32],
        },
        follower,
        answer: Err(refusal),
    }
}

// Opens a log by its first bytes: all of its length and its encoding, unless the log ends before that.
pub fn open(log: &[u8]) -> Opened<Monitor>
    ensures { Opening log.now (opened result.answer) result.table result.header result.follower }
{
    match description(log) {
        Err(refusal) => refused(refusal),
        Ok(described) => start(described.table, described.header, described.size),
    }
}
