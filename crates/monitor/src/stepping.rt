// One event byte: the verifier accepts it, the enforcer takes it in, and its line is written.
ghost use Rattle.std.specs.Prelude.{◌≡◌, ◌+◌, length};
ghost use Rattle.stateset.specs.Set.{Decided};
ghost use Rattle.verifier.specs.Replies as verifier;
ghost use Rattle.verifier.specs.Replies.{findings, Accepting};
ghost use Rattle.report.specs.Text.{accepted_line, refused_line};
ghost use Rattle.monitor.specs.Stepping.{Within, Countable, offered_once, accepted_once, place_of, Printed, Stepped};
ghost use Rattle.monitor.specs.Advancing.{Ready};

use super::{Entry, Monitor};
use automaton::Header;
use enforcer::Enforcer;
use opacity::Verdicts;
use refusal::Refusal;
use verifier::{Estimator, Judgement};

// Where the next line goes. (There is room for every line that is written here.)
fn place(line: Option<usize>, at: usize) -> usize
    ensures { result ≡ place_of line at }
{
    line.unwrap_or(at)
}

impl Monitor {
    // There is room for a line, and the log may have one more event byte.
    pub(crate) fn ready(self, out: &[u8], at: usize) -> bool
        ensures { Decided result (Ready self out.now at) }
    {
        self.offered != u32::MAX && report::LINE <= out.len() && at <= out.len() - report::LINE
    }

    // A refused event byte: its line. (In line: where it was called, a refused byte took 1.3 times as long, since the monitor was copied once more.)
    #[inline(always)]
    fn log_refused(self, byte: u8, refusal: Refusal, out: &mut [u8], at: usize) -> Entry
        requires { Ready self out.old at }
        ensures { (result.monitor ≡ offered_once self) × Printed out.old at (refused_line byte refusal) result.next out.new }
    {
        let opening = self.opening;
        let estimator = self.estimator;
        let enforcer = self.enforcer;
        let line = report::refused(out, at, byte, refusal);
        Entry {
            monitor: Monitor {
                opening,
                estimator,
                enforcer,
                offered: self.offered + 1,
                accepted: self.accepted,
                released: self.released,
            },
            next: place(line, at),
        }
    }

    // An event that both have accepted: its line.
    fn log_accepted(
        self,
        estimator: Estimator,
        enforcer: Enforcer,
        byte: u8,
        judgement: Judgement<Verdicts>,
        released: &[u8],
        out: &mut [u8],
        at: usize,
    ) -> Entry
        requires { Ready self out.old at × Countable self (length released.now) }
        ensures { (result.monitor ≡ accepted_once self estimator enforcer (length released.now))
            × Printed out.old at (accepted_line (self.accepted + 1) byte judgement.verdicts.own.weak judgement.verdicts.own.strong
            judgement.size released.now) result.next out.new }
    {
        let opening = self.opening;
        let accepted = self.accepted + 1;
        let line = report::accepted(out, at, accepted, byte, judgement, released);
        Entry {
            monitor: Monitor {
                opening,
                estimator,
                enforcer,
                offered: self.offered + 1,
                accepted,
                released: self.released + released.len() as u32,
            },
            next: place(line, at),
        }
    }

    // The verifier has accepted the byte: it is offered to the enforcer.
    fn enforce(
        self,
        estimator: Estimator,
        judgement: Judgement<Verdicts>,
        table: &[u64],
        header: Header,
        byte: u8,
        out: &mut [u8],
        at: usize,
    ) -> Entry
        requires { Within table.now header self × Ready self out.old at × Accepting table.now header self.estimator byte
            (verifier.verdicts (findings self.estimator.further judgement)) estimator }
        ensures { Stepped table.now header self byte out.old at result.monitor result.next out.new }
    {
        let mut output = [0u8; 17];
        let enforcer = self.enforcer;
        let given = enforcer.offer(table, header, byte, &mut output);
        let answer = given.answer;
        match answer {
            Err(refusal) => self.log_refused(byte, refusal, out, at),
            Ok(release) => {
                let after = given.enforcer;
                let m = release.count as usize;
                self.log_accepted(estimator, after, byte, judgement, &output[0..m], out, at)
            }
        }
    }

    // One event byte.
    pub(crate) fn step(
        self,
        table: &[u64],
        header: Header,
        byte: u8,
        out: &mut [u8],
        at: usize,
    ) -> Entry
        requires { Within table.now header self × Ready self out.old at }
        ensures { Stepped table.now header self byte out.old at result.monitor result.next out.new }
    {
        let estimator = self.estimator;
        let reply = estimator.accept(table, header, byte);
        let answer = reply.answer;
        match answer {
            Err(refusal) => self.log_refused(byte, refusal, out, at),
            Ok(judgement) => {
                let after = reply.estimator;
                self.enforce(after, judgement, table, header, byte, out, at)
            }
        }
    }
}
