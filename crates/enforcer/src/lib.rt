// The enforcer (01: Holder): it keeps symbols back until no reader of what is released can be sure of a secret, and rests on the verifier's verdicts alone.
// `Enforcer::start` makes one under a notion, `Enforcer::offer` takes one symbol and releases those that have waited
// long enough; neither demands anything of its caller.
#![tactic(auto)]

ghost use Rattle.std.specs.Prelude.{◌≡◌, ◌++◌, ℕ, ◌+◌, ◌-◌, ◌≤◌, ◌<◌, length, get_or, take, drop, Err};
ghost use Rattle.stateset.specs.Set.{Decided};
ghost use Rattle.automaton.specs.Run.{WellFormed};
ghost use Rattle.opacity.specs.Secrets.{secrets_of, Allowed};
ghost use Rattle.opacity.specs.Verdicts.{steps_of};
ghost use Rattle.verifier.specs.Replies.{steps_each};
ghost use Rattle.enforcer.specs.Enforcers.{InLimits, Padded};
ghost use Rattle.enforcer.specs.Offerings.{start_outcome, offer_outcome, Starting, Offering};
ghost use Rattle.enforcer.specs.Waits.{wait_of, LargestWait};
ghost use Rattle.enforcer.specs.Inner.{PendingWithin, WaitAt, Ready, Enqueues};

use automaton::Header;
use opacity::{Further, Notion, Verdict};
use refusal::Refusal;
use verifier::{EachSecret, Estimator};

// The estimator, the notion, and the pending symbols, the oldest first, each with the number of later ones that it waits for (01: Holder).
// (Two arrays beside their count: C holds an enforcer by value in this layout, and there is no heap for a Vec.)
#[derive(Clone, Copy)]
pub struct Enforcer {
    pub estimator: Estimator,
    pub notion: Notion,
    pub count: u8,
    pub pending: [u8; 16],
    pub waits: [u8; 16],
}

// How many symbols were released to the front of the output (01: freed, tray), and how many states are possible after all that were accepted (02: how
// many fit), 1 to 64.
#[derive(Clone, Copy)]
pub struct Release {
    pub count: u8,
    pub size: u8,
}

// The enforcer that an entry hands back, and what it answers: nothing more of a start, and what was released of an offer. (Beside the answer, as in
// `verifier::Reply`: of a refusal too it is promised.)
#[derive(Clone, Copy)]
pub struct Reply<A> {
    pub enforcer: Enforcer,
    pub answer: Result<A, Refusal>,
}

// How many later symbols make a trace with this verdict safe.
fn wait(k: u8, verdict: Verdict) -> u8
    requires { k ≤ 15 }
    ensures { result ≡ wait_of k (steps_of verdict) }
{
    let Verdict::Leak(l) = verdict else {
        return 0;
    };
    if k + 1 < l {
        return 0;
    }
    k + 1 - l
}

// How many later symbols the secret with a number asks for, by its own K: none where it is not given.
fn wait_at(header: Header, further: Further, verdict: Verdict, i: u8) -> u8
    requires { (header.k ≤ 15) × Allowed further }
    ensures { WaitAt (secrets_of header further) i (steps_of verdict) result }
{
    if further.count < i {
        return 0;
    }
    let secret = opacity::secret_at(header, further, i);
    wait(secret.k, verdict)
}

// How many later symbols make a trace with these verdicts safe for all secrets. (Inner: for the crates above, which prove what it requires.)
pub fn largest_wait(header: Header, further: Further, verdicts: EachSecret<Verdict>) -> u8
    requires { (header.k ≤ 15) × Allowed further }
    ensures { LargestWait (secrets_of header further) (steps_each further verdicts) result }
{
    let own = verdicts.own;
    let w0 = wait_at(header, further, own, 0);
    if further.count == 0 {
        return w0;
    }
    let first = verdicts.first;
    let second = verdicts.second;
    let third = verdicts.third;
    let w1 = wait_at(header, further, first, 1);
    let w2 = wait_at(header, further, second, 2);
    let w3 = wait_at(header, further, third, 3);
    let a = w0.max(w1);
    let b = w2.max(w3);
    a.max(b)
}

// The first `count` of the bytes, and one more behind them.
fn joined(bytes: &[u8], count: u8, byte: u8) -> [u8; 17]
    requires { (count ≤ 16) × (count ≤ length bytes.now) }
    ensures { (length result ≡ 17) × ((i : ℕ) → i < count → get_or result i 0 ≡ get_or bytes.now i 0) × (get_or result count 0 ≡ byte) }
{
    let n = count as usize;
    let mut longer = [0u8; 17];
    longer[..n].copy_from_slice(&bytes[..n]);
    longer[n] = byte;
    longer
}

// The first `count` of the waits, each one less, and one more behind them.
fn nearer(waits: &[u8], count: u8, wait: u8) -> [u8; 17]
    requires { (count ≤ 16) × (count ≤ length waits.now) }
    ensures { (length result ≡ 17) × ((i : ℕ) → i < count → get_or result i 0 ≡ get_or waits.now i 0 - 1) × (get_or result count 0 ≡ wait) }
{
    let n = count as usize;
    let mut soon = [0u8; 17];
    for (i, w) in waits[..n].iter().enumerate() {
        soon[i] = w.saturating_sub(1);
    }
    soon[n] = wait;
    soon
}

// How many of the waits are over, up to the first that is not.
fn leading(waits: &[u8]) -> usize
    ensures { (result ≤ length waits.now) × ((i : ℕ) → i < result → get_or waits.now i 0 ≡ 0)
        × (result < length waits.now → get_or waits.now result 0 ≡ 0 → ⊥) }
{
    waits.iter().take_while(|w| **w == 0).count()
}

// How many go: those whose waits are over, up to the first that is not; at least one where the enforcer is full.
fn ready(soon: &[u8], count: u8, k: u8) -> u8
    requires { (k ≤ 15) × (count ≤ k + 1) × (count < length soon.now) }
    ensures { Ready k count soon.now result }
{
    let n = leading(&soon[..count as usize + 1]);
    if n == 0 && k < count {
        return 1;
    }
    n as u8
}

// What follows the first `from`, up to `n`; 0 behind it.
fn rest(a: &[u8], from: u8, n: u8) -> [u8; 16]
    requires { (from ≤ n) × (n ≤ from + 16) × (n ≤ length a.now) }
    ensures { Padded 16 (n - from) result × ((i : ℕ) → i < n - from → get_or result i 0 ≡ get_or a.now (from + i) 0) }
{
    let mut r = [0u8; 16];
    r[..(n - from) as usize].copy_from_slice(&a[from as usize..n as usize]);
    r
}

// The first `n` go to the front of the output.
fn write_front(a: &[u8], n: u8, output: &mut [u8])
    requires { (n ≤ length a.now) × (n ≤ length output.old) }
    ensures { output.new ≡ take n a.now ++ drop n output.old }
{
    let m = n as usize;
    output[..m].copy_from_slice(&a[..m]);
}

impl Enforcer {
    // A fresh enforcer under the notion, with these further secrets. One that is refused is outside its limits on every automaton.
    pub fn start(table: &[u64], header: Header, notion: Notion, further: Further) -> Reply<()>
        ensures { Starting table.now header further notion (start_outcome result.answer) result.enforcer }
    {
        let reply = Estimator::fresh(table, header, further);
        let estimator = reply.estimator;
        let answer = reply.answer;
        let none = Enforcer {
            estimator,
            notion,
            count: 255,
            pending: [0u8; 16],
            waits: [0u8; 16],
        };
        match answer {
            Err(refusal) => Reply {
                enforcer: none,
                answer: Err(refusal),
            },
            Ok(judgement) => {
                let verdicts = verifier::choose_each(notion, judgement.verdicts);
                let largest = largest_wait(header, further, verdicts);
                if largest != 0 { // the wait of a leak 0 is not over, and the empty trace has no other leak
                    return Reply {
                        enforcer: none,
                        answer: Err(Refusal::InitialLeak),
                    };
                }
                Reply {
                    enforcer: Enforcer {
                        estimator,
                        notion,
                        count: 0,
                        pending: [0u8; 16],
                        waits: [0u8; 16],
                    },
                    answer: Ok(()),
                }
            }
        }
    }

    // The table and the header are an automaton, and the enforcer is within its limits.
    pub fn well_formed(self, table: &[u64], header: Header) -> bool
        ensures { Decided result (WellFormed table.now header × InLimits header self) }
    {
        let estimator = self.estimator;
        if !estimator.well_formed(table, header) {
            return false;
        }
        let further = estimator.further;
        let k = opacity::look_back(header, further);
        self.pending_within(k)
    }

    // The pending symbols are within their limits.
    fn pending_within(self, k: u8) -> bool
        ensures { Decided result (PendingWithin k self) }
    {
        self.count.saturating_sub(1) <= k && automaton::in_range(&self.pending, self.count)
    }

    // As it was, with the reason.
    fn refused(self, refusal: Refusal) -> Reply<Release>
        ensures { (result.enforcer ≡ self) × (result.answer ≡ Err refusal) }
    {
        Reply {
            enforcer: self,
            answer: Err(refusal),
        }
    }

    // The symbol that was accepted is put behind the pending ones, and what is safe is released. The number of possible states is passed on.
    fn take_in(
        self,
        k: u8,
        estimator: Estimator,
        w: u8,
        size: u8,
        byte: u8,
        output: &mut [u8],
    ) -> Reply<Release>
        requires { (k ≤ 15) × (self.count ≤ k + 1) × (17 ≤ length output.old) }
        ensures { Enqueues k self estimator w size byte output.old result.answer result.enforcer output.new }
    {
        let count = self.count;
        let symbols = joined(&self.pending, count, byte);
        let soon = nearer(&self.waits, count, w);
        let f = ready(&soon, count, k);
        write_front(&symbols, f, output);
        Reply {
            enforcer: Enforcer {
                estimator,
                notion: self.notion,
                count: count + 1 - f,
                pending: rest(&symbols, f, count + 1),
                waits: rest(&soon, f, count + 1),
            },
            answer: Ok(Release { count: f, size }),
        }
    }

    // Offers one byte: a symbol that is accepted joins the pending ones, and the longest prefix that is safe for all secrets is released to the front of
    // the output. (The table, the header and the estimator are tested once, by the verifier; where the output is too small, here, since 9 comes before 10.)
    pub fn offer(self, table: &[u64], header: Header, byte: u8, output: &mut [u8]) -> Reply<Release>
        ensures { Offering table.now header self byte output.old (offer_outcome result.answer) result.enforcer output.new }
    {
        if output.len() < 17 {
            if !self.well_formed(table, header) {
                return self.refused(Refusal::Malformed);
            }
            return self.refused(Refusal::OutputTooSmall);
        }
        let estimator = self.estimator;
        let further = estimator.further;
        let k = opacity::look_back(header, further);
        if !self.pending_within(k) {
            return self.refused(Refusal::Malformed);
        }
        let notion = self.notion;
        let reply = estimator.accept_by(table, header, byte, notion);
        let answer = reply.answer;
        match answer {
            Err(refusal) => self.refused(refusal),
            Ok(judgement) => {
                let next = reply.estimator;
                let verdicts = judgement.verdicts;
                let w = largest_wait(header, further, verdicts);
                self.take_in(k, next, w, judgement.size, byte, output)
            }
        }
    }
}
