// Reads a log from standard input and writes, for each notion and each step up to K and the accepted events, a run that excuses the system after the last
// event, or that there is none (02, S-10: alibis). The input is streamed. Here the types, and a log from its first read to its last line.
// The modules, each on those before it:
#![tactic(auto)]

mod following; // the estimator follows event bytes
mod telling; // the lines of what it has followed

ghost use Rattle.std.specs.Prelude.{false, ◌+◌, ◌-◌, ◌≤◌, length, take};
ghost use Rattle.streams.proofs.Counting.{fewer_fit, others_fit};
ghost use Rattle.witness_log.specs.Following.{On};
ghost use Rattle.witness_log.specs.Printing.{Ready, ReadOn, Ran, Leaves};

use automaton::Header;
use following::follow;
use leak_log::opening::open;
use opacity::Notion;
use streams::following::{Follower, begin};
use streams::reads::gather;
use streams::writes::{flush, place};
use streams::{Begun, Ending, Gathered};
use telling::put_output;
use verifier::Estimator;

// Room for the longest length and encoding, 65,537 bytes, and for events.
const INPUT: usize = 131072;

// Room for two notions of 16 lines each, of at most 23,956 bytes, and for the last line.
const OUTPUT: usize = 766656;

// The estimator after the events so far, and how many of them were accepted.
#[derive(Clone, Copy)]
struct Followed {
    estimator: Estimator,
    accepted: u32,
}

// It asks for bytes to the end of the input.
impl Follower for Followed {
    ghost Goes = { On };

    ghost done = { λ _. false };

    ghost Takes = { λ f n. f.accepted + n ≤ 4294967295 };

    ghost fewer = { λ f m n l x. fewer_fit f.accepted l x };

    ghost onward = { λ t h s f bytes n on x. others_fit s.accepted (length bytes) n on.few x };

    fn is_done(self) -> bool {
        false
    }

    fn follow(self, table: &[u64], header: Header, bytes: &[u8]) -> Followed {
        follow(self, table, header, bytes)
    }
}

// A log that has begun is read on, and its lines are put to the front of the output. It says how many bytes they have: none where a read failed.
fn read_on(
    rt: &(impl Input + Eprint),
    begun: Begun<Followed>,
    table: &[u64],
    header: Header,
    input: &mut [u8],
    out: &mut [u8],
) -> usize
    requires { Ready table.now header begun (length out.old) }
    ensures { ReadOn table.now header begun out.old result out.new }
{
    let rest = streams::following::read_on(rt, begun.follower, table, header, input, begun.allowed);
    if rest.ending == Ending::Failed {
        return 0;
    }
    put_output(rest.follower, table, header, out)
}

// A log whose first `n` bytes are there. It says how many bytes at the front of the output are to be written out.
fn run(rt: &(impl Input + Eprint), input: &mut [u8], n: usize, out: &mut [u8]) -> usize
    requires { (n ≤ length input.old) × (766656 ≤ length out.old) }
    ensures { Ran (take (n - 0) input.old) out.old result out.new }
{
    let opened = open(&input[0..n], Notion::Weak);
    match opened.answer {
        Err(refusal) => place(report::refused_log(out, 0, refusal)),
        Ok(first) => {
            let start = Followed {
                estimator: opened.follower.estimator,
                accepted: 0,
            };
            let begun = begin(start, &opened.table, opened.header, &input[first..n]);
            read_on(rt, begun, &opened.table, opened.header, input, out)
        }
    }
}

// A log on standard input, all of it. It says how many bytes at the front of the output are to be written out. (`leak_log` and `log_output` begin so too: one
// function for the three would take `run` as a closure that is lent the input and the output, for this one `match`.)
fn put_log(rt: &(impl Input + Eprint), input: &mut [u8], out: &mut [u8]) -> usize
    requires { 766656 ≤ length out.old }
    ensures { Leaves out.old result out.new }
{
    match gather(rt, input, usize::MAX, INPUT) {
        Gathered::Bytes(n) | Gathered::All(n) => run(rt, input, n, out),
        Gathered::Failed => 0,
    }
}

// The same, and it is written out: what the program runs. (`streams` says so where that fails.)
fn print_log(
    rt: &(impl Input + Print + Eprint),
    input: &mut [u8; INPUT],
    out: &mut [u8; OUTPUT],
) -> usize
    ensures { Leaves out.old result out.new }
{
    let n = put_log(rt, input, out);
    flush(rt, out, n);
    n
}

fn main(rt: HostRuntime) {
    let mut input = [0u8; INPUT];
    let mut out = [0u8; OUTPUT];
    print_log(&rt, &mut input, &mut out);
}
