// A log that is read from standard input and searched for its first leak by one notion (02, S-8): its place is written to standard output, or `-`. `streams`
// reads and writes, `leaks` searches. Here a log from its first read to its one line. The modules stand beside one another.
#![tactic(auto)]

pub mod opening; // the search of a log with its first bytes
mod telling; // the one line

ghost use Rattle.std.specs.Prelude.{◌+◌, ◌-◌, ◌≤◌, length, take};
ghost use Rattle.streams.proofs.Counting.{fewer_fit, others_fit};
ghost use Rattle.leak_log.specs.Feeding.{Block, ReadOn, Ran, Searches};
ghost use Rattle.leak_log.specs.Taking.{block_counts};

use automaton::Header;
use leaks::Search;
use opacity::Notion;
use opening::open;
use streams::following::Follower;
use streams::reads::gather;
use streams::writes::refuse;
use streams::{Begun, Gathered, following};
use telling::finish;

// A search that follows event bytes until the leak is found: then no byte behind it is looked at, and no further read is made. (A struct of its own, since a
// trait of another crate is written only for types of this one.)
#[derive(Clone, Copy)]
pub struct Searching {
    pub search: Search,
}

impl Follower for Searching {
    ghost Goes = { Block };

    ghost done = { λ s. s.search.found };

    ghost Takes = { λ s n. s.search.accepted + n ≤ 4294967295 };

    ghost fewer = { λ s m n l x. fewer_fit s.search.accepted l x };

    ghost onward = { λ t h s m bytes n b x. others_fit s.search.accepted (length bytes) n (block_counts b) x };

    fn is_done(self) -> bool {
        self.search.found
    }

    fn follow(self, table: &[u64], header: Header, bytes: &[u8]) -> Searching {
        let reply = self.search.advance(table, header, bytes);
        Searching {
            search: reply.search,
        }
    }
}

// A search that has begun is read on, and told. It says how many of `size` bytes were not read.
fn read_on(
    rt: &(impl Input + Print + Eprint),
    begun: Begun<Searching>,
    table: &[u64],
    header: Header,
    input: &mut [u8],
    out: &mut [u8],
    size: usize,
) -> usize
    requires { begun.follower.search.accepted + begun.allowed ≤ 4294967295 }
    ensures { ReadOn table.now header begun out.old size out.new result }
{
    let limit = begun.allowed.min(size);
    let rest = following::read_on(rt, begun.follower, table, header, input, limit);
    finish(rt, rest.ending, rest.follower.search, out);
    size - (limit - rest.left)
}

// A log whose first `n` bytes are there, and at most `size` more. It says how many of them were not read.
fn run(
    rt: &(impl Input + Print + Eprint),
    input: &mut [u8],
    n: usize,
    out: &mut [u8],
    size: usize,
    piece: usize,
    notion: Notion,
) -> usize
    requires { n ≤ length input.old }
    ensures { Ran notion (take (n - 0) input.old) out.old size out.new result }
{
    let opened = open(&input[0..n], notion);
    match opened.answer {
        Err(refusal) => {
            refuse(rt, refusal, out);
            size
        }
        Ok(first) => {
            let events = &input[first..n];
            let start = Searching {
                search: opened.follower,
            };
            let begun = following::begin(start, &opened.table, opened.header, events);
            let part = piece.min(input.len());
            let part = &mut input[0..part];
            read_on(rt, begun, &opened.table, opened.header, part, out, size)
        }
    }
}

// A log on standard input: at most `size` bytes, in reads of at most `piece` bytes. It says how many were not read. (`log_output` and `witness_log` begin so
// too: one function for the three would take `run` as a closure that is lent the input and the output, for this one `match`.)
pub fn search_input(
    rt: &(impl Input + Print + Eprint),
    input: &mut [u8],
    out: &mut [u8],
    size: usize,
    piece: usize,
    notion: Notion,
) -> usize
    ensures { Searches notion size out.old result out.new }
{
    match gather(rt, input, size, piece) {
        Gathered::Bytes(n) | Gathered::All(n) => run(rt, input, n, out, size - n, piece, notion),
        Gathered::Failed => 0,
    }
}

// A log on standard input, all of it: what the programs run. The longest length and encoding take 65,537 bytes, and there is room for them.
pub fn search_log(
    rt: &(impl Input + Print + Eprint),
    input: &mut [u8; 131072],
    out: &mut [u8; 64],
    notion: Notion,
) -> usize
    ensures { Searches notion 18446744073709551615 out.old result out.new }
{
    search_input(rt, input, out, usize::MAX, 131072, notion)
}

// The program that tells the first leak of a log by one notion.
pub fn first_leak_program(rt: &(impl Input + Print + Eprint), notion: Notion) {
    let mut input = [0u8; 131072];
    let mut out = [0u8; 64];
    search_log(rt, &mut input, &mut out, notion);
}
