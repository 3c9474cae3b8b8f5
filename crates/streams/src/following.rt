// Event bytes are followed as they are read: one loop for a search, an estimator, or what else a program has for them.
ghost use Rattle.std.specs.Prelude.{◌≡◌, Bool, List, ℕ, ◌+◌, ◌≤◌, length};
ghost use Rattle.automaton.specs.declared.Header.{Header};
ghost use Rattle.streams.specs.Following.{Begins, Turning, Fed};

use super::reads::fetch;
use super::{Begun, Ending, Fetched, Reading, Rest};
use automaton::Header;

// What follows event bytes on an automaton.
pub trait Follower: Copy {
    // What some bytes make of it; whether it asks for no more; and that so many more can follow.
    ghost Goes: { List ℕ → Header → Self → List ℕ → Self → Type 0 };

    ghost done: { Self → Bool };

    ghost Takes: { Self → ℕ → Type 0 };

    fn is_done(self) -> bool
        ensures { result ≡ done self };

    // Some bytes more, all of them in order.
    fn follow(self, table: &[u64], header: Header, bytes: &[u8]) -> Self
        requires { Takes self (length bytes.now) }
        ensures { Goes table.now header self bytes.now result };

    ghost fewer: { (s : Self) (m n : ℕ) → m ≤ n → Takes s n → Takes s m };

    ghost onward: { (t : List ℕ) (h : Header) (s m : Self) (bytes : List ℕ) (n : ℕ) → Goes t h s bytes m → Takes s (length bytes + n) → Takes m n };
}

// The events among the first bytes of a log. It has at most 4,294,967,295 event bytes (01), and the others count for nothing.
pub fn begin<F: Follower>(start: F, table: &[u64], header: Header, events: &[u8]) -> Begun<F>
    requires { F.Takes start 4294967295 }
    ensures begins { Begins (F.Goes table.now header) start events.now result }
    ensures takes { F.Takes result.follower result.allowed }
{
    let n = events.len().min(u32::MAX as usize);
    Begun {
        follower: start.follow(table, header, &events[0..n]),
        allowed: u32::MAX as usize - n,
    }
}

// One more read, of at most `left` bytes: they stand at the front of the lent input then, and are followed, all of them in order.
fn turn<F: Follower>(
    rt: &(impl Input + Eprint),
    follower: F,
    table: &[u64],
    header: Header,
    input: &mut [u8],
    left: usize,
) -> Reading<F>
    requires { F.Takes follower left }
    ensures { Turning (F.Goes table.now header) left follower input.new result }
{
    match fetch(rt, input, left) {
        Fetched::Bytes(n) => Reading {
            follower: follower.follow(table, header, &input[0..n]),
            fetched: Fetched::Bytes(n),
        },
        Fetched::End => Reading {
            follower,
            fetched: Fetched::End,
        },
        Fetched::Failed => Reading {
            follower,
            fetched: Fetched::Failed,
        },
    }
}

// Reads on, at most `left` bytes, and follows them, read after read, until no more are asked for or none follow.
pub fn read_on<F: Follower>(
    rt: &(impl Input + Eprint),
    follower: F,
    table: &[u64],
    header: Header,
    input: &mut [u8],
    left: usize,
) -> Rest<F>
    requires { F.Takes follower left }
    ensures fed { Fed (F.Goes table.now header) F.done left follower result }
    ensures takes { F.Takes result.follower result.left }
{
    let mut now = follower;
    let mut rest = left;
    while !now.is_done() {
        let one = turn(rt, now, table, header, input, rest);
        match one.fetched {
            Fetched::Bytes(n) => {
                now = one.follower;
                rest -= n;
            }
            Fetched::End => {
                return Rest {
                    follower: now,
                    ending: Ending::Ended,
                    left: rest,
                };
            }
            Fetched::Failed => {
                return Rest {
                    follower: now,
                    ending: Ending::Failed,
                    left: rest,
                };
            }
        }
    }
    Rest {
        follower: now,
        ending: Ending::Done,
        left: rest,
    }
}
