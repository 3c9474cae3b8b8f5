// Reads from standard input: one read; the first bytes of a log, up to its length and its encoding; and an input for which there is space.
ghost use Rattle.std.specs.Prelude.{◌-◌, ◌≤◌, ◌≡◌, true, length};
ghost use Rattle.streams.specs.Reads.{Found, There, Brought, gathered_by, Further, UpTo, Filled};

use super::{Fetched, Gathered};
use std::io;
use std::io::Read;

fn not_read(rt: &impl Eprint) {
    let _ = rt.eprintln("read failed");
}

// What a read finds, by what the system answered: so many bytes at the front of what was lent, none at the end of the input, or an error.
fn found(rt: &impl Eprint, got: io::Result<usize>, lent: &[u8]) -> Fetched
    ensures { Found got (length lent.now) result }
{
    match got {
        Err(_) => {
            not_read(rt);
            Fetched::Failed
        }
        Ok(k) => match k.min(lent.len()) {
            0 => Fetched::End,
            n => Fetched::Bytes(n),
        },
    }
}

// One read, of at most `left` bytes. Where no more may follow, none is made: the input counts as ended.
pub fn fetch(rt: &(impl Input + Eprint), input: &mut [u8], left: usize) -> Fetched
    ensures { Brought (length input.new) left result }
{
    let room = left.min(input.len());
    if room == 0 {
        return Fetched::End;
    }
    let got = rt.reader().read(&mut input[0..room]);
    found(rt, got, &input[0..room])
}

// How the first bytes go on with what a read found.
fn gathering(fetched: Fetched, have: usize, size: usize) -> Gathered
    requires { (have ≤ size) × There (size - have) fetched }
    ensures { result ≡ gathered_by fetched have }
{
    match fetched {
        Fetched::Bytes(n) => Gathered::Bytes(have + n),
        Fetched::End => Gathered::All(have),
        Fetched::Failed => Gathered::Failed,
    }
}

// One read more, of at most `most` bytes, behind those that are there.
fn gather_more(rt: &(impl Input + Eprint), input: &mut [u8], have: usize, most: usize) -> Gathered
    requires { have ≤ length input.old }
    ensures { Further (length input.new) have most result }
{
    gathering(fetch(rt, &mut input[have..], most), have, input.len())
}

// Reads until a log's length and its encoding are there, or the input ends.
pub fn gather(rt: &(impl Input + Eprint), input: &mut [u8], size: usize, piece: usize) -> Gathered
    ensures { UpTo input.new size result }
{
    let mut have: usize = 0;
    // (No `for`: where the next read goes is known by what the last one brought.)
    while have < input.len() {
        if monitor::has_encoding(&input[0..have]) {
            return Gathered::Bytes(have);
        }
        let most = piece.min(size - have);
        match gather_more(rt, input, have, most) {
            Gathered::Bytes(n) => have = n,
            over => return over,
        }
    }
    Gathered::Bytes(have)
}

// Reads until the slice is full or the input ends.
pub fn gather_all(rt: &(impl Input + Eprint), input: &mut [u8]) -> Gathered
    ensures { Filled input.new result }
{
    let mut have: usize = 0;
    // (No `for`, as in `gather`.)
    while have < input.len() {
        match gather_more(rt, input, have, usize::MAX) {
            Gathered::Bytes(n) => have = n,
            over => return over,
        }
    }
    Gathered::Bytes(have)
}

// Reads until the slice is full, the input ends or a read fails, with no word of that, and says how many bytes are at the front of it.
pub fn read_full(rt: &impl Input, input: &mut [u8]) -> usize
    ensures { result ≤ length input.new }
{
    let mut done: usize = 0;
    // (No `for`, as in `gather`.)
    while done < input.len() {
        match rt.reader().read(&mut input[done..]) {
            Err(_) | Ok(0) => return done,
            Ok(n) => done += n,
        }
    }
    done
}

// Reads past so many bytes more, and says whether there is space for them and the input has them.
pub fn skip(rt: &impl Input, space: &mut [u8], n: usize) -> bool
    ensures { result ≡ true → n ≤ length space.new }
{
    n <= space.len() && read_full(rt, &mut space[0..n]) == n
}
