// Standard input and standard output of the programs: what they share, whatever they do with what is read. Here what a read finds, and what the first bytes
// of an input are. The modules stand beside one another.
#![tactic(auto)]

pub mod following; // event bytes are followed as they are read
pub mod reads; // bytes are read, and the first ones gathered
pub mod writes; // lines are written out, and the one line of a refused log

// What a read finds. (No `Result` of a number: the end would be the number 0, or an `Option` inside it, and each caller tells the three apart.)
#[derive(Clone, Copy)]
pub enum Fetched {
    Bytes(usize),
    End,
    Failed,
}

// The first bytes of an input: so many are there, or that is all of the input, or a read failed. (No `Result`, as of what a read finds.)
#[derive(Clone, Copy)]
pub enum Gathered {
    Bytes(usize),
    All(usize),
    Failed,
}

// What follows the bytes of a log, after the events among its first ones, and how many event bytes the log may still have.
#[derive(Clone, Copy)]
pub struct Begun<F> {
    pub follower: F,
    pub allowed: usize,
}

// What follows the bytes after one more read, and what the read found.
#[derive(Clone, Copy)]
struct Reading<F> {
    follower: F,
    fetched: Fetched,
}

// Why no more is read.
#[derive(Clone, Copy, PartialEq, Eq)]
pub enum Ending {
    // No more bytes are asked for: none behind them is looked at, and no further read is made.
    Done,
    // No more event bytes follow, or a log may have no more of them.
    Ended,
    // They could not be read.
    Failed,
}

// What follows the bytes, after the last read, why it was the last, and how many bytes might still have been read.
#[derive(Clone, Copy)]
pub struct Rest<F> {
    pub follower: F,
    pub ending: Ending,
    pub left: usize,
}
