// Searches the logs of its input for their first leaks: before each log one byte for the notion, 0 weak and 1 strong, and two bytes, high first, for the length
// of the log. Any other notion is the end. It runs the programs' own loop, with reads of three bytes and an output that has room for one line.
#![tactic(auto)]

use opacity::Notion;
use streams::reads::{read_full, skip};

// A log of so many bytes.
fn one(
    rt: &(impl Input + Print + Eprint),
    log: &mut [u8],
    out: &mut [u8],
    n: usize,
    notion: Notion,
) -> bool {
    let unread = leak_log::search_input(rt, log, out, n, 3, notion);
    skip(rt, log, unread)
}

// One log, if there is one more.
fn next(rt: &(impl Input + Print + Eprint), log: &mut [u8], out: &mut [u8]) -> bool {
    let mut front = [0u8; 3];
    if read_full(rt, &mut front) < 3 {
        return false;
    }
    let [notion, high, low] = front;
    let n = usize::from(u16::from_be_bytes([high, low]));
    match notion {
        0 => one(rt, log, out, n, Notion::Weak),
        1 => one(rt, log, out, n, Notion::Strong),
        _ => false,
    }
}

fn all(rt: &(impl Input + Print + Eprint), log: &mut [u8], out: &mut [u8]) {
    for _ in 0..u32::MAX {
        if !next(rt, log, out) {
            return;
        }
    }
}

fn main(rt: HostRuntime) {
    let mut log = [0u8; 65535];
    let mut out = [0u8; 64];
    all(&rt, &mut log, &mut out);
}
