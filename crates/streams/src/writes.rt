// Writes to standard output: the first bytes of an output, and the one line of a log that is refused.
ghost use Rattle.std.specs.Prelude.{◌≤◌, ◌≡◌, true, length};
ghost use Rattle.monitor.specs.Stepping.{place_of};
ghost use Rattle.streams.specs.Writes.{RefusalLine};

use refusal::Refusal;

fn not_written(rt: &impl Eprint) {
    let _ = rt.eprintln("write failed");
}

// Writes out the first bytes of the output, and says so where it fails.
pub fn flush(rt: &(impl Print + Eprint), out: &[u8], n: usize) -> bool
    ensures { result ≡ true → n ≤ length out.now }
{
    if out.len() < n {
        return false;
    }
    if rt.write_all(&out[0..n]).is_ok() {
        return true;
    }
    not_written(rt);
    false
}

// How much of the output is to be written out, when its last line is there.
pub fn place(line: Option<usize>) -> usize
    ensures { result ≡ place_of line 0 }
{
    line.unwrap_or(0)
}

// The one line of a refused log.
pub fn refuse(rt: &(impl Print + Eprint), refusal: Refusal, out: &mut [u8])
    ensures { RefusalLine refusal out.old out.new }
{
    let next = place(report::refused_log(out, 0, refusal));
    flush(rt, out, next);
}
