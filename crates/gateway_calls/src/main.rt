// Calls of the gateway's functions, as its standard input lists them: one line a command, and after each call its answer and every slice that the
// function was lent to write to, whole. tests/README.md has the commands; tests/gateway_calls.py writes the input and computes the output.
//
// The modules, each on those before it: `store` the memory, `print` what it holds, `parse` the parts of a line, `calls` the functions, `open` calls whose
// answer is left open or of which any run will do; here the commands.
#![tactic(auto)]

ghost use Rattle.std.specs.Prelude.{◌≡◌, length};

mod calls;
mod open;
mod parse;
mod print;
mod store;

use calls::Call;
use open::Said;
use parse::Text;
use print::show;
use store::{Memory, SLOT, Slot};
use streams::reads::read_full;

// (`fill` would want a clause on how a `T` is cloned.)
fn put<T: Copy + Drop>(elements: &mut [T], value: T) {
    for element in elements.iter_mut() {
        *element = value;
    }
}

// Sets a slot's size and elements, those that are not named to 0. Where the line is not understood, what stands before that is set. (The loop ends where
// nothing is left of the line. How far an element leads is known once it is read.)
fn set<T: Copy + From<u8> + TryFrom<u64, Error: Drop> + Drop>(
    slot: &mut Slot<T>,
    line: Text<'_>,
) -> Option<()> {
    let mut text = line;
    let size = text.number_after(b' ', 10)? as usize;
    if SLOT < size {
        return None;
    }
    slot.size = size;
    put(&mut slot.elements, T::from(0));
    let mut place = 0;
    while !text.rest.is_empty() {
        let element = text.element(place)?;
        let end = element.place.checked_add(element.times)?;
        let value = T::try_from(element.word).ok()?;
        put(slot.elements.get_mut(element.place..end)?, value);
        place = end;
    }
    Some(())
}

// The line of a call once more, and what is said of it.
fn show_answer(rt: &impl Print, line: &[u8], said: Said) {
    let _ = rt.write_all(line);
    let _ = println!(rt; ": {said}");
}

// The slots that a call may write to.
fn show_written(rt: &impl Print, call: Call, memory: &Memory) {
    match call {
        Call::Decode => {
            show(rt, "table", memory.table.lent());
            show(rt, "header", memory.header.lent());
        }
        Call::Fresh | Call::Accept(_) => {
            show(rt, "estimator", memory.estimator.lent());
            show(rt, "judgement", memory.judgement.lent());
        }
        Call::Start(_) => show(rt, "enforcer", memory.enforcer.lent()),
        Call::Offer(_) => {
            show(rt, "enforcer", memory.enforcer.lent());
            show(rt, "output", memory.output.lent());
            show(rt, "release", memory.release.lent());
        }
        Call::Explore(_) => show(rt, "exploration", memory.exploration.lent()),
        Call::FirstLeak(_) => show(rt, "place", memory.place.lent()),
        Call::Canonical => {
            show(rt, "output", memory.output.lent());
            show(rt, "size", memory.size.lent());
        }
        Call::Witness(_) => {
            show(rt, "output", memory.output.lent());
            show(rt, "run", memory.run.lent());
        }
        Call::CheckWitness(..) => show(rt, "valid", memory.valid.lent()),
    }
}

// A call, as the line has it.
fn make_call(rt: &impl Print, line: &[u8], memory: &mut Memory) -> Option<()> {
    let call = Call::read(Text { rest: line })?;
    let answer = call.answer(memory);
    show_answer(rt, line, Said::Answer(answer));
    show_written(rt, call, memory);
    Some(())
}

// Obeys the line; none where it is not understood. (`Text::word` gives the last eight letters of a word.)
fn obey(rt: &impl Print, line: &[u8], memory: &mut Memory) -> Option<()> {
    let mut text = Text { rest: line };
    match text.word() {
        b"table" => set(&mut memory.table, text),
        b"encoding" => set(&mut memory.encoding, text),
        b"header" => set(&mut memory.header, text),
        b"stimator" => set(&mut memory.estimator, text),
        b"udgement" => set(&mut memory.judgement, text),
        b"enforcer" => set(&mut memory.enforcer, text),
        b"output" => set(&mut memory.output, text),
        b"release" => set(&mut memory.release, text),
        b"further" => set(&mut memory.further, text),
        b"events" => set(&mut memory.events, text),
        b"place" => set(&mut memory.place, text),
        b"size" => set(&mut memory.size, text),
        b"run" => set(&mut memory.run, text),
        b"pairs" => set(&mut memory.pairs, text),
        b"valid" => set(&mut memory.valid, text),
        b"loration" => set(&mut memory.exploration, text),
        b"open" => {
            let said = open::open(Call::read(text.behind_space()?)?, memory)?;
            show_answer(rt, line, said);
            Some(())
        }
        b"any" => {
            let said = open::any(Call::read(text.behind_space()?)?, memory)?;
            show_answer(rt, line, said);
            Some(())
        }
        _ => make_call(rt, line, memory),
    }
}

// A line: one that is empty or begins with # says something to the reader.
fn run(rt: &impl Print, line: &[u8], memory: &mut Memory) {
    match line {
        [] | [b'#', ..] => {
            let _ = rt.write_all(line);
            let _ = println!(rt);
        }
        _ => {
            if obey(rt, line, memory).is_none() {
                let _ = println!(rt; "?");
            }
        }
    }
}

fn all(rt: &impl Print, input: &[u8], memory: &mut Memory) {
    for line in input.split_inclusive(|b| *b == b'\n') {
        run(rt, line.strip_suffix(b"\n").unwrap_or(line), memory);
    }
}

// Room for the input, of which 1 MiB is read.
fn room() -> [u8; 1048576]
    ensures { 1048576 ≡ length result }
{
    [0; 1048576]
}

fn main(rt: HostRuntime) {
    let mut input = room();
    let mut memory = store::empty();
    let n = read_full(&rt, &mut input);
    all(&rt, &input[0..n], &mut memory);
}
