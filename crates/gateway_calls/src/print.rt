// What a slot lends, written out: its name, its size, and its elements that are not 0.
use std::convert::Into;

// The elements that are not 0, each run of the same one once, with how often it stands: behind its index, or behind the run before it.
fn show_runs<T: Copy + Into<u64> + Drop>(rt: &impl Print, elements: &[T]) {
    let mut before = 0;
    for (at, element) in elements.iter().enumerate() {
        let word: u64 = (*element).into();
        if word != 0 && word != before {
            let times = elements[at..]
                .iter()
                .take_while(|x| (**x).into() == word)
                .count();
            show_run(rt, if before == 0 { Some(at) } else { None }, word, times);
        }
        before = word;
    }
}

fn show_run(rt: &impl Print, index: Option<usize>, word: u64, times: usize) {
    let _ = match index {
        Some(at) => print!(rt; " {at}:{word:x}"),
        None => print!(rt; ",{word:x}"),
    };
    if 1 < times {
        let _ = print!(rt; "*{times}");
    }
}

// The line of a slot. (Its name takes nine places, or more where it is longer.)
pub fn show<T: Copy + Into<u64> + Drop>(rt: &impl Print, name: &str, elements: &[T]) {
    let size = elements.len();
    let _ = print!(rt; "{name:9} {size}");
    show_runs(rt, elements);
    let _ = println!(rt);
}
