// An encoded automaton (01: description): the types for what its fields say, and the functions that read and judge them, count them and store them. A
// Reader goes from field to field; what is read again, or compared, is read at a place in the bytes. All of this is inner: for `decoding` above, which
// has the entry.
#![tactic(auto)]

pub mod counts; // how many, and up to where: what the passes need of the fields that were read
mod fields; // a field or a set, or the refusal of bytes that end before
pub mod preamble; // the fields before the transitions, each with its own check
pub mod transitions; // a transition: judged, compared with those before it, stored
pub mod ending; // what stands behind the last transition
pub mod header; // the header, with the symbol of each event

// The fields that each encoding starts with: 32 bits.
#[derive(Clone, Copy)]
pub struct Fixed {
    pub topstate: usize,
    pub topevent: usize,
    pub k: usize,
    pub initial: usize,
    pub count: usize,
    pub symbols: usize,
}

// All of an encoding but the symbols and the transitions, which are read again where they are stored. (How large the numbers are stands in the contracts,
// as FixedSmall and FrontSmall, and in no type: the layout of `specs/` gives these records of any numbers, so that a type with that fact would be no plainer.)
#[derive(Clone, Copy)]
pub struct Front {
    pub fixed: Fixed,
    pub secret: u64,
    pub observable: u64,
}

// The numbers of a transition (01: move), as an encoding lists it.
#[derive(Clone, Copy)]
pub struct ListedTransition {
    pub from: usize,
    pub event: usize,
    pub to: usize,
}
