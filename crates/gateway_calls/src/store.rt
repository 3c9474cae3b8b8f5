// The memory of the calls: one slot for each slice that is lent.
pub const SLOT: usize = 4096;

// A slot: of its elements the first ones are lent, as many as its size says. The others keep what they had.
#[derive(Clone, Copy, PartialEq)]
pub struct Slot<T> {
    pub size: usize,
    pub elements: [T; SLOT],
}

impl<T> Slot<T> {
    pub fn lent(&self) -> &[T] {
        self.elements.get(..self.size).unwrap_or_default()
    }

    pub fn lent_mut(&mut self) -> &mut [T] {
        let size = self.size;
        let elements = &mut self.elements;
        let all = &mut elements[..];
        all.get_mut(..size).unwrap_or_default()
    }
}

// Only the elements of the table are words.
#[derive(Clone, Copy, PartialEq)]
pub struct Memory {
    pub table: Slot<u64>,
    pub encoding: Slot<u8>,
    pub header: Slot<u8>,
    pub estimator: Slot<u8>,
    pub judgement: Slot<u8>,
    pub enforcer: Slot<u8>,
    pub output: Slot<u8>,
    pub release: Slot<u8>,
    pub further: Slot<u8>,
    pub events: Slot<u8>,
    pub place: Slot<u8>,
    pub size: Slot<u8>,
    pub run: Slot<u8>,
    pub pairs: Slot<u8>,
    pub valid: Slot<u8>,
    pub exploration: Slot<u8>,
}

// Slots of no size, with 0 in every element.
pub fn empty() -> Memory {
    let slot = Slot {
        size: 0,
        elements: [0u8; SLOT],
    };
    Memory {
        table: Slot {
            size: 0,
            elements: [0u64; SLOT],
        },
        encoding: slot,
        header: slot,
        estimator: slot,
        judgement: slot,
        enforcer: slot,
        output: slot,
        release: slot,
        further: slot,
        events: slot,
        place: slot,
        size: slot,
        run: slot,
        pairs: slot,
        valid: slot,
        exploration: slot,
    }
}
