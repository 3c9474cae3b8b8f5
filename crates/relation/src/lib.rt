// Relations between states as 64 rows: row q is the set of the states that q is related to. Images, preimages, the other way round and closures, of one set
// and of four sets side by side. Nothing here knows an automaton. (All of it inner: for the crates above, which hold the conditions.)
#![tactic(auto)]

ghost use Rattle.std.specs.Prelude.{◌≡◌, ◌⊎◌, ℕ, ◌+◌, ◌-◌, ◌*◌, ◌^◌, ◌<◌, ◌≤◌, length, replicate};
ghost use Rattle.std.specs.Int.Bits.{bit_and, bit_or};
ghost use Rattle.stateset.specs.Set.{In, Is, complement};
ghost use Rattle.relation.specs.Relation.{Row, Rows, Image, Preimage, Reached, Put, Masks, Swapped, set_at, some_below, one};

// Four sets of states side by side, one for each of four secrets: what is asked of all is worked out in one pass.
#[derive(Clone, Copy)]
pub struct StateSets {
    pub own: u64,
    pub first: u64,
    pub second: u64,
    pub third: u64,
}

// Joins the rows of eight states to those at their places, from `first` on. What comes back is all that they lead to. (The bound is read from the
// slice, which has 64 words: with one that is known to it the compiler would keep the eight words apart, and `eight_rows` would take one at a time.)
pub fn put_rows(rows: &mut [u64], first: usize, eight: [u64; 8]) -> u64
    requires { (length rows.old ≡ 64) × (first ≤ 56) }
    ensures { Put rows.old first eight rows.new result }
{
    let mut to: u64 = 0;
    for i in 0..rows.len() / 8 {
        let row = eight[i];
        rows[first + i] |= row;
        to |= row;
    }
    to
}

// One round of `transpose`: the digit of weight j of a bit's number and the highest digit of its row's number change places, and the row's
// digits move up by one, so that the new one stands lowest. (So in every round the words i and 32 + i make the words 2 i and 2 i + 1.)
fn swap_digit(rows: &[u64; 64], j: usize, mask: u64) -> [u64; 64]
    requires { (0 < j) × (j ≤ 32) × Masks j mask }
    ensures { Swapped j rows.now result }
{
    let mut out = [0u64; 64];
    for i in 0..32 {
        let low = rows[i];
        let high = rows[32 + i];
        out[2 * i] = low & mask | (high & mask) << j;
        out[2 * i + 1] = low >> j & mask | high & !mask;
    }
    out
}

// The relation the other way round, in six rounds whatever the rows hold: a round for each of the six digits of a bit's and a row's number.
pub fn transpose(rows: &[u64; 64]) -> [u64; 64]
    ensures { Rows result (λ q p. Row rows.now p q) }
{
    let a = swap_digit(rows, 32, 0x0000_0000_ffff_ffff);
    let b = swap_digit(&a, 16, 0x0000_ffff_0000_ffff);
    let c = swap_digit(&b, 8, 0x00ff_00ff_00ff_00ff);
    let d = swap_digit(&c, 4, 0x0f0f_0f0f_0f0f_0f0f);
    let e = swap_digit(&d, 2, 0x3333_3333_3333_3333);
    swap_digit(&e, 1, 0x5555_5555_5555_5555)
}

// The relation the other way round, from the first `few` states alone: a bit at a time, which is fast where they are few.
pub fn transpose_few(rows: &[u64; 64], few: usize, out: &mut [u64])
    requires { (few ≤ 64) × (out.old ≡ replicate 64 0) }
    ensures { Rows out.new (λ q p. Row rows.now p q × (p < few)) }
{
    for (p, row) in rows[..few].iter().enumerate() {
        let mut todo = *row;
        while todo != 0 {
            let q = u64::trailing_zeros(todo) as usize;
            out[q] |= 1 << p;
            todo &= todo - 1;
        }
    }
}

// r moved up by one, with the bit of one more row below it: 1 where the row and the set share a state.
fn shift(r: u64, row: u64, set: u64) -> u64
    ensures { Is result (λ p. ((1 ≤ p) × (p < 64) × In (p - 1) r) ⊎ ((p ≡ 0) × ((x : ℕ) × In x set × In x row))) }
{
    if row & set != 0 {
        return r << 1 | 1;
    }
    r << 1
}

// From which of two neighbours the relation leads into a set: bit 0 for the first, bit 1 for the second.
fn pair(rows: &[u64; 64], first: usize, set: u64) -> u64
    requires { first + 1 < 64 }
    ensures { Is result (λ d. (d < 2) × Preimage (Row rows.now) set (first + d)) }
{
    let second = shift(0, rows[first + 1], set);
    shift(second, rows[first], set)
}

// One set of states, or several side by side, each with its number: what is asked of all of them is worked out in one pass. (Of one set alone each method
// is the operation on words that it names.)
pub trait Sets: Copy {
    // How many sets there are, and the set with a number; `Each` P says that P holds of each number.
    ghost count: { ℕ };

    ghost at: { Self → ℕ → ℕ };

    ghost Each: { (ℕ → Type 0) → Type 0 };

    ghost each_of: { (P : ℕ → Type 0) → ((i : ℕ) → i < count → P i) → Each P };

    ghost of_each: { (P : ℕ → Type 0) → Each P → (i : ℕ) → i < count → P i };

    // How many of the first states a number of steps of `preimage` look at.
    ghost far: { ℕ → ℕ };

    // Sets without states.
    fn none() -> Self
        ensures { Each (λ i. at result i ≡ 0) };

    // Unions, intersections and differences, of all at a time.
    fn join(self, other: Self) -> Self
        ensures { Each (λ i. at result i ≡ bit_or (at self i) (at other i)) };

    fn both(self, other: Self) -> Self
        ensures { Each (λ i. at result i ≡ bit_and (at self i) (at other i)) };

    fn without(self, other: Self) -> Self
        ensures { Each (λ i. (at self i < 2 ^ 64) × (at result i ≡ bit_and (at self i) (complement (at other i)))) };

    // The states that are in some of them.
    fn any(self) -> u64
        ensures { Is result (λ q. (i : ℕ) × (i < count) × In q (at self i)) };

    // The row of state q, which is in some wave, joined to each set whose wave it is in.
    fn pick(self, row: u64, waves: Self, q: u32) -> Self
        requires { (q < 64) × ((i : ℕ) × (i < count) × In q (at waves i)) }
        ensures { Each (λ i. Is (at result i) (λ x. In x (at self i) ⊎ (In q (at waves i) × In x row))) };

    // How many steps look at all states below a number.
    fn steps(below: usize) -> usize
        requires { below ≤ 64 }
        ensures { (below ≤ far result) × (far result ≤ 64) };

    // The states that the first `steps` steps look at, from which the relation leads into each of them.
    fn preimage(self, rows: &[u64; 64], steps: usize) -> Self
        requires { far steps ≤ 64 }
        ensures { Each (λ i. Is (at result i) (λ q. (q < far steps) × Preimage (Row rows.now) (at self i) q)) };
}

impl Sets for u64 {
    ghost count = { 1 };

    ghost at = { λ s _. s };

    ghost Each = { λ P. P 0 };

    ghost each_of = { λ P f. f 0 some_below };

    ghost of_each = { one };

    ghost far = { λ steps. 2 * steps };

    fn none() -> u64 {
        0
    }

    fn join(self, other: u64) -> u64 {
        self | other
    }

    fn both(self, other: u64) -> u64 {
        self & other
    }

    fn without(self, other: u64) -> u64 {
        self & !other
    }

    fn any(self) -> u64 {
        self
    }

    fn pick(self, row: u64, _waves: u64, _q: u32) -> u64 {
        self | row
    }

    fn steps(below: usize) -> usize {
        (below + 1) / 2
    }

    // Two rows a step: the bits of a pair need not wait for the shift. (From the highest down: a shift by two is faster than one by q.)
    fn preimage(self, rows: &[u64; 64], steps: usize) -> u64 {
        let mut r: u64 = 0;
        for p in (0..steps).rev() {
            r = r << 2 | pair(rows, 2 * p, self);
        }
        r
    }
}

impl Sets for StateSets {
    ghost count = { 4 };

    ghost at = { set_at };

    ghost Each = { λ P. (i : ℕ) → i < 4 → P i };

    ghost each_of = { λ P f. f };

    ghost of_each = { λ P f. f };

    ghost far = { λ steps. steps };

    fn none() -> StateSets {
        StateSets {
            own: 0,
            first: 0,
            second: 0,
            third: 0,
        }
    }

    fn join(self, other: StateSets) -> StateSets {
        StateSets {
            own: self.own | other.own,
            first: self.first | other.first,
            second: self.second | other.second,
            third: self.third | other.third,
        }
    }

    fn both(self, other: StateSets) -> StateSets {
        StateSets {
            own: self.own & other.own,
            first: self.first & other.first,
            second: self.second & other.second,
            third: self.third & other.third,
        }
    }

    fn without(self, other: StateSets) -> StateSets {
        StateSets {
            own: self.own & !other.own,
            first: self.first & !other.first,
            second: self.second & !other.second,
            third: self.third & !other.third,
        }
    }

    fn any(self) -> u64 {
        self.own | self.first | self.second | self.third
    }

    fn pick(self, row: u64, waves: StateSets, q: u32) -> StateSets {
        StateSets {
            own: picked(self.own, row, waves.own, q),
            first: picked(self.first, row, waves.first, q),
            second: picked(self.second, row, waves.second, q),
            third: picked(self.third, row, waves.third, q),
        }
    }

    fn steps(below: usize) -> usize {
        below
    }

    // One row a step, which is read once for all four.
    fn preimage(self, rows: &[u64; 64], steps: usize) -> StateSets {
        let mut r = StateSets::none();
        for q in (0..steps).rev() {
            let row = rows[q];
            r = StateSets {
                own: shift(r.own, row, self.own),
                first: shift(r.first, row, self.first),
                second: shift(r.second, row, self.second),
                third: shift(r.third, row, self.third),
            };
        }
        r
    }
}

// r with the row of state q, where q is in the set.
fn picked(r: u64, row: u64, wave: u64, q: u32) -> u64
    requires { q < 64 }
    ensures { Is result (λ x. In x r ⊎ (In q wave × In x row)) }
{
    if wave >> q & 1 != 0 {
        return r | row;
    }
    r
}

// Where the relation leads from the states of each set. (The row of a state that is in some of them is read once.)
pub fn image<S: Sets>(rows: &[u64; 64], set: S) -> S
    ensures { S.Each (λ i. Is (S.at result i) (Image (Row rows.now) (S.at set i))) }
{
    let mut todo = set.any();
    let mut r = S::none();
    while todo != 0 {
        let q = u64::trailing_zeros(todo);
        r = r.pick(rows[q as usize], set, q);
        todo &= todo - 1;
    }
    r
}

// The states that each set reaches by the relation, through its allowed states alone. (Wave by wave: a wave is what the one before it leads to and is
// still missing. Once no allowed state is missing, there is nothing left to find.)
pub fn closure<S: Sets>(rows: &[u64; 64], allowed: S, from: S) -> S
    ensures { S.Each (λ i. Is (S.at result i) (Reached (Row rows.now) (S.at allowed i) (S.at from i))) }
{
    let mut wave = from.both(allowed);
    let mut missing = allowed.without(wave);
    while missing.any() != 0 {
        wave = image(rows, wave).both(missing);
        if wave.any() == 0 {
            return allowed.without(missing);
        }
        missing = missing.without(wave);
    }
    allowed
}
