// Automata: the header and the lent table, whether the two are well-formed, the events of each symbol, and the sets of states that runs reach by events.
#![tactic(auto)]

ghost use Rattle.std.specs.Prelude.{◌≡◌, List, [], ◌∷◌, ◌++◌, ℕ, ◌+◌, ◌*◌, ◌<◌, ◌≤◌, length, get_or, take, drop, replicate};
ghost use Rattle.stateset.specs.Set.{In, Is, Decided};
ghost use Rattle.automaton.specs.Run.{Automaton, automaton_of, SmallSymbols, WellFormed};
ghost use Rattle.automaton.specs.Reaching.{Enters, Arrives, Leaves, Showing, BySymbol, Listed, Known, Gained, Closed, Entered};
ghost use Rattle.relation.specs.Relation.{Image, Preimage, Sub};

use relation::Sets;

// What an encoding says beside its transitions (01: head): the initial state, the look-back K, the secret states, the observable events, and
// the observation symbol of each event (02: lamp), which counts only where the event is observable. (The symbols stand first: a header is copied
// sixteen bytes at a time, and so are they read.)
#[derive(Clone, Copy)]
pub struct Header {
    pub symbols: [u8; 32],
    pub secret: u64,
    pub observable: u32,
    pub initial: u8,
    pub k: u8,
}

// States that unobservable events do not leave, and those whose rows are known.
#[derive(Clone, Copy)]
pub struct Reach {
    pub states: u64,
    pub known: u64,
}

// Whether the first `count` bytes are symbols, at most 31. (A byte that the slice does not have counts as 0; the arrays of
// estimators and enforcers are longer than a count within its limit.)
pub fn in_range(bytes: &[u8], count: u8) -> bool
    ensures { Decided result ((i : ℕ) → i < count → get_or bytes.now i 0 ≤ 31) }
{
    let n = bytes.len().min(count as usize);
    bytes[..n].iter().all(|b| *b <= 31)
}

// A number that none of the 32 symbols is above, those of unobservable events among them.
fn upper_bound(symbols: [u8; 32]) -> u8
    ensures { (e : ℕ) → e < 32 → get_or symbols e 0 ≤ result }
{
    let mut most: u8 = 0;
    for s in symbols {
        most = most.max(s);
    }
    most
}

// Whether the symbol of each observable event is at most 31. (Most often all 32 are, which is seen sixteen at a time; only else are the observable
// events walked through.)
fn small_symbols(header: Header) -> bool
    ensures { Decided result (SmallSymbols header.observable header.symbols) }
{
    let symbols = header.symbols;
    if upper_bound(symbols) <= 31 {
        return true;
    }
    let observable = header.observable as u64;
    let mut untested = observable;
    while untested != 0 {
        let e = u64::trailing_zeros(untested) as usize;
        if 31 < symbols[e] {
            return false;
        }
        untested &= untested - 1;
    }
    true
}

// Whether the table and the header are an automaton.
pub fn well_formed(table: &[u64], header: Header) -> bool
    ensures { Decided result (WellFormed table.now header) }
{
    if table.len() != 2048 {
        return false;
    }
    if 15 < header.k {
        return false;
    }
    if 63 < header.initial {
        return false;
    }
    small_symbols(header)
}

// For each symbol the observable events that have it. (One walk over the observable events for a whole call; a step by a symbol then finds its
// events at once. To a lent slice: an array that is handed back would be copied. Inner, as the functions below.)
pub fn by_symbol(header: Header, sets: &mut [u32])
    requires { SmallSymbols header.observable header.symbols × (sets.old ≡ replicate 32 0) }
    ensures { (t : List ℕ) → BySymbol (automaton_of t header) sets.new }
{
    let symbols = header.symbols;
    let observable = header.observable as u64;
    let mut todo = observable;
    while todo != 0 {
        let e = u64::trailing_zeros(todo) as usize;
        let s = symbols[e] as usize;
        sets[s] |= 1 << e;
        todo &= todo - 1;
    }
}

// The observable events with a symbol; none where the byte is above 31.
pub fn events_with(sets: &[u32], symbol: u8) -> u64
    requires { length sets.now ≡ 32 }
    ensures { (p : Automaton) → SmallSymbols p.observable p.symbols → BySymbol p sets.now → Showing p symbol result }
{
    let at = symbol as usize;
    if 31 < at {
        return 0;
    }
    sets[at] as u64
}

// Where the events of a mask may lead from eight states, from `first` on. (Event by event: the eight words stand side by side in the table.)
fn eight_rows(table: &[u64], events: u32, first: usize) -> [u64; 8]
    requires { (length table.now ≡ 2048) × (first ≤ 56) }
    ensures { (length result ≡ 8) × ((i : ℕ) → i < 8 → Is (get_or result i 0) (Listed table.now events (first + i))) }
{
    let mut rows = [0u64; 8];
    let mut todo = events as u64;
    while todo != 0 {
        let e = u64::trailing_zeros(todo) as usize;
        for i in 0..8 {
            rows[i] |= table[64 * e + first + i];
        }
        todo &= todo - 1;
    }
    rows
}

// Where unobservable events may lead, as far as the states of a set ask for it: the rows of all states that they lead to from there. Rows that are
// known already stay. (Inner, as the functions below: for the crates above, which hold their conditions; no entries.)
pub fn silent_rows(table: &[u64], header: Header, rows: &mut [u64], before: u64, from: u64) -> Reach
    requires { (length table.now ≡ 2048) × Known (automaton_of table.now header) before from rows.old }
    ensures { Gained (automaton_of table.now header) from rows.new result }
{
    let events = !header.observable;
    let mut states = from;
    let mut known = before;
    let mut todo = states & !known;
    while todo != 0 {
        let first = u64::trailing_zeros(todo) as usize / 8 * 8;
        let eight = eight_rows(table, events, first);
        states |= relation::put_rows(rows, first, eight);
        known |= 255 << first;
        todo = states & !known;
    }
    Reach { states, known }
}

// Where an event may lead from each state: 64 words as they stand in the table.
fn event_rows(table: &[u64], event: usize) -> &[u64; 64]
    requires { (length table.now ≡ 2048) × (event < 32) }
    ensures { result.now ≡ take 64 (drop (64 * event) table.now) }
{
    let (rows, _) = table.as_chunks::<64>();
    &rows[event]
}

// Where the events of a mask lead from the states of a set.
fn image_by(table: &[u64], events: u64, set: u64) -> u64
    requires { (length table.now ≡ 2048) × ((e : ℕ) → In e events → e < 32) }
    ensures { Is result (Image (Listed table.now events) set) }
{
    let mut left = events;
    let mut r: u64 = 0;
    while left != 0 {
        let e = u64::trailing_zeros(left) as usize;
        r |= relation::image(event_rows(table, e), set);
        left &= left - 1;
    }
    r
}

// The states that the first `steps` steps look at, from which the events of a mask lead into each set.
pub fn preimage_by<S: Sets>(table: &[u64], events: u64, steps: usize, set: S) -> S
    requires { (length table.now ≡ 2048) × ((e : ℕ) → In e events → e < 32) × (S.far steps ≤ 64) }
    ensures { S.Each (λ i. Is (S.at result i) (λ q. (q < S.far steps) × Preimage (Listed table.now events) (S.at set i) q)) }
{
    let mut todo = events;
    let mut r = S::none();
    while todo != 0 {
        let e = u64::trailing_zeros(todo) as usize;
        let some = set.preimage(event_rows(table, e), steps);
        r = r.join(some);
        todo &= todo - 1;
    }
    r
}

// The unobservable reach of an entry set: the states in which runs can be before the next observable event.
pub fn unobservable_reach(silent: &[u64; 64], states: u64, entry: u64) -> u64
    ensures { (Sub entry states → Sub entry result)
        × ((p : Automaton) (trace : List ℕ) → p.initial ≤ 63 → Closed p states silent.now → Sub entry states
        → Is entry (Enters p trace) → Is result (Arrives p trace)) }
{
    relation::closure(silent, states, entry)
}

// The entry set of one more symbol, from the events that show it: the states in which runs can be right after it.
pub fn observable_reach(table: &[u64], events: u64, estimate: u64) -> u64
    requires { (length table.now ≡ 2048) × ((e : ℕ) → In e events → e < 32) }
    ensures { (p : Automaton) (trace : List ℕ) (symbol : ℕ) → p.table ≡ table.now → Showing p symbol events → Is estimate (Arrives p trace)
        → Is result (Enters p (trace ++ symbol ∷ [])) }
{
    image_by(table, events, estimate)
}

// From the states that some symbols can follow, those that the same symbols can follow with one more before them, for each set through its own allowed
// states alone.
pub fn backward_reach<S: Sets>(
    table: &[u64],
    back: &[u64; 64],
    allowed: S,
    events: u64,
    then: S,
) -> S
    requires { (length table.now ≡ 2048) × ((e : ℕ) → In e events → e < 32) }
    ensures { S.Each (λ i. (p : Automaton) (states : ℕ) (rest : List ℕ) (symbol : ℕ) → p.table ≡ table.now → Showing p symbol events
        → Entered p states back.now → Sub (S.at allowed i) states → Is (S.at then i) (Leaves p (S.at allowed i) rest)
        → Is (S.at result i) (Leaves p (S.at allowed i) (symbol ∷ rest))) }
{
    let below = stateset::bound(allowed.any());
    let into = preimage_by(table, events, S::steps(below), then);
    relation::closure(back, allowed, into)
}

// The unobservable events the other way round, from states of the set. (To a lent slice: an array that is handed back would be copied.)
pub fn silent_back(silent: &[u64; 64], states: u64, back: &mut [u64])
    requires { back.old ≡ replicate 64 0 }
    ensures { (p : Automaton) → Closed p states silent.now → Entered p states back.new }
{
    let few = stateset::bound(states);
    if few <= 16 {
        relation::transpose_few(silent, few, back);
        return;
    }
    back.copy_from_slice(&relation::transpose(silent));
}
