// Steps that are written: from a state, by events of a mask, into a set. The shortest way by unobservable steps is found from its end, layer by layer.
ghost use Rattle.std.specs.Prelude.{◌≡◌, List, [], ◌∷◌, ℕ, ◌+◌, ◌≤◌, ◌<◌, length, get_or};
ghost use Rattle.std.proofs.lemmas.List.Edits.{sets};
ghost use Rattle.stateset.specs.Set.{In, everything};
ghost use Rattle.relation.specs.Relation.{Sub};
ghost use Rattle.automaton.specs.Run.{Automaton, Transition, shows};
ghost use Rattle.automaton.specs.Reaching.{Entered};
ghost use Rattle.witness.specs.Inner.{Onward, Layered, Goes, Leads, Ahead, Moved};

// A state, and where in the output the next pair goes.
#[derive(Clone, Copy)]
pub struct Place {
    pub state: u8,
    pub at: usize,
}

// What every walk goes by: the transitions, the mask of the unobservable events, where they lead from as rows, the events of each symbol, and the states
// that a run may go through.
#[derive(Clone, Copy)]
pub struct Ways<'a> {
    pub table: &'a [u64],
    pub silent: u64,
    pub back: &'a [u64; 64],
    pub sets: &'a [u32],
    pub allowed: u64,
}

// The states from which unobservable steps through allowed states lead to the target, in layers: those of the target, those one step before them,
// and so on; and all of them. No state is in two layers, so 64 are enough.
fn layers_to(back: &[u64; 64], allowed: u64, target: u64, layers: &mut [u64]) -> u64
    requires { length layers.old ≡ 64 }
    ensures { (p : Automaton) → Entered p everything back.now → Layered p allowed target layers.new result }
{
    let mut done = target & allowed;
    let mut wave = done;
    for layer in layers.iter_mut() {
        *layer = wave;
        wave = relation::image(back, wave) & allowed & !done;
        done |= wave;
    }
    done
}

// The first layer that has a state.
fn layer_of(layers: &[u64], state: usize) -> usize
    requires { (length layers.now ≡ 64) × ((d : ℕ) × (d < 64) × In state (get_or layers.now d 0)) }
    ensures { (result < 64) × In state (get_or layers.now result 0) }
{
    for (d, layer) in layers.iter().enumerate() {
        if stateset::member(*layer, state) {
            return d;
        }
    }
    unreachable!()
}

// An event of the mask that leads from a state into a set, of which there is one.
fn event_into(table: &[u64], events: u64, from: usize, into: u64) -> u8
    requires { (length table.now ≡ 2048) × ((e : ℕ) → In e events → e < 32) × Onward table.now events from into }
    ensures { In result events × ((to : ℕ) × In to into × Transition table.now from result to) }
{
    let mut todo = events;
    loop {
        let e = u64::trailing_zeros(todo) as usize;
        if table[64 * e + from] & into != 0 {
            return e as u8;
        }
        todo &= todo - 1;
    }
}

// Puts one pair at a place of the output.
fn put_pair(output: &mut [u8], at: usize, event: u8, state: u8)
    requires { at + 2 ≤ length output.old }
    ensures { output.new ≡ sets output.old at (event ∷ state ∷ []) }
{
    output[at] = event;
    output[at + 1] = state;
}

// Writes one step by an event of the mask into a set.
fn put_step(table: &[u64], events: u64, into: u64, place: Place, output: &mut [u8]) -> Place
    requires { (length table.now ≡ 2048) × ((e : ℕ) → In e events → e < 32) × Onward table.now events place.state into
        × (place.at + 2 ≤ length output.old) }
    ensures { ((p : Automaton) (allowed : ℕ) (out : List ℕ) → p.table ≡ table.now → ((e : ℕ) → In e events → shows p e ≡ out)
        → Sub into allowed
        → Moved p allowed out 1 place.state place.at output.old output.new result) × In result.state into }
{
    let q = place.state as usize;
    let event = event_into(table, events, q, into);
    let to = u64::trailing_zeros(table[64 * event as usize + q] & into) as u8;
    put_pair(output, place.at, event, to);
    Place {
        state: to,
        at: place.at + 2,
    }
}

// Writes a shortest way by unobservable steps through allowed states into the target.
pub fn silent_walk(ways: Ways, target: u64, place: Place, output: &mut [u8]) -> Place
    requires { ((p : Automaton) × Goes p ways × Leads p ways.allowed target place.state) × (place.at + 126 ≤ length output.old) }
    ensures { ((p : Automaton) → Goes p ways.entry
        → Moved p ways.entry.allowed [] 63 place.state place.at output.old output.new result) × In result.state target }
{
    let mut layers = [0u64; 64];
    layers_to(ways.back, ways.allowed, target, &mut layers);
    let mut now = place;
    let first = layer_of(&layers, place.state as usize);
    for d in (0..first).rev() {
        now = put_step(ways.table, ways.silent, layers[d], now, output);
    }
    now
}

// Writes unobservable steps and one step that shows the symbol, into a set of allowed states.
pub fn observable_walk(ways: Ways, symbol: u8, then: u64, place: Place, output: &mut [u8]) -> Place
    requires { ((p : Automaton) × Goes p ways × Ahead p ways.allowed symbol then place.state) × (place.at + 128 ≤ length output.old) }
    ensures { ((p : Automaton) → Goes p ways.entry → Sub then ways.entry.allowed
        → Moved p ways.entry.allowed (symbol ∷ []) 64 place.state place.at output.old output.new result) × In result.state then }
{
    let events = automaton::events_with(ways.sets, symbol);
    let into = automaton::preimage_by(ways.table, events, 32, then);
    let mid = silent_walk(ways, into, place, output);
    put_step(ways.table, events, then, mid, output)
}
