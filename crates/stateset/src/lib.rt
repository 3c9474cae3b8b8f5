// Sets of states, a bit for each: state q is in the set where bit q, counted from the least significant, is 1.
#![tactic(auto)]

ghost use Rattle.std.specs.Prelude.{◌≡◌, ◌⊎◌, ℕ, ◌<◌, ◌≤◌};
ghost use Rattle.stateset.specs.Set.{In, Is, Counts, Decided};

// Whether a state is in the set.
pub fn member(set: u64, state: usize) -> bool
    ensures { Decided result (In state set) }
{
    if 63 < state {
        return false;
    }
    if set >> state & 1 == 1 {
        return true;
    }
    false
}

// The set with one state more. (For the crates above, which hold the state's bound; no entry.)
pub fn with(set: u64, state: usize) -> u64
    requires { state < 64 }
    ensures { Is result (λ q. In q set ⊎ (q ≡ state)) }
{
    set | 1 << state
}

// A number above every state of the set. (The least such number; that is not promised, since a larger one would only cost time.)
pub fn bound(set: u64) -> usize
    ensures { (result ≤ 64) × ((q : ℕ) → In q set → q < result) }
{
    64 - u64::leading_zeros(set) as usize
}

// How many states are in the set.
pub fn size(set: u64) -> u8
    ensures { Counts (λ q. In q set) result }
{
    u64::count_ones(set) as u8
}
