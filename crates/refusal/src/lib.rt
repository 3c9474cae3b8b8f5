// Why a call is turned back, and the number that 01 gives each reason. Every crate above refuses by these; nothing here needs an automaton.
#![tactic(auto)]

ghost use Rattle.std.specs.Prelude.{◌≡◌};
ghost use Rattle.refusal.specs.Refusals.{number_of};

// Why a call was turned back, in the order of 01's refusal table and then 02's numbers.
#[derive(Clone, Copy)]
pub enum Refusal {
    Truncated,
    StateOutOfRange,
    EventOutOfRange,
    TrailingData,
    NotObservable,
    Incompatible,
    InitialLeak,
    Malformed,
    OutputTooSmall,
    RepeatedTransition,
    TooManySecrets,
    LookBackTooLarge,
    BudgetSpent,
    NoWitness,
    StepTooFar,
}

// The number of a refusal in 01's table. (A match, in which each number stands beside its reason: they are C's, and have gaps. A `From` would be no
// plainer: `u8::from(refusal)` for `refusal::number(refusal)`, with a ghost member in place of the clause. Nothing compares refusals, so no derive does.)
pub fn number(refusal: Refusal) -> u8
    ensures { result ≡ number_of refusal }
{
    match refusal {
        Refusal::Truncated => 1,
        Refusal::StateOutOfRange => 3,
        Refusal::EventOutOfRange => 4,
        Refusal::TrailingData => 5,
        Refusal::NotObservable => 6,
        Refusal::Incompatible => 7,
        Refusal::InitialLeak => 8,
        Refusal::Malformed => 9,
        Refusal::OutputTooSmall => 10,
        Refusal::RepeatedTransition => 12,
        Refusal::TooManySecrets => 13,
        Refusal::LookBackTooLarge => 14,
        Refusal::BudgetSpent => 15,
        Refusal::NoWitness => 16,
        Refusal::StepTooFar => 17,
    }
}
