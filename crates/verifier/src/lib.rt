// The estimator (01: watch): it accepts one symbol after another, and answers for each how many states are possible and the verdicts of each secret.
// Here the types, what is chosen by a notion, and the estimator's entries: `fresh`, `well_formed`, `accept`, `accept_by` demand nothing of their callers.
// What is remembered of the symbols, the states that are possible now, and the look backs of one secret are worked out in the crate `estimates`.
// The modules, each on those before it:
#![tactic(auto)]

mod several; // the strong verdicts of several secrets in one pass
mod each_secret; // the verdicts of each secret

ghost use Rattle.std.specs.Prelude.{◌≡◌, List, [], ◌∷◌, ◌++◌, ℕ, ◌≤◌, get_or, Err};
ghost use Rattle.stateset.specs.Set.{Is, Decided};
ghost use Rattle.automaton.specs.Run.{Automaton, Possible, WellFormed};
ghost use Rattle.automaton.specs.Reaching.{Enters};
ghost use Rattle.relation.specs.Relation.{Sub};
ghost use Rattle.estimates.specs.Estimates.{Inside};
ghost use Rattle.opacity.specs.Secrets.{Allowed};
ghost use Rattle.verifier.specs.Estimators.{remembered_of, Limits, InLimits, Grown, GrownOn};
ghost use Rattle.verifier.specs.Replies.{said, said_by, chosen, chosen_each, Others, OthersBy, Unusable, Opening, Accepting, AcceptingBy};
ghost use Rattle.verifier.specs.Inner.{ask_for, chosen_answer, Opened, AcceptingAsked};

use automaton::Header;
use estimates::Remembered;
use opacity::{Further, Notion, Verdict, Verdicts};
use refusal::Refusal;

// What there is for each secret: the automaton's own, number 0, and the further ones, 1 to 3. It is both verdicts of each (`Verdicts`), or the
// verdict by one notion alone (`Verdict`); those of a place that is not given are NoLeak.
#[derive(Clone, Copy)]
pub struct EachSecret<V> {
    pub own: V,
    pub first: V,
    pub second: V,
    pub third: V,
}

// What an accepted answer holds: how many states are possible (02: how many fit), 1 to 64, and the verdicts.
#[derive(Clone, Copy)]
pub struct Judgement<V> {
    pub size: u8,
    pub verdicts: EachSecret<V>,
}

// The last symbols (02: lamps), the newest first, and for each step back the states right after the last one that is left; and the further secrets
// (01: watch). (Arrays and a count: memory is fixed, and their bytes are the layout of C.)
#[derive(Clone, Copy)]
pub struct Estimator {
    pub count: u8,
    pub symbols: [u8; 15],
    pub entries: [u64; 16],
    pub further: Further,
}

// The estimator that an entry hands back, and what it answers. (Beside the answer, and not in its Ok: the scope names a struct by value that a method hands
// back with the answer, and of a refusal the estimator that is handed back is promised.)
#[derive(Clone, Copy)]
pub struct Reply<V> {
    pub estimator: Estimator,
    pub answer: Result<Judgement<V>, Refusal>,
}

// The notions whose verdicts are asked for: both, or one. (A flag for each, which is read where its verdict is found: an enum of these sets would be no
// plainer, since a function would have to tell from it what the flag says.)
#[derive(Clone, Copy)]
struct Asked {
    weak: bool,
    strong: bool,
}

// Asks for one notion.
fn ask(notion: Notion) -> Asked
    ensures { result ≡ ask_for notion }
{
    match notion {
        Notion::Weak => Asked {
            weak: true,
            strong: false,
        },
        Notion::Strong => Asked {
            weak: false,
            strong: true,
        },
    }
}

// The verdict by the notion.
pub fn choose(notion: Notion, verdicts: Verdicts) -> Verdict
    ensures { result ≡ chosen notion verdicts }
{
    match notion {
        Notion::Weak => verdicts.weak,
        Notion::Strong => verdicts.strong,
    }
}

// The verdict of each secret by the notion.
pub fn choose_each(notion: Notion, verdicts: EachSecret<Verdicts>) -> EachSecret<Verdict>
    ensures { result ≡ chosen_each notion verdicts }
{
    EachSecret {
        own: choose(notion, verdicts.own),
        first: choose(notion, verdicts.first),
        second: choose(notion, verdicts.second),
        third: choose(notion, verdicts.third),
    }
}

// What the estimator remembers of its trace: for a look back, and for an exploration, which stores no more of a configuration.
pub fn remembered_of(estimator: Estimator) -> Remembered
    ensures { result ≡ remembered_of estimator }
{
    let symbols = estimator.symbols;
    let entries = estimator.entries;
    Remembered {
        count: estimator.count,
        symbols,
        entries,
    }
}

// The answer with the verdicts by the notion alone.
fn choose_answer(
    notion: Notion,
    answer: Result<Judgement<Verdicts>, Refusal>,
) -> Result<Judgement<Verdict>, Refusal>
    ensures { result ≡ chosen_answer notion answer }
{
    let judgement = answer?;
    Ok(Judgement {
        size: judgement.size,
        verdicts: choose_each(notion, judgement.verdicts),
    })
}

impl Estimator {
    // With no symbol: the initial state alone.
    fn initial(state: u8, further: Further) -> Estimator
        requires { state ≤ 63 }
        ensures { (result.further ≡ further) × ((p : Automaton) (K : ℕ) → p.initial ≡ state → Allowed further → Grown p K [] result) }
    {
        let mut entries = [0u64; 16];
        entries[0] = stateset::with(0, state as usize);
        Estimator {
            count: 0,
            symbols: [0u8; 15],
            entries,
            further,
        }
    }

    // None: outside its limits on every automaton.
    fn none() -> Estimator
        ensures { Unusable result }
    {
        let further = opacity::no_further();
        Estimator {
            count: 255,
            symbols: [0u8; 15],
            entries: [0u64; 16],
            further,
        }
    }

    // The table and the header are an automaton, and the estimator is within its limits.
    pub fn well_formed(self, table: &[u64], header: Header) -> bool
        ensures { Decided result (WellFormed table.now header × InLimits header self) }
    {
        if !automaton::well_formed(table, header) {
            return false;
        }
        if 3 < self.further.count {
            return false;
        }
        let further = self.further;
        let k = opacity::look_back(header, further);
        if 15 < k {
            return false;
        }
        let symbols = self.symbols;
        let count = self.count;
        if k < count {
            return false;
        }
        automaton::in_range(&symbols, count)
    }

    // With one symbol more, and the states right after it.
    fn push(self, k: u8, symbol: u8, entry: u64) -> Estimator
        requires { (k ≤ 15) × (symbol ≤ 31) × Limits k self }
        ensures { (result.further ≡ self.further) × Limits k result × (get_or result.entries 0 0 ≡ entry)
            × ((states : ℕ) → Sub entry states → Inside self.entries states → Inside result.entries states)
            × ((p : Automaton) (trace : List ℕ) → Grown p k trace self → Is entry (Enters p (trace ++ symbol ∷ []))
            → Possible p (trace ++ symbol ∷ []) → Grown p k (trace ++ symbol ∷ []) result) }
    {
        let count = estimates::count_after(self.count, k);
        let old_symbols = self.symbols;
        let old_entries = self.entries;
        let further = self.further;
        let symbols = estimates::push(old_symbols, count, symbol);
        let entries = estimates::push(old_entries, count + 1, entry);
        Estimator {
            count,
            symbols,
            entries,
            further,
        }
    }

    // Outside its limits, with the reason.
    fn turned_down(refusal: Refusal) -> Reply<Verdicts>
        ensures { Unusable result.estimator × (result.answer ≡ Err refusal) }
    {
        Reply {
            estimator: Estimator::none(),
            answer: Err(refusal),
        }
    }

    // With no symbol yet: the verdicts of the empty trace, and how many states are possible then.
    fn opening(self, table: &[u64], header: Header, asked: Asked) -> Judgement<Verdicts>
        requires { WellFormed table.now header × GrownOn table.now header [] self }
        ensures { Opened table.now header self asked result }
    {
        let entry = self.entries[0];
        let mut silent = [0u64; 64];
        let estimate = estimates::estimate_from(table, header, &mut silent, 0, 0, entry);
        let mut sets = [0u32; 32];
        automaton::by_symbol(header, &mut sets);
        self.assess(table, header, &sets, &silent, estimate, asked)
    }

    // A fresh estimator with these further secrets, with the verdicts of the empty trace and how many states are possible then.
    pub fn fresh(table: &[u64], header: Header, further: Further) -> Reply<Verdicts>
        ensures { Opening table.now header further (said further result.answer) result.estimator × Others further result.answer }
    {
        if !automaton::well_formed(table, header) {
            return Estimator::turned_down(Refusal::Malformed);
        }
        if 3 < further.count {
            return Estimator::turned_down(Refusal::TooManySecrets);
        }
        let k = opacity::look_back(header, further);
        if 15 < k {
            return Estimator::turned_down(Refusal::LookBackTooLarge);
        }
        let given = opacity::clear(further);
        let estimator = Estimator::initial(header.initial, given);
        let asked = Asked {
            weak: true,
            strong: true,
        };
        let judgement = estimator.opening(table, header, asked);
        Reply {
            estimator,
            answer: Ok(judgement),
        }
    }

    // As it was, with the reason.
    fn refused(self, refusal: Refusal) -> Reply<Verdicts>
        ensures { (result.estimator ≡ self) × (result.answer ≡ Err refusal) }
    {
        Reply {
            estimator: self,
            answer: Err(refusal),
        }
    }

    // Accepts one symbol, or hands back the estimator as it was. (01: "An event on which no run is left is turned back, and the watch stays.") Only
    // the verdicts that are asked for are found.
    fn accept_asked(
        self,
        table: &[u64],
        header: Header,
        symbol: u8,
        asked: Asked,
    ) -> Reply<Verdicts>
        ensures { AcceptingAsked asked table.now header self symbol result.answer result.estimator }
    {
        if !self.well_formed(table, header) {
            return self.refused(Refusal::Malformed);
        }
        let mut sets = [0u32; 32];
        automaton::by_symbol(header, &mut sets);
        let shown = automaton::events_with(&sets, symbol);
        if shown == 0 {
            return self.refused(Refusal::NotObservable);
        }
        let mut silent = [0u64; 64];
        let from = estimates::entered(self.entries);
        let near = automaton::silent_rows(table, header, &mut silent, 0, from);
        let newest = self.entries[0];
        let next = estimates::next_estimate(table, header, &mut silent, near, newest, shown);
        let Some(estimate) = next else {
            return self.refused(Refusal::Incompatible);
        };
        let further = self.further;
        let k = opacity::look_back(header, further);
        let after = self.push(k, symbol, estimate.entry);
        let judgement = after.assess(table, header, &sets, &silent, estimate, asked);
        Reply {
            estimator: after,
            answer: Ok(judgement),
        }
    }

    // Accepts one symbol, with both verdicts of each secret.
    pub fn accept(self, table: &[u64], header: Header, symbol: u8) -> Reply<Verdicts>
        ensures { Accepting table.now header self symbol (said self.further result.answer) result.estimator
            × Others self.further result.answer }
    {
        let asked = Asked {
            weak: true,
            strong: true,
        };
        self.accept_asked(table, header, symbol, asked)
    }

    // Accepts one symbol, with the verdict of each secret by one notion: an enforcer pays for the look backs of that notion alone.
    pub fn accept_by(
        self,
        table: &[u64],
        header: Header,
        symbol: u8,
        notion: Notion,
    ) -> Reply<Verdict>
        ensures { AcceptingBy notion table.now header self symbol (said_by self.further result.answer) result.estimator
            × OthersBy self.further result.answer }
    {
        let reply = self.accept_asked(table, header, symbol, ask(notion));
        Reply {
            estimator: reply.estimator,
            answer: choose_answer(notion, reply.answer),
        }
    }
}
