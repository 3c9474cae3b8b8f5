// The first leak of a long log (02, S-8): the place of the first accepted event whose verdict by one notion is a leak, of any secret that is given.
// `first_leak` takes the offered bytes in one slice. A list that is longer than the memory is searched block after block: `Search::begin`, and `advance` for
// each block, which takes the search by value and hands it back. None of them demands anything of its caller.
#![tactic(auto)]

ghost use Rattle.std.specs.Prelude.{◌≡◌, false, [], ◌∷◌, Ok};
ghost use Rattle.stateset.specs.Set.{Decided};
ghost use Rattle.opacity.specs.declared.Verdict.TheVariants as case;
ghost use Rattle.leaks.specs.FirstLeaks.{said, Finding};
ghost use Rattle.leaks.specs.Searches.{said_of, Within, SearchedOn, Beginning, Advancing};
ghost use Rattle.leaks.specs.Inner.{LeakAmong};

use automaton::Header;
use opacity::{Further, Notion, Verdict};
use refusal::Refusal;
use verifier::{EachSecret, Estimator};

// A search for the first leak by one notion: the estimator after the bytes so far, how many of them were accepted, and whether the last of these leaks. It is
// the first then, and the search goes no further. (A flag beside the count, and no Option of a place: the place is the count itself, so that none contradicts
// it.)
#[derive(Clone, Copy)]
pub struct Search {
    pub estimator: Estimator,
    pub notion: Notion,
    pub accepted: u64,
    pub found: bool,
}

// The search that is handed back, and what it has found so far: the place of the first leak among the accepted events, from 1; None where none of them
// leaks. (The search beside the answer, as in `verifier::Reply`.)
#[derive(Clone, Copy)]
pub struct SearchReply {
    pub search: Search,
    pub answer: Result<Option<u64>, Refusal>,
}

fn is_leak(verdict: Verdict) -> bool
    ensures { Decided result (verdict ≡ case.NoLeak → ⊥) }
{
    matches!(verdict, Verdict::Leak(_))
}

// Whether one of the verdicts is a leak. (Those of a secret that is not given are none.)
fn any_leak(verdicts: EachSecret<Verdict>) -> bool
    ensures { Decided result (LeakAmong verdicts) }
{
    is_leak(verdicts.own)
        || is_leak(verdicts.first)
        || is_leak(verdicts.second)
        || is_leak(verdicts.third)
}

impl Search {
    // What it has found so far.
    fn answer(self) -> Option<u64>
        ensures { said (Ok result) ≡ said_of self }
    {
        if self.found {
            return Some(self.accepted);
        }
        None
    }

    // The table and the header are an automaton, the estimator is within its limits, a leak that is found has a place, and, unless it is found, so many bytes
    // more can be counted.
    fn within(self, table: &[u64], header: Header, more: usize) -> bool
        ensures { Decided result (Within table.now header self more) }
    {
        if !self.estimator.well_formed(table, header) {
            return false;
        }
        if self.found {
            return self.accepted != 0;
        }
        more as u64 <= u64::MAX - self.accepted
    }

    // A search of no byte yet, with these further secrets. (The verdicts of the opening, which is no event, count for nothing.)
    pub fn begin(table: &[u64], header: Header, further: Further, notion: Notion) -> SearchReply
        ensures { Beginning notion table.now header further (said result.answer) result.search }
    {
        let reply = Estimator::fresh(table, header, further);
        let estimator = reply.estimator;
        let search = Search {
            estimator,
            notion,
            accepted: 0,
            found: false,
        };
        let answer = reply.answer;
        match answer {
            Err(refusal) => SearchReply {
                search,
                answer: Err(refusal),
            },
            Ok(_) => SearchReply {
                search,
                answer: Ok(None),
            },
        }
    }

    // One byte more, where no event has leaked so far. A byte that is refused is passed over. (One look back is paid for: that of the notion.)
    fn step(self, table: &[u64], header: Header, byte: u8) -> Search
        requires { Within table.now header self 1 × (self.found ≡ false) }
        ensures { SearchedOn table.now header self (byte ∷ []) result }
    {
        let estimator = self.estimator;
        let notion = self.notion;
        let next = self.accepted + 1;
        let reply = estimator.accept_by(table, header, byte, notion);
        let answer = reply.answer;
        match answer {
            Err(_) => self,
            Ok(judgement) => {
                let verdicts = judgement.verdicts;
                let after = reply.estimator;
                Search {
                    estimator: after,
                    notion,
                    accepted: next,
                    found: any_leak(verdicts),
                }
            }
        }
    }

    // A block of bytes more. Once the leak is found, no byte is looked at.
    pub fn advance(self, table: &[u64], header: Header, bytes: &[u8]) -> SearchReply
        ensures { Advancing table.now header self bytes.now (said result.answer) result.search }
    {
        if !self.within(table, header, bytes.len()) {
            return SearchReply {
                search: self,
                answer: Err(Refusal::Malformed),
            };
        }
        let mut now = self;
        for byte in bytes {
            if now.found {
                break;
            }
            now = now.step(table, header, *byte);
        }
        SearchReply {
            search: now,
            answer: Ok(now.answer()),
        }
    }
}

// The place of the first accepted event of the list whose verdict by the notion is a leak of any secret that is given; None where there is no such event.
pub fn first_leak(
    table: &[u64],
    header: Header,
    further: Further,
    notion: Notion,
    bytes: &[u8],
) -> Result<Option<u64>, Refusal>
    ensures { Finding notion table.now header further bytes.now (said result) }
{
    let begun = Search::begin(table, header, further, notion);
    begun.answer?;
    let reply = begun.search.advance(table, header, bytes);
    reply.answer
}
