// How a log begins: a fresh verifier and a weak enforcer for its automaton, or what a refused log hands back.
ghost use Rattle.std.specs.Prelude.{◌≡◌, ◌<◌, Err};
ghost use Rattle.automaton.specs.Run.{WellFormed};
ghost use Rattle.automaton.specs.declared.Header.{Header};
ghost use Rattle.monitor.specs.Opening.{nothing_told, NoMonitor, StartedOn, open_outcome as opened};

use super::{Monitor, Opened, no_log};
use automaton::Header;
use enforcer::Enforcer;
use opacity::{Notion, Verdict, Verdicts};
use refusal::Refusal;
use verifier::{EachSecret, Estimator, Judgement};

// No leak and no state to tell.
fn nothing_told() -> Judgement<Verdicts>
    ensures { result ≡ nothing_told }
{
    let silent = Verdicts {
        weak: Verdict::NoLeak,
        strong: Verdict::NoLeak,
    };
    Judgement {
        verdicts: EachSecret {
            own: silent,
            first: silent,
            second: silent,
            third: silent,
        },
        size: 0,
    }
}

// A monitor that takes no byte: estimator and enforcer are outside their limits.
fn no_monitor() -> Monitor
    ensures { (h : Header) → 15 < h.k → NoMonitor h result }
{
    let further = opacity::no_further();
    let estimator = Estimator {
        count: 255,
        symbols: [0u8; 15],
        entries: [0u64; 16],
        further,
    };
    let enforcer = Enforcer {
        estimator,
        notion: Notion::Weak,
        count: 255,
        pending: [0u8; 16],
        waits: [0u8; 16],
    };
    let opening = nothing_told();
    Monitor {
        opening,
        estimator,
        enforcer,
        offered: u32::MAX,
        accepted: 0,
        released: 0,
    }
}

// What a refused log hands back.
pub(crate) fn refused(refusal: Refusal) -> Opened<Monitor>
    ensures { (result.answer ≡ Err refusal) × NoMonitor result.header result.follower }
{
    no_log(refusal, no_monitor())
}

// A weak enforcer and a fresh verifier, both with no further secret, for events that start at a place.
pub(crate) fn start(table: [u64; 2048], header: Header, events: usize) -> Opened<Monitor>
    requires { WellFormed table header }
    ensures { StartedOn table header events (opened result.answer) result.table result.header result.follower }
{
    let alone = opacity::no_further();
    let begun = Enforcer::start(&table, header, Notion::Weak, alone);
    let answer = begun.answer;
    match answer {
        Err(refusal) => refused(refusal),
        Ok(()) => {
            let reply = Estimator::fresh(&table, header, alone);
            let verified = reply.answer;
            let Ok(opening) = verified else {
                return refused(Refusal::Malformed);
            };
            let estimator = reply.estimator;
            let enforcer = begun.enforcer;
            Opened {
                table,
                header,
                follower: Monitor {
                    opening,
                    estimator,
                    enforcer,
                    offered: 0,
                    accepted: 0,
                    released: 0,
                },
                answer: Ok(events),
            }
        }
    }
}
