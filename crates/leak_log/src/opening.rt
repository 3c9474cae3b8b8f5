// How a log begins: the automaton of its encoding, and a search of no event yet; or what a refused log hands back.
ghost use Rattle.automaton.specs.Run.{WellFormed};
ghost use Rattle.verifier.specs.Replies.{Unusable};
ghost use Rattle.monitor.specs.Opening.{open_outcome as opened};
ghost use Rattle.leak_log.specs.Opens.{StartedOn, Opening};

use automaton::Header;
use leaks::Search;
use monitor::Opened;
use opacity::Notion;
use verifier::Estimator;

// A search whose estimator is outside its limits.
fn no_search(notion: Notion) -> Search
    ensures { Unusable result.estimator }
{
    let estimator = Estimator {
        count: 255,
        symbols: [0u8; 15],
        entries: [0u64; 16],
        further: opacity::no_further(),
    };
    Search {
        estimator,
        notion,
        accepted: 0,
        found: false,
    }
}

// A search with no further secret, for events that start at a place. (It is refused on no automaton.)
fn start(table: [u64; 2048], header: Header, events: usize, notion: Notion) -> Opened<Search>
    requires { WellFormed table header }
    ensures { StartedOn notion table header events (opened result.answer) result.table result.header result.follower }
{
    let alone = opacity::no_further();
    let begun = Search::begin(&table, header, alone, notion);
    let search = begun.search;
    Opened {
        table,
        header,
        follower: search,
        answer: Ok(events),
    }
}

// Opens a log by its first bytes: all of its length and its encoding, unless the log ends before that. (No enforcer starts, so there is no 8.)
pub fn open(log: &[u8], notion: Notion) -> Opened<Search>
    ensures { Opening notion log.now (opened result.answer) result.table result.header result.follower }
{
    match monitor::description(log) {
        Err(refusal) => monitor::no_log(refusal, no_search(notion)),
        Ok(described) => start(described.table, described.header, described.size, notion),
    }
}
