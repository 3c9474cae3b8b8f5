// The functions: a call as a line has it, and its answer. One is added by a variant, its word in `Call::read`, and its call in `Call::answer`.
use super::parse::Text;
use super::store::Memory;

// What a call for a witness asks for.
#[derive(Clone, Copy)]
pub struct Asked {
    pub notion: u8,
    pub secret: u8,
    pub k: u8,
}

// Each function with the numbers that it takes.
#[derive(Clone, Copy)]
pub enum Call {
    Decode,
    Fresh,
    Accept(u8),
    Start(u8),
    Offer(u8),
    Explore(u32),
    FirstLeak(u8),
    Canonical,
    Witness(Asked),
    CheckWitness(Asked, u8),
}

fn read_asked(text: &mut Text<'_>) -> Option<Asked> {
    Some(Asked {
        notion: text.number()?,
        secret: text.number()?,
        k: text.number()?,
    })
}

impl Call {
    // The call that the whole text is: its word, of which `Text::word` gives the last eight letters, and as many numbers as the function takes, each
    // within its type.
    pub fn read(line: Text<'_>) -> Option<Call> {
        let mut text = line;
        let call = match text.word() {
            b"decode" => Call::Decode,
            b"fresh" => Call::Fresh,
            b"accept" => Call::Accept(text.number()?),
            b"start" => Call::Start(text.number()?),
            b"offer" => Call::Offer(text.number()?),
            b"explore" => Call::Explore(text.number()?),
            b"rst_leak" => Call::FirstLeak(text.number()?),
            b"anonical" => Call::Canonical,
            b"witness" => Call::Witness(read_asked(&mut text)?),
            b"_witness" => Call::CheckWitness(read_asked(&mut text)?, text.number()?),
            _ => return None,
        };
        text.rest.is_empty().then_some(call)
    }

    // A call: its answer, after which the memory is as the function left it.
    pub fn answer(self, memory: &mut Memory) -> u8 {
        match self {
            Call::Decode => decode(memory),
            Call::Fresh => fresh(memory),
            Call::Accept(symbol) => accept(symbol, memory),
            Call::Start(notion) => start(notion, memory),
            Call::Offer(symbol) => offer(symbol, memory),
            Call::Explore(budget) => explore(budget, memory),
            Call::FirstLeak(notion) => first_leak(notion, memory),
            Call::Canonical => canonical(memory),
            Call::Witness(asked) => witness(asked, memory),
            Call::CheckWitness(asked, start) => check_witness(asked, start, memory),
        }
    }
}

fn decode(memory: &mut Memory) -> u8 {
    gateway::opacity_decode(
        memory.encoding.lent(),
        memory.table.lent_mut(),
        memory.header.lent_mut(),
    )
}

fn fresh(memory: &mut Memory) -> u8 {
    gateway::opacity_fresh(
        memory.table.lent(),
        memory.header.lent(),
        memory.further.lent(),
        memory.estimator.lent_mut(),
        memory.judgement.lent_mut(),
    )
}

fn accept(symbol: u8, memory: &mut Memory) -> u8 {
    gateway::opacity_accept(
        memory.table.lent(),
        memory.header.lent(),
        symbol,
        memory.estimator.lent_mut(),
        memory.judgement.lent_mut(),
    )
}

fn start(notion: u8, memory: &mut Memory) -> u8 {
    gateway::opacity_start(
        memory.table.lent(),
        memory.header.lent(),
        notion,
        memory.further.lent(),
        memory.enforcer.lent_mut(),
    )
}

fn offer(symbol: u8, memory: &mut Memory) -> u8 {
    gateway::opacity_offer(
        memory.table.lent(),
        memory.header.lent(),
        symbol,
        memory.enforcer.lent_mut(),
        memory.output.lent_mut(),
        memory.release.lent_mut(),
    )
}

fn explore(budget: u32, memory: &mut Memory) -> u8 {
    gateway::opacity_explore(
        memory.table.lent(),
        memory.header.lent(),
        memory.further.lent(),
        budget,
        memory.exploration.lent_mut(),
    )
}

fn first_leak(notion: u8, memory: &mut Memory) -> u8 {
    gateway::opacity_first_leak(
        memory.table.lent(),
        memory.header.lent(),
        notion,
        memory.further.lent(),
        memory.events.lent(),
        memory.place.lent_mut(),
    )
}

fn canonical(memory: &mut Memory) -> u8 {
    gateway::opacity_canonical(
        memory.encoding.lent(),
        memory.output.lent_mut(),
        memory.size.lent_mut(),
    )
}

fn witness(asked: Asked, memory: &mut Memory) -> u8 {
    gateway::opacity_witness(
        memory.table.lent(),
        memory.header.lent(),
        asked.notion,
        asked.secret,
        asked.k,
        memory.estimator.lent(),
        memory.output.lent_mut(),
        memory.run.lent_mut(),
    )
}

fn check_witness(asked: Asked, start: u8, memory: &mut Memory) -> u8 {
    gateway::opacity_check_witness(
        memory.table.lent(),
        memory.header.lent(),
        asked.notion,
        asked.secret,
        asked.k,
        start,
        memory.estimator.lent(),
        memory.pairs.lent(),
        memory.valid.lent_mut(),
    )
}
