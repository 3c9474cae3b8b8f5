// The functions of `gateway` for C, under the same names: each export calls the library's function and has its clauses. include/opacity.h describes them.
#![tactic(auto)]

ghost use Rattle.gateway.specs.Interface.{Decode, Fresh, Accept, Start, Offer, Explore, FirstLeakCall, CanonicalCall, Witnessing, CheckingWitness};

#[unsafe(no_mangle)]
pub extern "C" fn opacity_decode(encoding: &[u8], table: &mut [u64], header: &mut [u8]) -> u8
    ensures { Decode encoding.now table.old header.old result table.new header.new }
{
    gateway::opacity_decode(encoding, table, header)
}

#[unsafe(no_mangle)]
pub extern "C" fn opacity_fresh(
    table: &[u64],
    header: &[u8],
    further: &[u8],
    estimator: &mut [u8],
    judgement: &mut [u8],
) -> u8
    ensures { Fresh table.now header.now further.now estimator.old judgement.old
        result estimator.new judgement.new }
{
    gateway::opacity_fresh(table, header, further, estimator, judgement)
}

#[unsafe(no_mangle)]
pub extern "C" fn opacity_accept(
    table: &[u64],
    header: &[u8],
    symbol: u8,
    estimator: &mut [u8],
    judgement: &mut [u8],
) -> u8
    ensures { Accept table.now header.now symbol estimator.old judgement.old
        result estimator.new judgement.new }
{
    gateway::opacity_accept(table, header, symbol, estimator, judgement)
}

#[unsafe(no_mangle)]
pub extern "C" fn opacity_start(
    table: &[u64],
    header: &[u8],
    notion: u8,
    further: &[u8],
    enforcer: &mut [u8],
) -> u8
    ensures { Start table.now header.now notion further.now enforcer.old result enforcer.new }
{
    gateway::opacity_start(table, header, notion, further, enforcer)
}

#[unsafe(no_mangle)]
pub extern "C" fn opacity_offer(
    table: &[u64],
    header: &[u8],
    symbol: u8,
    enforcer: &mut [u8],
    output: &mut [u8],
    release: &mut [u8],
) -> u8
    ensures { Offer table.now header.now symbol enforcer.old output.old release.old
        result enforcer.new output.new release.new }
{
    gateway::opacity_offer(table, header, symbol, enforcer, output, release)
}

#[unsafe(no_mangle)]
pub extern "C" fn opacity_explore(
    table: &[u64],
    header: &[u8],
    further: &[u8],
    budget: u32,
    exploration: &mut [u8],
) -> u8
    ensures { Explore table.now header.now further.now budget exploration.old
        result exploration.new }
{
    gateway::opacity_explore(table, header, further, budget, exploration)
}

#[unsafe(no_mangle)]
pub extern "C" fn opacity_first_leak(
    table: &[u64],
    header: &[u8],
    notion: u8,
    further: &[u8],
    events: &[u8],
    place: &mut [u8],
) -> u8
    ensures { FirstLeakCall table.now header.now notion further.now events.now place.old
        result place.new }
{
    gateway::opacity_first_leak(table, header, notion, further, events, place)
}

#[unsafe(no_mangle)]
pub extern "C" fn opacity_canonical(encoding: &[u8], output: &mut [u8], size: &mut [u8]) -> u8
    ensures { CanonicalCall encoding.now output.old size.old result output.new size.new }
{
    gateway::opacity_canonical(encoding, output, size)
}

#[unsafe(no_mangle)]
pub extern "C" fn opacity_witness(
    table: &[u64],
    header: &[u8],
    notion: u8,
    secret: u8,
    k: u8,
    estimator: &[u8],
    output: &mut [u8],
    run: &mut [u8],
) -> u8
    ensures { Witnessing table.now header.now notion secret k estimator.now output.old run.old
        result output.new run.new }
{
    gateway::opacity_witness(table, header, notion, secret, k, estimator, output, run)
}

#[unsafe(no_mangle)]
pub extern "C" fn opacity_check_witness(
    table: &[u64],
    header: &[u8],
    notion: u8,
    secret: u8,
    k: u8,
    start: u8,
    estimator: &[u8],
    pairs: &[u8],
    valid: &mut [u8],
) -> u8
    ensures { CheckingWitness table.now header.now notion secret k start estimator.now pairs.now
        valid.old result valid.new }
{
    gateway::opacity_check_witness(
        table, header, notion, secret, k, start, estimator, pairs, valid,
    )
}
