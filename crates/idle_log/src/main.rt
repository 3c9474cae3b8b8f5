// The log program once more, on the log of an idle chamber: a program has one stored run.
#![tactic(auto)]

fn main(rt: HostRuntime) {
    log_output::log_program(&rt);
}
