// Reads a log from standard input and writes the place of its first leak by the weak notion, or `-` (02, S-8). The input is streamed; once
// the leak is found, no further read is made.
#![tactic(auto)]

fn main(rt: HostRuntime) {
    leak_log::first_leak_program(&rt, opacity::Notion::Weak);
}
