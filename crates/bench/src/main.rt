// Drives the responder from outside: records on standard input, a line for each on standard output (docs/CALLS.md).
#![tactic(auto)]

fn main(rt: HostRuntime) {
    walk::walk(&rt);
}
