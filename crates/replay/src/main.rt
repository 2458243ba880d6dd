// Replays a fixed list of calls: `stdin` has records of the Rust crate's runs and `stdout` the lines that its answers make (oracle/sample).
#![tactic(auto)]

fn main(rt: HostRuntime) {
    walk::walk(&rt);
}
