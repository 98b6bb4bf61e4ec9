// The program on --version.
#![tactic(auto)]

// A program of its own, since the gate runs each with one input.
fn main(rt: HostRuntime) {
    session::serve(&rt);
}
