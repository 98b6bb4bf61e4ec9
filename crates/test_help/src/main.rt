// The program on --help: what it is, the forms and the refusals.
#![tactic(auto)]

// A program of its own, since the gate runs each with one input.
fn main(rt: HostRuntime) {
    session::serve(&rt);
}
