// The program on --figures and a set with no naa: nothing on standard output, whatever stands on standard input.
#![tactic(auto)]

// A program of its own, since the gate runs each with one input.
fn main(rt: HostRuntime) {
    session::serve(&rt);
}
