// The program: an answer for each line of standard input, then the held line.
#![tactic(auto)]

// The tests of it are programs of their own with this main, since the gate runs each with one input.
fn main(rt: HostRuntime) {
    session::serve(&rt);
}
