// The program on an input whose last line lacks its newline: a receive, which the held line shows.
#![tactic(auto)]

// A program of its own, since the gate runs each with one input.
fn main(rt: HostRuntime) {
    session::serve(&rt);
}
