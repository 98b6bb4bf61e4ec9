// The program on --figures and a dairy's nine numbers: a session worked by hand with them, and lines by which each of the nine shows
// where it is one off or in another's place.
#![tactic(auto)]

// A program of its own, since the gate runs each with one input.
fn main(rt: HostRuntime) {
    session::serve(&rt);
}
