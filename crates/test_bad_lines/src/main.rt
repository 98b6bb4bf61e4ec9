// The program's session on every kind of line that is no form, beside its neighbours that are; one line has 70,000 bytes.
#![tactic(auto)]

// A program of its own, since the gate runs each with one input.
fn main(rt: HostRuntime) {
    session::serve(&rt);
}
