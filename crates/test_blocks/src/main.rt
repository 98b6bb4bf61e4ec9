// The program on an input of more than four blocks of 65,536 bytes: each block's end falls into or beside a receive (inside a number, just
// before a newline, just behind one, inside a name), and the last line lacks its newline. The receives' amounts differ, so that later
// answers and the held line show which were read, and in the second block releases in a row answer more than twice what the buffer holds.
#![tactic(auto)]

// A program of its own, since the gate runs each with one input.
fn main(rt: HostRuntime) {
    session::serve(&rt);
}
