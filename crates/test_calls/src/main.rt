// Tests of the plant record: small examples of each call and refusal, each with its preview, and lists of calls and previews, one of them
// with several sets of figures, whose four balances are added up here, from the calls and their answers, and compared with what is in the
// tanks.
#![tactic(auto)]

mod list;
mod reactor;
mod round;
mod small;
mod write;

fn main() {
    small::examples();
    list::balances();
    round::rounds();
    reactor::examples();
    reactor::rounds();
}
