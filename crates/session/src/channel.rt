// Standard input and output. A read or a write that is interrupted or would block is tried again after a short sleep; any other failure
// goes up to `serve`, which tells it on standard error. Both loops end, as every loop must, and are two: a read ends with the first bytes,
// and a write goes on with what is left. The clock goes beside the stream, as rt does in the toolchain's own calls: a struct of both would
// be a reader and a writer of its own, with these two loops in it.
ghost use Rattle.std.specs.Prelude.{OnOk};
ghost use Rattle.std.specs.Io.KnownBytes.{Appends, ReadConsumes};
ghost use Rattle.std.specs.Io.{ReadsAtMost};

use std::io::{Error, ErrorKind, Read, Write};
use std::rt::Clock;

// What failed, and what the system says of it.
#[derive(Clone, Copy)]
pub enum Failure {
    Input(Error),
    Output(Error),
}

// One read into the start of the buffer, and how many bytes it gave: none at the input's end.
pub fn read_some<I: Read>(
    clock: &impl Clock,
    from: &mut I,
    input: &mut [u8],
) -> Result<usize, Failure>
    ensures bound { ReadsAtMost result input.new }
    ensures bytes { ReadConsumes (I.remaining from.old) (I.remaining from.new) result input.new }
{
    for _ in 0..u64::MAX {
        match from.read(input) {
            Ok(n) => return Ok(n),
            Err(e) if is_passing(clock, &e) => {}
            Err(e) => return Err(Failure::Input(e)),
        }
    }
    Err(Failure::Input(Error::from(ErrorKind::TimedOut)))
}

// Whether the call that failed was interrupted or would block: after a short sleep it is tried again.
fn is_passing(clock: &impl Clock, e: &Error) -> bool {
    match e.kind() {
        ErrorKind::Interrupted | ErrorKind::WouldBlock => {
            pause::short_sleep(clock);
            true
        }
        _ => false,
    }
}

// Writes all of the bytes. The loop counts nothing: every loop must be proved to end.
pub fn write_all<O: Write>(clock: &impl Clock, to: &mut O, s: &[u8]) -> Result<(), Failure>
    ensures { OnOk result (Appends (O.contents to.old) (O.contents to.new) s.now) }
{
    let mut rest = s;
    for _ in 0..u64::MAX {
        if rest.is_empty() {
            return Ok(());
        }
        match to.write(rest) {
            Ok(0) => return Err(Failure::Output(Error::from(ErrorKind::WriteZero))),
            Ok(n) => rest = &rest[n..],
            Err(e) if is_passing(clock, &e) => {}
            Err(e) => return Err(Failure::Output(e)),
        }
    }
    Err(Failure::Output(Error::from(ErrorKind::TimedOut)))
}

// Tells a failure on standard error, as C's perror writes it.
pub fn tell<R: Eprint + Alloc>(rt: &R, f: Failure) {
    match f {
        Failure::Input(e) => tell_of(rt, "standard input", &e),
        Failure::Output(e) => tell_of(rt, "standard output", &e),
    }
}

// What failed, and the system's words alone; with no memory to take the error's number away, as std writes it. No Display: it would have
// to cut the number off std's text in a buffer of its own, which is no plainer.
fn tell_of<R: Eprint + Alloc>(rt: &R, what: &str, e: &Error) {
    let _ = match format!(in rt.alloc(); "{e}") {
        Ok(text) => eprintln!(rt; "sludgeline: {what}: {}", without_number(text.as_str())),
        Err(_) => eprintln!(rt; "sludgeline: {what}: {e}"),
    };
}

// The system's words alone: std puts the error's number behind them.
fn without_number(text: &str) -> &str {
    text.split_once(" (os error ")
        .map_or(text, |(words, _)| words)
}
