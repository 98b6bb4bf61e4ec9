// The conversation: standard input in blocks, and the answers on standard output. `talk_over` promises, for a reader and a writer
// whose bytes the logic knows, that where nothing fails what it writes is `printed` of crates/lines/specs; what no contract reaches is in
// docs/DECISIONS.md, "What is proved of the program".
ghost use Rattle.std.specs.Prelude.{◌≡◌, ◌≤◌, ◌<◌, take, length, IfSome, OnOk};
ghost use Rattle.std.specs.Io.KnownBytes.{Appends};
ghost use Rattle.lines.specs.Session.{core, run, said, printed};
ghost use Rattle.lines.specs.Blocks.{place_at, carried};

use crate::channel::{Failure, read_some, write_all};
use lines::Place;
use plant::Plant;
use std::io::{Error, ErrorKind, Read, Write, writer};
use std::rt::Clock;

// Reads standard input to its end, in fixed memory, and prints an answer for each line on the record, then the held line.
pub fn talk<R: Input + Print + Clock>(rt: &R, plant: Plant) -> Result<(), Failure> {
    let mut input = io::large_buffer();
    let mut conversation = Conversation {
        to: writer(rt),
        line: [0; 1025],
        out: io::large_buffer(),
        place: Place {
            used: 0,
            held: 0,
            at: 0,
            plant,
        },
    };
    conversation.talk_over(rt, &mut rt.reader(), &mut input)
}

// What goes through a conversation: where its answers go, the line that is not ended, the answers that are not written, and the place. The
// buffers' lengths stand in their types; the place has no invariant, since lines takes any place. The clock goes beside, as in channel.
#[derive(Drop)]
struct Conversation<O> {
    to: O,
    line: [u8; 1025],
    out: [u8; 65536],
    place: Place,
}

impl<O: Write> Conversation<O> {
    // Block after block on the record, and behind the input's end the end of the session. A failure ends it at once. The loop counts
    // nothing: every loop must end.
    fn talk_over<I: Read>(
        &mut self,
        clock: &impl Clock,
        from: &mut I,
        input: &mut [u8],
    ) -> Result<(), Failure>
        requires { self.old.place ≡ place_at 0 0 0 self.old.place.plant }
        ensures all_printed { OnOk result (0 < length input.old → IfSome (I.remaining from.old) (λ xs. Appends (O.contents self.old.to) (O.contents self.new.to) (printed self.old.place.plant xs))) }
    {
        for _ in 0..u64::MAX {
            let n = read_some(clock, from, input)?;
            if n == 0 {
                return self.end(clock);
            }
            self.place = next_block(self.place);
            self.answer_all(clock, &input[..n])?;
        }
        Err(Failure::Input(Error::from(ErrorKind::TimedOut)))
    }

    // The end of the session: the answer to a line that lacks its newline, and the held line are written.
    fn end(&mut self, clock: &impl Clock) -> Result<(), Failure>
        requires { self.old.place.at ≡ 0 }
        ensures { OnOk result (self.old.place.held ≤ 1025 → Appends (O.contents self.old.to) (O.contents self.new.to) (said (carried self.old.place self.old.line))) }
    {
        self.place = lines::end_session(&self.line, &mut self.out, self.place);
        self.write_answers(clock)
    }

    // Each line that the block ends is answered, and the answers are written: none is left that is not. No iterator goes over the block:
    // how far a turn goes is what lines says, by the room for answers.
    fn answer_all(&mut self, clock: &impl Clock, block: &[u8]) -> Result<(), Failure>
        requires { (self.old.place.used ≡ 0) × (self.old.place.held ≤ 1025) × (self.old.place.at ≡ 0) }
        ensures place_ready { OnOk result ((self.new.place.held ≤ 1025) × (self.new.place.at ≡ 0)) }
        ensures carries_run { OnOk result (carried self.new.place self.new.line ≡ core (run (carried self.old.place self.old.line) block.now)) }
        ensures written { OnOk result (Appends (O.contents self.old.to) (O.contents self.new.to) (run (carried self.old.place self.old.line) block.now).printed) }
    {
        while self.place.used < block.len() {
            self.place = lines::answer_block(block, &mut self.line, &mut self.out, self.place);
            self.write_answers(clock)?;
        }
        Ok(())
    }

    // The answers that are not written are written.
    fn write_answers(&mut self, clock: &impl Clock) -> Result<(), Failure>
        requires { self.old.place.at ≤ 65536 }
        ensures written { OnOk result (Appends (O.contents self.old.to) (O.contents self.new.to) (take self.old.place.at self.old.out)) }
        ensures place { OnOk result (self.new.place ≡ place_at self.old.place.used self.old.place.held 0 self.old.place.plant) }
        ensures line_kept { self.new.line ≡ self.old.line }
    {
        write_all(clock, &mut self.to, &self.out[..self.place.at])?;
        self.place.at = 0;
        Ok(())
    }
}

// At the start of a block.
fn next_block(p: Place) -> Place
    ensures { result ≡ place_at 0 p.held p.at p.plant }
{
    Place { used: 0, ..p }
}
