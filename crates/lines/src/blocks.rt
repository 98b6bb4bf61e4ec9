// A session by blocks: each step takes it through one newline, or to the block's end.
ghost use Rattle.std.specs.Prelude.{◌≡◌, ◌+◌, ◌≤◌, ◌<◌, length, take};
ghost use Rattle.writing.specs.Buffer.{Put};
ghost use Rattle.lines.specs.Session.{last_line, answer_of, after_line, answers, after_lines, held_line_text};
ghost use Rattle.lines.specs.Blocks.{room_for, ready, room, desk, place_at, line_in, through, step_of, block_of, end_of};

use crate::asking::{answer_line, held_line};
use plant::Plant;
use reading::find_byte;
use writing::put_fitting;

// What is carried from block to block: how many bytes of the block are used, how many are held of the line that is not
// ended, how many answer bytes are not written, and the record. Numbers, and not slices: the buffers are lent anew for each block, and
// memory is fixed.
#[derive(Clone, Copy)]
pub struct Place {
    pub used: usize,
    pub held: usize,
    pub at: usize,
    pub plant: Plant,
}

// Goes through a block, until it is used or there is no room for an answer. No iterator goes over the lines: where a step ends is in the
// place, and the buffers' room ends the loop too.
pub fn answer_block(block: &[u8], line: &mut [u8], out: &mut [u8], p: Place) -> Place
    ensures desk_after { desk result line.new out.new ≡ block_of block.now (desk p line.old out.old) }
    ensures at_in_bounds { p.at ≤ length out.old → result.at ≤ length out.old }
{
    let mut q = p;
    while q.is_ready(block, line, out) {
        q.go_through(block, line, out);
    }
    q
}

// Goes through one newline, or to the block's end. A place or buffers that do not fit stay as they are.
pub fn step(block: &[u8], line: &mut [u8], out: &mut [u8], p: Place) -> Place
    ensures desk_after { desk result line.new out.new ≡ step_of block.now (desk p line.old out.old) }
    ensures at_in_bounds { p.at ≤ length out.old → result.at ≤ length out.old }
{
    let mut q = p;
    if q.is_ready(block, line, out) {
        q.go_through(block, line, out);
    }
    q
}

// Behind the last byte of the input: a line that lacks its newline is answered, and the held line stands behind its answer. A place or
// buffers that do not fit stay as they are.
pub fn end_session(line: &[u8], out: &mut [u8], p: Place) -> Place
    ensures desk_after { desk result line.now out.new ≡ end_of (desk p line.now out.old) }
    ensures at_in_bounds { p.at ≤ length out.old → result.at ≤ length out.old }
{
    let mut q = p;
    if q.has_room(1026, line, out) {
        q.answer_last(line, out);
        q.tell_held(out);
    }
    q
}

// The steps go on in the place itself: it has the whole record, and a copy of it for each line takes time. The two buffers stay beside it:
// callers lend any slices, and hand the place back and forth by value. A struct of the place and `out` with `at + 513 ≤ length out` as its
// fact was tried: the fact has to hold when a method returns too (`invariant_of-self`), and an answer uses the room up.
impl Place {
    // Whether a block has bytes left, and the buffers have room for a line and an answer of 512 bytes with its newline.
    fn is_ready(&self, block: &[u8], line: &[u8], out: &[u8]) -> bool
        ensures { result ≡ ready block.now (desk self.now line.now out.now) }
    {
        self.used < block.len() && self.has_room(513, line, out)
    }

    // Whether the buffers have room for a line and n bytes of answers.
    fn has_room(&self, n: usize, line: &[u8], out: &[u8]) -> bool
        ensures { result ≡ room_for n (desk self.now line.now out.now) }
    {
        self.held <= 1025 && line.len() == 1025 && self.at <= out.len() && n <= out.len() - self.at
    }

    // Through one newline, or to the block's end.
    fn go_through(&mut self, block: &[u8], line: &mut [u8], out: &mut [u8])
        requires { (self.old.used < length block.now) × (self.old.held ≤ 1025) × (length line.old ≡ 1025) × (self.old.at + 513 ≤ length out.old) }
        ensures desk_after { desk self.new line.new out.new ≡ through block.now (desk self.old line.old out.old) (line_in block.now self.old.used) (self.old.used + length (line_in block.now self.old.used)) }
        ensures at_in_bounds { self.new.at ≤ length out.old }
    {
        let e = find_byte(block, self.used, b'\n');
        let held = keep_bytes(line, self.held, &block[self.used..e]);
        if e < block.len() {
            self.answer(&line[..held], out);
            self.used = e + 1;
            return;
        }
        self.held = held;
        self.used = e;
    }

    // The answer to a line and its newline join the answers that are not written, and of the next line nothing is held.
    fn answer(&mut self, line: &[u8], out: &mut [u8])
        requires { self.old.at + 513 ≤ length out.old }
        ensures answer_gathered { (self.new.plant ≡ after_line self.old.plant line.now) × (Put out.old self.old.at (answer_of self.old.plant line.now) self.new.at out.new) }
        ensures at_bound { self.new.at ≤ self.old.at + 513 }
        ensures line_ended { self.new ≡ place_at self.old.used 0 self.new.at self.new.plant }
    {
        let a = answer_line(self.plant, line, &mut out[self.at..]);
        self.plant = a.outcome.plant;
        self.at = put_fitting(out, self.at + a.length, b"\n");
        self.held = 0;
    }

    // The same of a line that lacks its newline, where there is one.
    fn answer_last(&mut self, line: &[u8], out: &mut [u8])
        requires { (self.old.held ≤ length line.now) × (self.old.at + 513 ≤ length out.old) }
        ensures answer_gathered { (self.new.plant ≡ after_lines self.old.plant (last_line (take self.old.held line.now))) × (Put out.old self.old.at (answers self.old.plant (last_line (take self.old.held line.now))) self.new.at out.new) }
        ensures at_bound { self.new.at ≤ self.old.at + 513 }
        ensures line_ended { self.new ≡ place_at self.old.used 0 self.new.at self.new.plant }
    {
        if self.held == 0 {
            return;
        }
        self.answer(&line[..self.held], out);
    }

    // The held line and its newline join them. It is no twin of `answer`, since it keeps the record: what they share is one `put_fitting`.
    fn tell_held(&mut self, out: &mut [u8])
        requires { self.old.at + 513 ≤ length out.old }
        ensures held_line_put { Put out.old self.old.at (held_line_text self.old.plant) self.new.at out.new }
        ensures at_bound { self.new.at ≤ self.old.at + 513 }
        ensures same_record { self.new ≡ place_at self.old.used self.old.held self.new.at self.old.plant }
    {
        let h = held_line(self.plant, &mut out[self.at..]);
        self.at = put_fitting(out, self.at + h.length, b"\n");
    }
}

// As much of s as there is room for joins the held bytes.
fn keep_bytes(line: &mut [u8], held: usize, s: &[u8]) -> usize
    requires { (length line.old ≡ 1025) × (held ≤ 1025) }
    ensures { Put line.old held (room held s.now) result line.new }
{
    let n = (1025 - held).min(s.len());
    put_fitting(line, held, &s[..n])
}
