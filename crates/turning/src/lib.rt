// The program `turns`: lines of input, each answered by the one call that it asks for. 01, "The program `turns`".
//
// What it writes for its input is `Program.output`. `answer` takes a block of the input and `finish` its end;
// around them `run` only reads and writes, of which its contract says nothing.
#![tactic(auto)]

ghost use Rattle.std.specs.Prelude.{◌≡◌, ◌+◌, ◌*◌, ◌≤◌, ℕ, List, [], length, take};
ghost use Rattle.lines.specs.Inside.{Put, HasRoom, Puts};
ghost use Rattle.lines.specs.Text.{log_text, SameBuffer};
ghost use Rattle.turning.specs.Inside.{fed, fed_all, finished, grown, standing, taken_of};
ghost use Rattle.turning.specs.Program.{held_log, end_text};
ghost use Rattle.turning.specs.Turn.{Turns};

use lines::{Command, Text};
use stage::{Refusal, Reply};
use std::io::{Read, Write};
use std::marker::Model;

// The bytes that are kept of the line that has begun, in fixed memory.
#[derive(Drop)]
struct Kept {
    bytes: [u8; 17],
    count: usize,
}

impl Model for Kept {
    ghost Value = { List ℕ };

    ghost view = { λ k. take k.count k.bytes };

    ghost invariant = { λ k. k.count ≤ 17 };
}

impl Kept {
    // Of a line that has not begun nothing is kept.
    fn new() -> Self
        ensures { result ≡ [] }
    {
        Kept {
            bytes: [0; 17],
            count: 0,
        }
    }

    // These bytes are all that is known of the line.
    fn line(&self) -> &[u8]
        ensures { result.now ≡ self.now }
    {
        &self.bytes[..self.count]
    }

    // Keeps one more, while there are fewer than 17: a line of so many is malformed, whatever follows.
    #[tactic(auto, unfolding(crate::specs::Inside::grown))]
    fn push(&mut self, x: u8)
        ensures { self.new ≡ grown self.old x }
    {
        if self.count < 17 {
            self.bytes[self.count] = x;
            self.count += 1;
        }
    }

    // The line has ended, and of the next one nothing is kept yet.
    fn clear(&mut self)
        ensures { self.new ≡ [] }
    {
        self.count = 0;
    }
}

// What one line does on an image.
#[tactic(auto, unfolding(crate::specs::Turn::call_of, crate::specs::Turn::answer_to, crate::specs::Turn::image_after))]
pub fn turn(image: &mut [u8], line: &[u8]) -> Reply
    ensures { Turns line.now image.old result image.new }
{
    match lines::parse(line).ok_or(Refusal::Malformed)? {
        Command::SetUp(n) => whole::set_up(image, n),
        Command::BeginAcquisition(p, priority) => image::begin_acquisition(image, p, priority),
        Command::BeginRelease(p) => image::begin_release(image, p),
        Command::Step(p) => image::step(image, p),
    }
}

// Takes a byte of input, and puts the answer of a line that it ends.
#[tactic(auto, using(crate::proofs::Feeding::replies), unfolding(crate::specs::Inside::fed, crate::specs::Inside::ended, crate::specs::Inside::standing))]
fn feed(image: &mut [u8], kept: &mut Kept, x: u8, text: &mut Text)
    requires { HasRoom text.old 6 }
    ensures session { standing image.new kept.new text.new.buffer.now text.new.at ≡ fed (standing image.old kept.old text.old.buffer.now text.old.at) x }
    ensures at_bound { text.new.at ≤ text.old.at + 6 }
    ensures same_length { length text.new.buffer.now ≡ length text.old.buffer.now }
    ensures same_buffer { SameBuffer text.old text.new }
{
    if x == b'\n' {
        text.put_reply(turn(image, kept.line()));
        kept.clear();
    } else {
        kept.push(x);
    }
}

// Takes a block of input. The text of its answers is put at the front of the buffer, and the result is the place after it.
#[tactic(auto, using(crate::proofs::Feeding::fed_more), unfolding(crate::specs::Inside::fed_all))]
fn answer(image: &mut [u8], kept: &mut Kept, block: &[u8], out: &mut [u8]) -> usize
    requires { 6 * length block.now ≤ length out.old }
    ensures session { standing image.new kept.new out.new result ≡ fed_all (standing image.old kept.old out.old 0) block.now }
    ensures at_bound { result ≤ length out.new }
{
    let mut text = Text { buffer: out, at: 0 };
    for &x in block {
        feed(image, kept, x, &mut text);
    }
    text.at
}

// How many entries of a log were taken.
fn taken_of(reply: Reply) -> usize
    ensures { result ≡ taken_of reply }
{
    match reply {
        Ok(answer) => usize::from(answer.event.log_length().unwrap_or(0)),
        Err(_) => 0,
    }
}

// Takes the log and puts its line.
#[tactic(auto, using(crate::proofs::Ending::helds))]
fn put_held(image: &mut [u8], text: &mut Text)
    requires { HasRoom text.old 1028 }
    ensures { Puts (log_text (held_log image.old)) text.old text.new }
{
    let mut log = [0u8; 256];
    let held = taken_of(whole::take_log(image, &mut log));
    text.put_log(&log[..held]);
}

// Puts the lines of the end of input.
fn put_end(image: &mut [u8], text: &mut Text)
    requires { HasRoom text.old 1037 }
    ensures { Puts (end_text image.old) text.old text.new }
{
    text.put_lock(image::lock_word(image));
    put_held(image, text);
}

// Takes the end of input.
fn finish(image: &mut [u8], kept: &Kept, out: &mut [u8]) -> usize
    requires { 1043 ≤ length out.old }
    ensures { Put (finished (standing image.old kept.now out.old 0)) out.old 0 result out.new }
{
    let mut text = Text { buffer: out, at: 0 };
    let line = kept.line();
    let is_empty = line.is_empty(); // a name that goals keep in a wrong program
    if !is_empty {
        text.put_reply(turn(image, line));
    }
    put_end(image, &mut text);
    text.at
}

// How many bytes of input were put at the front of the block: none at the end of the input, and none where reading fails.
fn read_some<R: Read>(input: &mut R, block: &mut [u8]) -> usize
    ensures { result ≤ length block.new }
{
    input.read(block).unwrap_or(0)
}

// Reads a block of input and writes its answers, whatever the block's length; whether there was any.
fn answer_some<R: Read, W: Write>(
    input: &mut R,
    output: &mut W,
    image: &mut [u8],
    kept: &mut Kept,
    block: &mut [u8],
    out: &mut [u8],
) -> bool
    requires { 6 * length block.old ≤ length out.old }
{
    let n = read_some(input, block);
    if n == 0 {
        return false;
    }
    let end = answer(image, kept, &block[..n], out);
    let _ = output.write_all(&out[..end]);
    true
}

// Takes all of the input, a block at a time. A proved loop has to end, and nothing says that the input does: so this one counts its turns, up to a
// number that no run uses up.
fn answer_all<R: Read, W: Write>(
    input: &mut R,
    output: &mut W,
    image: &mut [u8],
    kept: &mut Kept,
    out: &mut [u8],
)
    requires { 393216 ≤ length out.old }
{
    let mut block = [0u8; 65536];
    for _ in 0..u64::MAX {
        if !answer_some(input, output, image, kept, &mut block, out) {
            break;
        }
    }
}

// The program, on the input that it reads and the output that it writes. The text of a block has at most six bytes for each of its own, were they
// all newlines.
//
// Where reading fails the input is at its end, and where writing fails there is nobody to tell.
pub fn run<R: Read, W: Write>(input: &mut R, output: &mut W) {
    let mut image = [0u8; 1292];
    let mut kept = Kept::new();
    let mut out = [0u8; 393216];
    answer_all(input, output, &mut image, &mut kept, &mut out);
    let end = finish(&mut image, &kept, &mut out);
    let _ = output.write_all(&out[..end]);
}
