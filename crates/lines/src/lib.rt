// The lines that the program `turns` reads and writes: what a line of input asks for, and the text of an answer. 01, "The program `turns`".
#![tactic(auto)]

ghost use Rattle.std.specs.Prelude.{◌≡◌, ◌+◌, ◌-◌, ◌*◌, ◌≤◌, ◌<◌, SomeIff, option_map, length};
ghost use Rattle.lines.specs.Command.{longer, number, last, command_of};
ghost use Rattle.lines.specs.Inside.{HasRoom, Puts, number_and_rest};
ghost use Rattle.lines.specs.Text.{decimal, line_text, refusal_text, reply_text, lock_text, entries_text, log_text, WritesTo};

use stage::Reply;

// A command of a line.
#[derive(Clone, Copy, Debug, PartialEq, Eq)]
pub enum Command {
    SetUp(u32),
    BeginAcquisition(u32, u32),
    BeginRelease(u32),
    Step(u32),
}

// A number with one digit more, if the line begins with one, and the rest of the line.
fn longer(n: u32, line: &[u8]) -> (u32, &[u8])
    requires { n < 100 }
    ensures value { number_and_rest result ≡ longer n line.now }
    ensures bound { result.0 < 10 * n + 10 }
{
    match line {
        [x @ b'0'..=b'9', rest @ ..] => (10 * n + u32::from(*x - b'0'), rest),
        _ => (n, line),
    }
}

// The number at the front of a line, and the rest of the line. It is `0`, or has one to three digits of which the first is not `0`.
fn number(line: &[u8]) -> Option<(u32, &[u8])>
    ensures { option_map number_and_rest result ≡ number line.now }
{
    match line {
        [b'0', rest @ ..] => Some((0, rest)),
        [x @ b'1'..=b'9', rest @ ..] => {
            let (n, rest) = longer(u32::from(*x - b'0'), rest);
            Some(longer(n, rest))
        }
        _ => None,
    }
}

// The number with which a line ends.
fn last(line: &[u8]) -> Option<u32>
    ensures { result ≡ last line.now }
{
    let (n, rest) = number(line)?;
    rest.is_empty().then_some(n)
}

// What a line asks for.
#[tactic(auto, unfolding(crate::specs::Command::command_of))]
pub fn parse(line: &[u8]) -> Option<Command>
    ensures { result ≡ command_of line.now }
{
    if 16 < line.len() {
        return None;
    }
    match line {
        [b'n', b' ', rest @ ..] => Some(Command::SetUp(last(rest)?)),
        [b'a', b' ', rest @ ..] => {
            let (p, rest) = number(rest)?;
            let [b' ', rest @ ..] = rest else {
                return None;
            };
            Some(Command::BeginAcquisition(p, last(rest)?))
        }
        [b's', b' ', rest @ ..] => Some(Command::Step(last(rest)?)),
        [b'r', b' ', rest @ ..] => Some(Command::BeginRelease(last(rest)?)),
        _ => None,
    }
}

// How many digits a number has.
#[tactic(auto, unfolding(crate::specs::Text::decimal))]
fn digits(x: u8) -> usize
    ensures { (result ≡ length (decimal x)) × (result ≤ 3) }
{
    match x {
        0..=9 => 1,
        10..=99 => 2,
        _ => 3,
    }
}

// What the entries of a log leave of so many bytes, if they have room there.
#[tactic(auto, using(crate::proofs::Entries::entries_within))]
fn left_by(entries: &[u8], bytes: usize) -> Option<usize>
    ensures { SomeIff result (length (entries_text entries.now) ≤ bytes) (bytes - length (entries_text entries.now)) }
{
    let mut left = bytes;
    for &x in entries {
        left = left.checked_sub(1 + digits(x))?;
    }
    Some(left)
}

// The bytes of a log's line beside its entries: `log` and the newline.
const FRAME: usize = 4;

// A text in a buffer, with the place after it, where the next is put. The buffer is lent and its length fixed: no heap. Each method that writes says
// that the reference is still to the same buffer, so that the lender knows its bytes at the end.
#[derive(Drop)]
pub struct Text<'a> {
    pub buffer: &'a mut [u8],
    pub at: usize,
}

impl Text<'_> {
    // How many bytes have room.
    fn room(&self) -> usize
        ensures { result ≡ length self.now.buffer.now - self.now.at }
    {
        self.buffer.len().saturating_sub(self.at)
    }

    // Puts bytes.
    fn put(&mut self, bytes: &[u8])
        requires { HasRoom self.old (length bytes.now) }
        ensures { Puts bytes.now self.old self.new }
    {
        let next = self.at + bytes.len();
        self.buffer[self.at..next].copy_from_slice(bytes);
        self.at = next;
    }

    // Puts a number.
    #[tactic(auto, unfolding(crate::specs::Text::decimal))]
    fn put_decimal(&mut self, x: u8)
        requires { HasRoom self.old (length (decimal x)) }
        ensures { Puts (decimal x) self.old self.new }
    {
        match x {
            0..=9 => self.put(&[b'0' + x]),
            10..=99 => self.put(&[b'0' + x / 10, b'0' + x % 10]),
            _ => self.put(&[b'0' + x / 100, b'0' + x / 10 % 10, b'0' + x % 10]),
        }
    }

    // Puts the entries of a log, each with a space in front.
    #[tactic(auto, using(crate::proofs::Entries::entries_within))]
    fn put_entries(&mut self, entries: &[u8])
        requires { HasRoom self.old (length (entries_text entries.now)) }
        ensures { Puts (entries_text entries.now) self.old self.new }
    {
        for &x in entries {
            self.put(b" ");
            self.put_decimal(x);
        }
    }

    // Writes a line of a word and a number.
    fn put_line(&mut self, word: &[u8], x: u8)
        ensures { WritesTo (line_text word.now (decimal x)) self.old self.new }
    {
        if self.room() < word.len() + digits(x) + 1 {
            return;
        }
        self.put(word);
        self.put_decimal(x);
        self.put(b"\n");
    }

    // Writes the line of a refusal, by its number.
    #[tactic(auto, unfolding(crate::specs::Text::refusal_text))]
    pub fn put_refusal(&mut self, number: u8)
        ensures { WritesTo (refusal_text number) self.old self.new }
    {
        self.put_line(b"x ", number);
    }

    // Writes what a call says.
    #[tactic(auto, unfolding(crate::specs::Text::reply_text, crate::specs::Text::refusal_text))]
    pub fn put_reply(&mut self, reply: Reply)
        ensures { WritesTo (reply_text reply) self.old self.new }
    {
        match reply {
            Ok(answer) => self.put_line(b"", answer.number),
            Err(refusal) => self.put_refusal(refusal.number()),
        }
    }

    // Writes the line of the lock word.
    #[tactic(auto, unfolding(crate::specs::Text::lock_text))]
    pub fn put_lock(&mut self, lock: u8)
        ensures { WritesTo (lock_text lock) self.old self.new }
    {
        self.put_line(b"lock ", lock);
    }

    // Writes the line of the log's entries, if they leave room for `log` and the newline.
    pub fn put_log(&mut self, entries: &[u8])
        ensures { WritesTo (log_text entries.now) self.old self.new }
    {
        let Some(FRAME..) = left_by(entries, self.room()) else {
            return;
        };
        self.put(b"log");
        self.put_entries(entries);
        self.put(b"\n");
    }
}
