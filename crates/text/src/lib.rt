// Lines and numbers as text. Nothing here reads or writes.
#![tactic(auto)]

mod spelling;

ghost use Rattle.std.specs.Prelude.{◌≡◌, ◌%◌, min, IsOk};
ghost use Rattle.refusals.specs.Why.{why_of};
ghost use Rattle.text.specs.Shown.{shown, line_of, appended, empty_line, with_word, decimal, hexadecimal, with_number, with_refusal, four_bytes};

use refusals::Refusal;
pub use spelling::number_of;
use std::fmt;

// The most bytes that a line holds.
pub const WIDTH: usize = 128;

// A line that is made word by word. Its text is the first len bytes, or all where len is more.
#[derive(Clone, Copy)]
pub struct Line {
    bytes: [u8; WIDTH],
    len: usize,
}

impl Line {
    // A line with no text.
    #[tactic(auto, unfolding(crate::specs::Shown::empty_line))]
    pub fn empty() -> Line
        ensures { result ≡ empty_line }
    {
        Line {
            bytes: [0u8; WIDTH],
            len: 0,
        }
    }

    // The line with a word after its text, cut where the line is full.
    pub fn word(self, word: &[u8]) -> Line
        ensures { result ≡ with_word self word.now }
    {
        let Line { mut bytes, len } = self;
        let len = put(&mut bytes, len, word);
        Line { bytes, len }
    }

    // The line with a number after its text, in decimal, cut where the line is full.
    #[tactic(auto, using(crate::proofs::DigitCount::in_decimal))]
    pub fn number(self, n: u64) -> Line
        ensures { result ≡ with_word self (decimal n) }
    {
        let mut digits = [0u8; 20];
        let places = io::decimal(n, &mut digits);
        self.word(&digits[..places])
    }

    // The line with a number after its text, in 16 hexadecimal digits, cut where the line is full.
    #[tactic(auto, using(crate::proofs::DigitCount::in_hexadecimal))]
    pub fn hexadecimal(self, n: u64) -> Line
        ensures { result ≡ with_word self (hexadecimal n) }
    {
        let mut digits = [0u8; 16];
        let places = io::hex(n, 16, &mut digits);
        self.word(&digits[..places])
    }

    // The line with the low 32 bits of a number after its text, low byte first, cut where the line is full.
    pub fn four_bytes(self, n: usize) -> Line
        ensures { result ≡ with_word self (four_bytes n) }
    {
        let [a, b, c, d, ..] = n.to_le_bytes();
        self.word(&[a, b, c, d])
    }

    // The line with a refusal after its text: its number, the record that it carries, and which edge of it.
    #[tactic(auto, unfolding(crate::specs::Shown::with_refusal))]
    pub fn refused(self, refusal: Refusal) -> Line
        ensures { result ≡ with_refusal self (why_of refusal) }
    {
        self.word(b"refused ")
            .number(refusal.number() as u64)
            .word(b" at ")
            .number(refusal.record() as u64)
            .word(b" ")
            .number(refusal.edge() as u64)
    }

    // The bytes, of which the first so many as `length` says are the text.
    pub fn bytes(self) -> [u8; WIDTH]
        ensures { result ≡ self.bytes }
    {
        self.bytes
    }

    // How many bytes the text has.
    pub fn length(self) -> usize
        ensures { result ≡ min self.len 128 }
    {
        self.len.min(WIDTH)
    }

    // The text.
    pub fn as_bytes(&self) -> &[u8]
        ensures { result.now ≡ shown self.now }
    {
        &self.bytes[..self.length()]
    }
}

// Text that is written to a line stands after its text, cut where the line is full. No write fails.
impl fmt::Write for Line {
    ghost write_str_gives = { λ line word after. after ≡ with_word line word };

    fn write_str(&mut self, word: &str) -> fmt::Result
        ensures never_fails { IsOk result }
        ensures ok { self.new ≡ with_word self.old word.now }
    {
        *self = self.word(word.as_bytes());
        Ok(())
    }
}

// Puts a word behind the first len bytes of a room, as far as it goes, and answers how many bytes there are then.
#[tactic(auto, using(crate::proofs::WordPut::full, crate::proofs::WordPut::some))]
fn put(room: &mut [u8], len: usize, word: &[u8]) -> usize
    ensures { line_of room.new result ≡ appended room.old len word.now }
{
    if room.len() <= len {
        return len;
    }
    let count = word.len().min(room.len() - len);
    room[len..len + count].copy_from_slice(&word[..count]);
    len + count
}
