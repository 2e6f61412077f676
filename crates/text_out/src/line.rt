//! A line of text that is being made.

ghost use Rattle.std.specs.Prelude.{◌≡◌, ◌≤◌, ◌<◌, ◌+◌, ◌*◌, [], ◌++◌, ℕ, List, length};
ghost use Rattle.std.specs.Fmt.{decimal};
ghost use Rattle.text_out.specs.Texts.{spaced, all_spaced, hex_text};

use arrayvec::ArrayVec;
use itoa::Buffer;
use std::marker::Model;

/// The most bytes that a line has.
pub const LINE: usize = 2048;

/// A line of at most 2,048 bytes, which takes no memory. Contracts see the bytes that it has so far.
#[derive(Drop)]
pub struct Line {
    bytes: ArrayVec<u8, 2048>,
}

impl Model for Line {
    ghost use Rattle.std.specs.Prelude.{ℕ, List};

    ghost Value = { List ℕ };

    ghost view = { λ l. l.bytes.items };
}

impl Line {
    /// An empty line.
    pub fn new() -> Line
        ensures { result ≡ [] }
    {
        Line {
            bytes: ArrayVec::new(),
        }
    }

    /// The bytes so far.
    pub fn as_slice(&self) -> &[u8]
        ensures { result.now ≡ self.now }
    {
        self.bytes.as_slice()
    }

    /// Adds bytes.
    pub fn bytes(&mut self, bytes: &[u8])
        requires { length self.old + length bytes.now ≤ LINE }
        ensures bytes { self.new ≡ self.old ++ bytes.now }
        ensures len { length self.new ≡ length self.old + length bytes.now }
    {
        // There is room, so this does not fail.
        let _ = self.bytes.try_extend_from_slice(bytes);
    }

    /// Adds a text.
    pub fn text(&mut self, text: &str)
        requires { length self.old + length text.now ≤ LINE }
        ensures text { self.new ≡ self.old ++ text.now }
        ensures len { length self.new ≡ length self.old + length text.now }
    {
        self.bytes(text.as_bytes());
    }

    /// Adds a number in decimal digits, without leading zeros.
    pub fn number(&mut self, n: u64)
        requires { length self.old + 20 ≤ LINE }
        ensures text { self.new ≡ self.old ++ decimal n }
        ensures len { length self.new ≤ length self.old + 20 }
    {
        let mut buffer = Buffer::new();
        self.bytes(buffer.format(n).as_bytes());
    }

    /// Adds a number below a hundred, which has at most two digits.
    pub fn small(&mut self, n: u64)
        requires small { n < 100 }
        requires room { length self.old + 2 ≤ LINE }
        ensures text { self.new ≡ self.old ++ decimal n }
        ensures len { length self.new ≤ length self.old + 2 }
    {
        let mut buffer = Buffer::new();
        self.text(buffer.format(n));
    }

    /// Adds a number after a space.
    pub fn spaced(&mut self, n: u64)
        requires { length self.old + 21 ≤ LINE }
        ensures text { self.new ≡ self.old ++ spaced n }
        ensures len { length self.new ≤ length self.old + 21 }
    {
        self.text(" ");
        self.number(n);
    }

    /// Adds numbers, each after a space.
    pub fn all_spaced(&mut self, numbers: &[u64])
        requires { length self.old + 21 * length numbers.now ≤ LINE }
        ensures text { self.new ≡ self.old ++ all_spaced numbers.now }
        ensures len { length self.new ≤ length self.old + 21 * length numbers.now }
    {
        for number in numbers {
            self.spaced(*number);
        }
    }

    /// Adds up to 32 bytes, each as two lower-case hexadecimal digits.
    pub fn hex(&mut self, bytes: &[u8])
        requires few { length bytes.now ≤ 32 }
        requires room { length self.old + 2 * length bytes.now ≤ LINE }
        ensures text { self.new ≡ self.old ++ hex_text bytes.now }
        ensures len { length self.new ≡ length self.old + 2 * length bytes.now }
    {
        let mut digits = [0u8; 64];
        let used = &mut digits[..2 * bytes.len()];
        // There are two places for each byte, so this does not fail.
        let _ = hex::encode_to_slice(bytes, used);
        self.bytes(used);
    }
}
