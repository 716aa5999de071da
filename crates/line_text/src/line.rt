//! A line of text in a fixed buffer.

ghost use Rattle.std.specs.Prelude.{◌≡◌, ◌+◌, ◌%◌, ◌^◌, ◌≤◌, ◌<◌, ◌++◌, [], ◌∷◌, length};
ghost use Rattle.std.specs.Fmt.{decimal};
ghost use Rattle.line_text.specs.Text.{hex, glyph};

use std::marker::Model;

/// The most bytes of a line.
pub const CAPACITY: usize = 512;

/// A line of text, at most 512 bytes, which takes no memory. Contracts see the list of its bytes.
#[derive(Drop)]
pub struct Line {
    bytes: [u8; CAPACITY],
    len: usize,
}

impl Model for Line {
    ghost use Rattle.std.specs.Prelude.{◌≤◌, List, ℕ, take};

    ghost Value = { List ℕ };

    ghost view = { λ l. take l.len l.bytes };

    ghost invariant = { λ l. l.len ≤ 512 };
}

/// A digit in base 16, in lower case.
fn glyph_of(digit: u8) -> u8
    requires { digit < 16 }
    ensures { result ≡ glyph digit }
{
    if digit < 10 {
        b'0' + digit
    } else {
        b'a' + (digit - 10)
    }
}

impl Line {
    /// An empty line.
    pub fn new() -> Line
        ensures { result ≡ [] }
    {
        Line {
            bytes: [0; CAPACITY],
            len: 0,
        }
    }

    /// Takes all bytes out of the line.
    pub fn clear(&mut self)
        ensures { self.new ≡ [] }
    {
        self.len = 0;
    }

    /// The bytes of the line.
    pub fn as_slice(&self) -> &[u8]
        ensures { result.now ≡ self.now }
    {
        &self.bytes[..self.len]
    }

    /// Adds a byte, which must have room.
    pub fn push(&mut self, byte: u8)
        requires { length self.old < 512 }
        ensures text { self.new ≡ self.old ++ byte ∷ [] }
        ensures len { length self.new ≡ length self.old + 1 }
    {
        self.bytes[self.len] = byte;
        self.len += 1;
    }

    /// Adds bytes, which must have room.
    pub fn push_bytes(&mut self, bytes: &[u8])
        requires { length self.old + length bytes.now ≤ 512 }
        ensures text { self.new ≡ self.old ++ bytes.now }
        ensures len { length self.new ≡ length self.old + length bytes.now }
    {
        for byte in bytes {
            self.push(*byte);
        }
    }

    /// Adds a number in base 16 with `width` lower-case digits, which must have room and be enough for
    /// the number.
    pub fn push_hex(&mut self, width: u8, value: u64)
        requires room { length self.old + width ≤ 512 }
        requires fits { value < 16 ^ width }
        ensures text { self.new ≡ self.old ++ hex width value }
        ensures len { length self.new ≡ length self.old + width }
    {
        self.push_low_hex(width, value);
    }

    /// Adds the lowest digit of a number in base 16, which must have room.
    fn push_digit(&mut self, value: u64)
        requires { length self.old < 512 }
        ensures text { self.new ≡ self.old ++ glyph (value % 16) ∷ [] }
        ensures len { length self.new ≡ length self.old + 1 }
    {
        self.push(glyph_of((value % 16) as u8));
    }

    /// Adds the lowest `width` digits of a number in base 16, which must have room. For a register
    /// that has no more bits than those digits show, though its type has.
    pub fn push_low_hex(&mut self, width: u8, value: u64)
        requires { length self.old + width ≤ 512 }
        ensures text { self.new ≡ self.old ++ hex width value }
        ensures len { length self.new ≡ length self.old + width }
    {
        if width >= 4 {
            self.push_low_hex(width - 4, value / 65_536);
            self.push_digit(value / 4096);
            self.push_digit(value / 256);
            self.push_digit(value / 16);
            self.push_digit(value);
        } else if width > 0 {
            self.push_low_hex(width - 1, value / 16);
            self.push_digit(value);
        }
    }

    /// Adds a number in decimal. There must be room for 20 bytes, which is enough for each number.
    pub fn push_number(&mut self, value: u64)
        requires { length self.old + 20 ≤ 512 }
        ensures text { self.new ≡ self.old ++ decimal value }
        ensures len { length self.new ≤ length self.old + 20 }
    {
        self.push_decimal(value);
    }

    /// Adds a number in decimal, which must have room.
    fn push_decimal(&mut self, value: u64)
        requires { length self.old + length (decimal value) ≤ 512 }
        ensures text { self.new ≡ self.old ++ decimal value }
        ensures len { length self.new ≡ length self.old + length (decimal value) }
    {
        if value < 10 {
            self.push(b'0' + value as u8);
            return;
        }
        self.push_decimal(value / 10);
        self.push(b'0' + (value % 10) as u8);
    }
}
