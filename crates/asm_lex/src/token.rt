//! Tokens.

/// What a token is.
#[derive(Clone, Copy, Debug, PartialEq, Eq)]
pub enum TokenKind {
    /// A number, decimal or after `0x` hexadecimal, of this value.
    Number(u64),
    /// A name, perhaps with a dot directly before it and one directly after it.
    Word,
    /// A text in quotes, which belong to it.
    Text,
    /// One of `:`, `,`, `+`, `-`, `.`, `@`, `(` and `)`.
    Sign,
    /// A newline.
    Newline,
}

/// A token: the bytes from `from` up to, not including, `to`, counted from 0.
#[derive(Clone, Copy, Debug, PartialEq, Eq)]
pub struct Token {
    /// What it is.
    pub kind: TokenKind,
    /// The place of its first byte.
    pub from: usize,
    /// The place after its last byte.
    pub to: usize,
}
