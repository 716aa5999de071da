//! What a line puts into memory.

ghost use Rattle.std.specs.Prelude.{◌≡◌, length};
ghost use Rattle.asm_contents.specs.Contents.{content_bytes};

use asm_statements::Spelling;

/// What a line puts into memory.
#[derive(Debug, Drop)]
pub enum Content<'a> {
    /// No byte.
    Nothing,
    /// Four bytes, the lowest first.
    Word(u32),
    /// Eight bytes, the lowest first.
    Doubleword(u64),
    /// Eight bytes, the highest first.
    BigEndianDoubleword(u64),
    /// The bytes of a text.
    Text(Spelling<'a>),
    /// So many zeros.
    Zeros(u32),
}

impl<'a> Content<'a> {
    /// How many bytes these are.
    pub fn size(&self) -> usize
        ensures { result ≡ length (content_bytes self.now) }
    {
        match self {
            Content::Nothing => 0,
            Content::Word(_word) => 4,
            Content::Doubleword(_number) | Content::BigEndianDoubleword(_number) => 8,
            Content::Text(text) => text.bytes().len(),
            Content::Zeros(count) => *count as usize,
        }
    }
}
