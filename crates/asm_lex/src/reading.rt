//! All tokens of bytes.

ghost use Rattle.std.specs.Prelude.{IfOk};
ghost use Rattle.asm_lex.specs.Tokens.{Reads, InOrder};

use crate::fault::LexFault;
use crate::lexer::Lexer;
use crate::token_list::Tokens;
use std::alloc::Global;

/// The tokens of the bytes, each a slice of them, in order; or the first fault by place.
pub fn tokens(alloc: Global, bytes: &[u8]) -> Result<Tokens, LexFault>
    ensures tokens { Reads bytes.now result }
    ensures slices { IfOk result (λ list. InOrder bytes.now 0 list) }
{
    let mut lexer = Lexer::new(bytes);
    let mut items = Vec::new(alloc);
    loop {
        match lexer.next() {
            Ok(Some(token)) => items.push(token)?,
            Ok(None) => return Ok(Tokens::of(items)),
            Err(fault) => return Err(fault),
        }
    }
}
