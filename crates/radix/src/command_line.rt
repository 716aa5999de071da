//! The words of the command line, read one at a time.

use std::alloc::AllocError;
use std::env::{Env, FillError};

/// The words of a command line.
#[derive(Drop)]
pub struct CommandLine {
    /// The words after the program's name, up to the first that is not UTF-8 text.
    pub words: Vec<String>,
    /// Whether one more word follows that is not UTF-8 text.
    pub is_cut: bool,
}

/// The bytes of the word with a number, where the program's name has number 0, or `None` after the last word.
fn read_bytes<R: Env + AllocGlobal>(rt: &R, number: usize) -> Result<Option<Vec<u8>>, AllocError> {
    let mut bytes = vec![in rt.alloc(); 0u8; 256]?;
    for _ in 0..usize::BITS {
        match rt.arg(number, bytes.as_mut_slice()) {
            Ok(count) => {
                bytes.truncate(count);
                return Ok(Some(bytes));
            }
            Err(FillError::NotPresent) => return Ok(None),
            Err(FillError::TooLong) => {
                let size = bytes.len().saturating_mul(2);
                bytes.resize(size, 0)?;
            }
        }
    }
    Err(AllocError)
}

/// Reads all words after the program's name, up to the first that is not UTF-8 text.
pub fn read_command_line<R: Env + AllocGlobal>(rt: &R) -> Result<CommandLine, AllocError> {
    let mut words = Vec::new(rt.alloc());
    let mut is_cut = false;
    for number in 1..usize::MAX {
        let Some(bytes) = read_bytes(rt, number)? else {
            break;
        };
        match String::from_utf8(bytes) {
            Ok(word) => words.push(word)?,
            Err(_) => {
                is_cut = true;
                break;
            }
        }
    }
    Ok(CommandLine { words, is_cut })
}
