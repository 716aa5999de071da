//! The text of each operation, there and back.

ghost use Rattle.ppc_ops.specs.Fitting.{FitsFields};

use line_text::Line;
use ppc_asm::assemble;
use ppc_decode::encode;
use ppc_disasm::push_insn;
use ppc_ops::{Insn, row, row_count};
use std::alloc::{AllocError, Global};
use std::test::Fail;
use word_decoder::{Decoded, decode};

/// The bytes that the assembler makes of the text of a form, which stands at address 8 of a source.
fn assembled(alloc: Global, insn: &Insn) -> Result<Option<Vec<u8>>, AllocError>
    requires { FitsFields insn.now }
{
    let mut line = Line::new();
    push_insn(&mut line, insn);
    let mut source = Vec::from_slice(alloc, b".seg 8\ne: ")?;
    source.extend_from_slice(line.as_slice())?;
    source.extend_from_slice(b"\n.entry e\n")?;
    let Ok(image) = assemble(alloc, &source) else {
        return Ok(None);
    };
    match image.segments.as_slice().first() {
        Some(segment) => Ok(Some(Vec::from_slice(alloc, segment.bytes.as_slice())?)),
        None => Ok(None),
    }
}

/// Whether the assembler turns the text of the word's form back into the form's word; nothing where the word means none.
fn comes_back(alloc: Global, word: u32) -> Result<Option<bool>, AllocError> {
    let Decoded::Form(insn) = decode(word) else {
        return Ok(None);
    };
    let Ok(wanted) = encode(&insn) else {
        return Ok(Some(false));
    };
    match assembled(alloc, &insn)? {
        Some(bytes) => Ok(Some(bytes.as_slice() == wanted.to_le_bytes().as_slice())),
        None => Ok(Some(false)),
    }
}

#[test]
fn each_operation_comes_back_with_its_least_and_its_greatest_operands(
    rt: HostRuntime,
) -> Result<(), Fail> {
    let mut forms = 0u32;
    for i in 0..row_count() {
        if let Some(row) = row(i) {
            for word in [row.value, row.value | !row.mask] {
                if let Some(is_same) = comes_back(rt.alloc(), word)? {
                    assert!(rt; is_same, "{word:08x}");
                    forms = forms.wrapping_add(1);
                }
            }
        }
    }
    // Of 200 operations; but of eleven loads with update neither, and of eight stores with update, bcctr, sync and the two
    // moves of one field not both, since these operands are invalid forms.
    assert_eq!(rt; forms, 400 - 22 - 8 - 1 - 1 - 4);
    Ok(())
}
