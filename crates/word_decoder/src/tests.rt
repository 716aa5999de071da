mod cases;

use super::*;
use cases::{FORMS, INVALID, UNSUPPORTED};
use ppc_ops::row_count;
use std::process::Abort;
use std::test::Fail;

/// The number of a text of hexadecimal digits.
fn hexadecimal(rt: &impl Abort, text: Option<&str>) -> u32 {
    u32::from_str_radix(text.unwrap_or(""), 16).expect(rt, "hexadecimal digits")
}

/// The form that a word means, as text.
fn form_text(rt: &HostRuntime, word: u32) -> Result<String, Fail> {
    match decode(word) {
        Decoded::Form(insn) => Ok(format!(in rt.alloc(); "{insn:?}")?),
        other => Ok(format!(in rt.alloc(); "{other:?}")?),
    }
}

#[test]
fn each_operation_has_its_word_whatever_its_ignored_bits(rt: HostRuntime) -> Result<(), Fail> {
    assert_eq!(rt; FORMS.lines().count(), usize::from(row_count()));
    for line in FORMS.lines() {
        let mut parts = line.splitn(4, ' ');
        let word = hexadecimal(&rt, parts.next());
        let some = hexadecimal(&rt, parts.next());
        let others = hexadecimal(&rt, parts.next());
        let text = parts.next().unwrap_or("");
        for ignored in [0, some, others] {
            assert_eq!(rt; form_text(&rt, word | ignored)?.as_str(), text);
        }
    }
    Ok(())
}

#[test]
fn invalid_forms_are_refused_with_their_operation(rt: HostRuntime) -> Result<(), Fail> {
    for line in INVALID.lines() {
        let mut parts = line.splitn(2, ' ');
        let word = hexadecimal(&rt, parts.next());
        let text = format!(in rt.alloc(); "InvalidForm({})", parts.next().unwrap_or(""))?;
        assert_eq!(rt; form_text(&rt, word)?.as_str(), text.as_str());
    }
    Ok(())
}

#[test]
fn words_of_no_row_are_unsupported_and_the_word_0_means_nothing(rt: HostRuntime) {
    for word in UNSUPPORTED {
        assert_eq!(rt; decode(word), Decoded::Unsupported);
    }
    assert_eq!(rt; decode(0), Decoded::Zero);
}
