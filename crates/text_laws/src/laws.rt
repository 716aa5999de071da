//! Each function does nothing: its contract is the law.

ghost use Rattle.text_laws.specs.Laws.{TextsAssemble, TextsDiffer, NamesDiffer, WordsAssemble};

/// The text of a form, assembled at any address and among any names, gives the form's word.
pub fn texts_assemble()
    ensures { TextsAssemble }
{}

/// Two forms have two texts.
pub fn texts_differ()
    ensures { TextsDiffer }
{}

/// Two operations, or one with different marks, have two names.
pub fn names_differ()
    ensures { NamesDiffer }
{}

/// The text of a word, assembled at any address and among any names, gives the word, with 0 in the bits that its form
/// ignores.
pub fn words_assemble()
    ensures { WordsAssemble }
{}
