//! Laws of the definitions of walks, kept walks and answers that `journal_core` has. Each function is one law: it does nothing,
//! and its contract is the law. Its lemmas, and the worked examples of the definitions, stand in `proofs/`.
#![tactic(auto)]

pub mod kept;
pub mod walks;
