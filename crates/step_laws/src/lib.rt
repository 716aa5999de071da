//! Laws of steps that keep the rule, and of lawful journals. Each function is one law: it does nothing, and its contract is the law.
#![tactic(auto)]

pub mod laws;
