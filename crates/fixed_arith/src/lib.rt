//! Fixed-point arithmetic: what each sum, product and quotient leaves.
#![tactic(auto)]

mod forms;
mod laws;
mod outcomes;
mod products;
mod quotients;
mod ranges;
mod sums;

pub use forms::arith;
pub use laws::complements_make_differences;

#[cfg(test)]
mod tests;
