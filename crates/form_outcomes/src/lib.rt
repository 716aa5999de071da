//! What the form of a word comes to, and the causes that forms raise.
#![tactic(auto)]

mod causes;

pub use causes::{assist, privileged, trap, unsupported};
