// Merging: groups of sets are joined while that saves bytes.
#![tactic(auto)]

mod joining;
mod optimizing;
mod run;

pub use optimizing::{Merged, optimize};
