// What a store will be, before its first byte is written: the regions that it keeps, its subtables and its size (`draft`).
#![tactic(auto)]

mod outline;
mod regions;
mod size;

pub use outline::{Plan, draft};
pub use size::form_of;
