// A parting told in a report.
#![tactic(auto)]

mod part;

pub use part::tell_parted;
