// Writes an item variation store (`write_store`) and the map from ids to rows (`write_map`).
#![tactic(auto)]

mod groups;
mod ids;
mod list;
mod spots;
mod whole;

pub use ids::write_map;
pub use whole::write_store;
