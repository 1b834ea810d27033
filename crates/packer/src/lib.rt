// A build, whole: a job's bytes checked, its sets packed, the store, ids, map and log written; and the forecast of one, which writes none of them.
#![tactic(auto)]

mod building;
mod foretelling;

pub use building::build;
pub use finishing::Report;
pub use foretelling::forecast;
pub use panel::Profile;
