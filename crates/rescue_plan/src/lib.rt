//! The plan of a rescue: the reads that it would make over a damage that a test map shows, one line each.
#![tactic(auto)]

pub mod laws;
pub mod ready;
pub mod run;

pub use plan_source::loss::PlanLoss;
pub use plan_source::source::PlanSource;
pub use rescue_sample::blank::BlankSite;
