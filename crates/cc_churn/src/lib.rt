//! How nodes come, join and go (CCC, churn management).
#![tactic(auto)]

mod churn;

pub use churn::Churn;
