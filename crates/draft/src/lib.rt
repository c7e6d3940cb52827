//! What a put is handed, the tests on it, and what is kept of it.
#![tactic(auto)]

pub mod details;
pub mod drafts;
pub mod fits;
pub mod keys;
