//! Makers of drafts, one for each kind: what a put is handed, without counting.
//!
//! Numbers out of range are passed on as they are, since it is the put that refuses them.
#![tactic(auto)]

mod bases;
pub mod exprs;
pub mod parts;
pub mod stmts;
