//! Outlines: entries nested by indentation, held as a tree of their own.
#![tactic(auto)]

mod building;
pub mod drafting;
pub mod drafts;
pub mod entries;
pub mod faults;
pub mod items;
pub mod lines;
pub mod outlines;
pub mod questions;
pub mod visitors;
