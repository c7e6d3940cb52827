//! Tests of the script table and of the marks: edges of the memory, of the height, and the order of refusals.
#![tactic(auto)]

#[cfg(test)]
mod memory;
#[cfg(test)]
mod puts;
#[cfg(test)]
mod sizes;
