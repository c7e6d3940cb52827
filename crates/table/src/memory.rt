//! The lent memory of a table: records of nodes and links, and how many of each are in use.
use node::records::{Link, Node};

/// The records and links lent, and how many of each are in use.
#[derive(Drop)]
pub struct Memory<'a> {
    pub nodes: &'a mut [Node],
    pub links: &'a mut [Link],
    pub used: usize,
    pub linked: usize,
}
