//! What a table tells of a node: its record, and what its links hold.
ghost use Rattle.node.specs.declared.faults.TableFault.TheVariants.{Missing};
ghost use Rattle.table.specs.Facts.{kid, known};
ghost use Rattle.table.specs.Reads.{has_kid, has_link, has_reference, ident_at, reference_at, table_state};
ghost use Rattle.table.specs.State.{blank_link, children, link_at, node_at, state_of, walked};
ghost use Rattle.table.specs.Told.{IsHeight, IsLines};
ghost use Rattle.tree.specs.Answers.{told};
ghost use Rattle.std.specs.Prelude.{◌≡◌, ◌+◌, ◌<◌, ◌≤◌, length, drop, nat_lt, slice_index_or, if◌then◌else◌};

use crate::children::Family;
use crate::memory::Memory;
use crate::tables::Table;
use node::faults::TableFault;
use node::records::{Ident, Link, Node};
use tree::trees::Tree;

impl Memory<'_> {
    // The links from one on.
    fn links_from(&self, from: usize) -> &[Link]
        requires { from ≤ length self.now.links.now }
        ensures { result.now ≡ drop from self.now.links.now }
    {
        &self.links[from..]
    }

    // The link at a number of a run that begins at a link and has so many; none past the last.
    fn link(&self, from: usize, count: usize, k: usize) -> Option<Link>
        requires { from + count ≤ length self.now.links.now }
        ensures { result ≡ (if nat_lt k count then Some (link_at (state_of self.now) (from + k)) else None) }
    {
        self.links_from(from)[..count].get(k).copied()
    }
}

impl Table<'_> {
    /// How many nodes there are: the places below this number name them.
    pub fn len(&self) -> usize
        ensures { result ≡ (table_state self.now).used }
    {
        self.memory.used
    }

    /// The record of a node; fault 2 at any other place.
    pub fn node(&self, n: usize) -> Result<Node, TableFault>
        ensures { result ≡ told (known (table_state self.now) n) (node_at (table_state self.now) n) (Missing n) }
    {
        if self.knows(n) {
            Ok(self.memory.nodes[n])
        } else {
            Err(TableFault::Missing(n))
        }
    }

    // The family of a known node.
    pub(crate) fn family<'f>(&'f self, n: usize, node: &'f Node) -> Family<'f, &'f [Link]>
        requires known { n < (table_state self.now).used }
        requires node { node.now ≡ node_at (table_state self.now) n }
        ensures { walked (λ k. (slice_index_or result.named.now k blank_link).place) result.details.now result.parts.now ≡ children (table_state self.now) n }
    {
        Family {
            named: self.memory.links_from(node.parts.start as usize),
            details: &node.details,
            parts: &node.parts,
        }
    }

    /// The child that a node holds at a number, walked or not; fault 2 at an unknown place or past the last.
    pub fn kid(&self, n: usize, k: usize) -> Result<usize, TableFault>
        ensures { result ≡ told (has_kid (table_state self.now) n k) (kid (table_state self.now) n k) (Missing n) }
    {
        let parts = self.node(n)?.parts;
        let from = parts.start as usize;
        self.memory
            .link(from, parts.kids(), k)
            .map(|kid| kid.place as usize)
            .ok_or(TableFault::Missing(n))
    }

    /// The arm that a reference of a node names, values before ranges; fault 2 as before.
    pub fn reference(&self, n: usize, k: usize) -> Result<usize, TableFault>
        ensures { result ≡ told (has_reference (table_state self.now) n k) (reference_at (table_state self.now) n k) (Missing n) }
    {
        let parts = self.node(n)?.parts;
        let from = parts.start as usize + parts.kids();
        self.memory
            .link(from, parts.references(), k)
            .map(|arm| arm.place as usize)
            .ok_or(TableFault::Missing(n))
    }

    /// The name that belongs to a link of a node: the key of an item of a map, or a shared name; fault 2 as before.
    pub fn ident(&self, n: usize, k: usize) -> Result<Ident, TableFault>
        ensures { result ≡ told (has_link (table_state self.now) n k) (ident_at (table_state self.now) n k) (Missing n) }
    {
        let parts = self.node(n)?.parts;
        let from = parts.start as usize;
        self.memory
            .link(from, parts.links(), k)
            .map(|link| link.ident)
            .ok_or(TableFault::Missing(n))
    }

    /// The text that the names of the table are runs of.
    pub fn text(&self) -> &[u8]
        ensures { result.now ≡ self.now.text.now }
    {
        self.text
    }

    /// The number of lines of descent from a node; fault 2 at any other place.
    #[tactic(auto, using(crate::proofs::Counted::lines_told))]
    pub fn lines(&self, n: usize) -> Result<usize, TableFault>
        ensures value { result ≡ told (known (table_state self.now) n) (node_at (table_state self.now) n).lines (Missing n) }
        ensures counted { IsLines (table_state self.now) n result }
    {
        self.node(n).map(|node| node.lines as usize)
    }

    /// The height of a node, one more than the length of its longest line of descent; fault 2 at any other place.
    #[tactic(auto, using(crate::proofs::Counted::height_told))]
    pub fn height_of(&self, n: usize) -> Result<usize, TableFault>
        ensures value { result ≡ told (known (table_state self.now) n) (node_at (table_state self.now) n).height (Missing n) }
        ensures longest { IsHeight (table_state self.now) n result }
    {
        self.height(n)
    }
}
