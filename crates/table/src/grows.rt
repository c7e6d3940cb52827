//! The writes of a put: links, then what the children stand under, then the node.
ghost use Rattle.std.specs.Prelude.{◌≡◌, ℕ, ◌+◌, ◌<◌, ◌≤◌, length, take, slice_index, slice_index_or};
ghost use Rattle.node.specs.Parts.{kids, links};
ghost use Rattle.table.specs.Grows.{Grown, SameLoans, adopted, new_link};
ghost use Rattle.table.specs.State.{blank, blank_link, state_of};

use crate::links::NewLinks;
use crate::memory::Memory;
use node::records::{Node, Up};

impl Memory<'_> {
    // Writes the links of a node behind those in use.
    fn lay(&mut self, new: &NewLinks<'_>, count: usize)
        requires { self.old.linked + count ≤ length self.old.links.now }
        ensures same { (self.new.nodes ≡ self.old.nodes) × (self.new.used ≡ self.old.used) × (self.new.linked ≡ self.old.linked) }
        ensures loans { SameLoans self.old self.new }
        ensures long { length self.new.links.now ≡ length self.old.links.now }
        ensures old { (k : ℕ) → k < self.old.linked → slice_index_or self.new.links.now k blank_link ≡ slice_index_or self.old.links.now k blank_link }
        ensures new { (k : ℕ) → k < count → slice_index_or self.new.links.now (self.old.linked + k) blank_link ≡ new_link new.now.places.now new.now.idents.now k }
    {
        let from = self.linked;
        for (k, link) in self.links[from..from + count].iter_mut().enumerate() {
            *link = new.at(k);
        }
    }

    // Lets some places stand under a node.
    fn adopt(&mut self, kids: &[usize], p: usize)
        requires known { (k : ℕ) → k < length kids.now → slice_index kids.now k < length self.old.nodes.now }
        requires small { p < 65536 }
        ensures same { (self.new.links ≡ self.old.links) × (self.new.used ≡ self.old.used) × (self.new.linked ≡ self.old.linked) }
        ensures loans { SameLoans self.old self.new }
        ensures long { length self.new.nodes.now ≡ length self.old.nodes.now }
        ensures nodes { (j : ℕ) → j < length self.old.nodes.now → slice_index_or self.new.nodes.now j blank ≡ adopted (state_of self.old) kids.now p j }
    {
        let up = Some(Up::Node(p as u16));
        for kid in kids {
            self.nodes[*kid].up = up;
        }
    }

    // Puts a node at the first unused place: its links, what its children stand under, its record.
    pub(crate) fn grow(&mut self, node: Node, new: &NewLinks<'_>)
        requires nodes { self.old.used < length self.old.nodes.now }
        requires few { self.old.used < 65536 }
        requires links { self.old.linked + links node.parts ≤ length self.old.links.now }
        requires handed { kids node.parts ≤ length new.now.places.now }
        requires known { (k : ℕ) → k < kids node.parts → slice_index new.now.places.now k < self.old.used }
        ensures grown { Grown (state_of self.old) (state_of self.new) node (take (kids node.parts) new.now.places.now) (new_link new.now.places.now new.now.idents.now) (links node.parts) }
        ensures loans { SameLoans self.old self.new }
    {
        let at = self.used;
        let count = node.parts.links();
        self.lay(new, count);
        self.adopt(&new.places[..node.parts.kids()], at);
        self.nodes[at] = node;
        self.used = at + 1;
        self.linked += count;
    }
}
