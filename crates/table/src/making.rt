//! Making a table over lent memory, and putting nodes into it.
ghost use Rattle.std.specs.Prelude.{◌≡◌, ◌<◌, ◌≤◌, length, take, Some, None, MatchResult};
ghost use Rattle.table.specs.Grows.{SameLoans};
ghost use Rattle.table.specs.Puts.{Put};
ghost use Rattle.table.specs.Reads.{memory_due, table_state};

use crate::links::NewLinks;
use crate::memory::Memory as Lent;
use crate::offers::Offer;
use crate::tables::Table;
use draft::drafts::{Draft, RawIdent};
use node::faults::TableFault;
use node::records::{Link, Node};
use tree::limits::{Memory, MemoryFault};

/// Fault 1 where more nodes, links or bytes of text are lent than their limits, the first of them in this order.
/// It only checks.
pub fn check_memory(nodes: &[Node], links: &[Link], text: &[u8]) -> Result<(), MemoryFault>
    ensures { MatchResult result (λ _. memory_due (length nodes.now) (length links.now) (length text.now) ≡ None) (λ f. memory_due (length nodes.now) (length links.now) (length text.now) ≡ Some f) }
{
    Memory::Nodes.check(nodes.len())?;
    Memory::Links.check(links.len())?;
    Memory::Text.check(text.len())
}

// The text, or as much of it as a table may have.
fn within_limit(text: &[u8]) -> &[u8]
    ensures value { result.now ≡ take 65535 text.now }
    ensures bound { length result.now ≤ 65535 }
{
    &text[..text.len().min(65535)]
}

impl<'a> Table<'a> {
    /// An empty table over lent memory. It refuses nothing: of memory over its limit it uses no more than the limit.
    pub fn new(nodes: &'a mut [Node], links: &'a mut [Link], text: &'a [u8]) -> Table<'a>
        ensures empty { ((table_state result).used ≡ 0) × ((table_state result).linked ≡ 0) }
        ensures memory { ((table_state result).nodes ≡ nodes.old) × ((table_state result).links ≡ links.old) }
        ensures text { result.text.now ≡ take 65535 text.now }
        ensures lent { (result.memory.nodes.ghost_name ≡ nodes.entry.ghost_name) × (result.memory.links.ghost_name ≡ links.entry.ghost_name) }
    {
        Table {
            memory: Lent {
                nodes,
                links,
                used: 0,
                linked: 0,
            },
            text: within_limit(text),
        }
    }

    /// Puts a node at the first unused place and answers that place, or refuses it and changes nothing.
    ///
    /// The places are those of its children (head, body, branch, arms), then the numbers of the arms that it
    /// refers to; the names are the keys of a map or the shared names. So many values there are in the store.
    pub fn put(
        &mut self,
        draft: &Draft,
        places: &[usize],
        idents: &[RawIdent],
        values: usize,
    ) -> Result<usize, TableFault>
        ensures put { Put (table_state self.old) self.old.text.now draft.now places.now idents.now values result (table_state self.new) }
        ensures text { self.new.text ≡ self.old.text }
        ensures loans { SameLoans self.old.memory self.new.memory }
    {
        let offer = Offer {
            draft,
            places,
            idents,
            values,
        };
        let node = self.accept(&offer)?;
        let at = self.memory.used;
        self.memory.grow(node, &NewLinks { places, idents });
        Ok(at)
    }
}
