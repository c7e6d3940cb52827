//! Accepting what a put is handed: the record of the node to be put, or the refusal that is due.
ghost use Rattle.std.specs.Prelude.{◌≡◌, ◌+◌, ◌<◌, ◌≤◌, ◌&&◌, Some, None, MatchResult, length, min, nat_le, nat_lt};
ghost use Rattle.draft.specs.Details.{details_of};
ghost use Rattle.node.specs.declared.faults.TableFault.TheVariants.{Full};
ghost use Rattle.table.specs.Puts.{due_before, due_size, height_of, lines_of, node_of, put_refusal, unless};
ghost use Rattle.table.specs.Reads.{table_state};
ghost use Rattle.tree.specs.Answers.{passed_unless};

use crate::children::Family;
use crate::measures::Measure;
use crate::offers::Offer;
use crate::sizes::{narrow, shared_count};
use crate::tables::Table;
use node::faults::TableFault;
use node::records::{Details, Node};

impl Table<'_> {
    // The height and the lines of a node to be put; fault 7 where they are too large.
    #[tactic(auto, using(crate::proofs::Fitting::ready))]
    fn sized(&self, offer: &Offer<'_>, details: &Details) -> Result<Measure, TableFault>
        requires before { due_before (table_state self.now) self.now.text.now offer.now.draft.now offer.now.places.now offer.now.idents.now offer.now.values ≡ None }
        requires details { details.now ≡ details_of offer.now.draft.now }
        ensures { MatchResult result (λ m. (due_size (table_state self.now) offer.now.draft.now offer.now.places.now ≡ None) × (m.height ≡ height_of (table_state self.now) offer.now.draft.now offer.now.places.now) × (m.lines ≡ lines_of (table_state self.now) offer.now.draft.now offer.now.places.now)) (λ f. due_size (table_state self.now) offer.now.draft.now offer.now.places.now ≡ Some f) }
    {
        let draft = offer.draft;
        if draft.values + draft.ranges > 32767 {
            return Err(TableFault::Size(0));
        }
        let family = Family {
            named: offer.places,
            details,
            parts: &narrow(draft, 0, 0),
        };
        let size = self.memory.measure(&family);
        if size.fits() {
            Ok(size)
        } else {
            Err(TableFault::Size(0))
        }
    }

    // Fault 8 where there is no room: so many places and so many shared names take a link each.
    fn check_room(&self, places: usize, shared: usize) -> Result<(), TableFault>
        ensures { result ≡ passed_unless (unless (nat_lt (table_state self.now).used (min (length (table_state self.now).nodes) 4096) && nat_le ((table_state self.now).linked + (places + shared)) (min (length (table_state self.now).links) 8192)) (Full 0)) }
    {
        let memory = &self.memory;
        let needed = memory.linked as u128 + (places as u128 + shared as u128);
        if memory.used < memory.nodes.len().min(4096)
            && needed <= memory.links.len().min(8192) as u128
        {
            Ok(())
        } else {
            Err(TableFault::Full(0))
        }
    }

    // The record of a node to be put, or the refusal that is due.
    pub(crate) fn accept(&self, offer: &Offer<'_>) -> Result<Node, TableFault>
        ensures { MatchResult result (λ n. (put_refusal (table_state self.now) self.now.text.now offer.now.draft.now offer.now.places.now offer.now.idents.now offer.now.values ≡ None) × (n ≡ node_of (table_state self.now) offer.now.draft.now offer.now.places.now (length offer.now.idents.now))) (λ f. put_refusal (table_state self.now) self.now.text.now offer.now.draft.now offer.now.places.now offer.now.idents.now offer.now.values ≡ Some f) }
    {
        self.check_before(offer)?;
        let draft = offer.draft;
        let details = draft.details().unwrap();
        let size = self.sized(offer, &details)?;
        let shared = shared_count(details.kind.shape().extra, offer.idents.len());
        self.check_room(offer.places.len(), shared)?;
        Ok(Node {
            details,
            parts: narrow(draft, self.memory.linked, shared),
            up: None,
            height: size.height as u16,
            lines: size.lines as u16,
        })
    }
}
