//! The tests of a put: those on the children that are handed in, and all in the order of their numbers.
ghost use Rattle.std.specs.Prelude.{◌≡◌, ◌<◌, None, length, not};
ghost use Rattle.draft.specs.Fits.{handed};
ghost use Rattle.std.specs.List.{find};
ghost use Rattle.kind.specs.Kinds.{is_stmt};
ghost use Rattle.table.specs.Facts.{known};
ghost use Rattle.table.specs.Puts.{due_before, due_held, due_known, due_place};
ghost use Rattle.table.specs.Reads.{table_state};
ghost use Rattle.table.specs.State.{node_at};
ghost use Rattle.table.specs.Tests.{is_free};
ghost use Rattle.tree.specs.Answers.{passed_unless};

use crate::offers::Offer;
use crate::seen::Seen;
use crate::tables::Table;
use node::faults::TableFault;
use tree::trees::Tree;

impl Table<'_> {
    // Whether a node stands under nothing.
    fn is_free(&self, place: usize) -> bool
        requires { place < (table_state self.now).used }
        ensures { result ≡ is_free (table_state self.now) place }
    {
        let up = self.memory.nodes[place].up;
        up.is_none()
    }

    // Whether a node is a statement.
    fn is_stmt(&self, place: usize) -> bool
        requires { place < (table_state self.now).used }
        ensures { result ≡ is_stmt (node_at (table_state self.now) place).details.kind }
    {
        self.memory.nodes[place].details.kind.is_stmt()
    }

    // The first place that names no node.
    fn first_unknown(&self, places: &[usize]) -> Option<usize>
        ensures { result ≡ find (λ place. not (known (table_state self.now) place)) places.now }
    {
        places.iter().copied().find(|place| !self.knows(*place))
    }

    // Fault 2 at the first child that is no node.
    fn check_known(&self, offer: &Offer<'_>) -> Result<(), TableFault>
        ensures { result ≡ passed_unless (due_known (table_state self.now) offer.now.draft.now offer.now.places.now) }
    {
        match self.first_unknown(offer.kid_places()) {
            Some(place) => Err(TableFault::Missing(place)),
            None => Ok(()),
        }
    }

    // Fault 5 at the first child that is a statement where the part takes expressions, or the other way round.
    fn check_sorted(&self, offer: &Offer<'_>) -> Result<(), TableFault>
        requires known { due_known (table_state self.now) offer.now.draft.now offer.now.places.now ≡ None }
        requires counted { handed offer.now.draft.now ≡ length offer.now.places.now }
        ensures { result ≡ passed_unless (due_place (table_state self.now) offer.now.draft.now offer.now.places.now) }
    {
        let draft = offer.draft;
        let statements = draft.head..draft.head + draft.body + draft.branch;
        let kids = offer.kid_places();
        for (k, kid) in kids.iter().enumerate() {
            if self.is_stmt(*kid) != statements.contains(&k) {
                return Err(TableFault::Misfit(*kid));
            }
        }
        Ok(())
    }

    // Fault 6 at the first child that has a parent, or was named before.
    fn check_held(&self, offer: &Offer<'_>) -> Result<(), TableFault>
        requires { due_known (table_state self.now) offer.now.draft.now offer.now.places.now ≡ None }
        ensures { result ≡ passed_unless (due_held (table_state self.now) offer.now.draft.now offer.now.places.now) }
    {
        let kids = offer.kid_places();
        if kids.is_empty() {
            return Ok(());
        }
        let mut seen = Seen::none();
        for kid in kids {
            if !self.is_free(*kid) || seen.has(*kid) {
                return Err(TableFault::Held(*kid));
            }
            seen.mark(*kid);
        }
        Ok(())
    }

    // The refusal that is due before any count is made, if one is.
    #[tactic(auto, using(crate::proofs::Passed::kind_passed, crate::proofs::Passed::counts_passed, crate::proofs::Passed::passed_none))]
    pub(crate) fn check_before(&self, offer: &Offer<'_>) -> Result<(), TableFault>
        ensures { result ≡ passed_unless (due_before (table_state self.now) self.now.text.now offer.now.draft.now offer.now.places.now offer.now.idents.now offer.now.values) }
    {
        self.check_known(offer)?;
        offer.check_stored()?;
        offer.check_range()?;
        offer.check_text(self.text.len())?;
        offer.check_fit(self.text)?;
        self.check_sorted(offer)?;
        self.check_held(offer)
    }
}
