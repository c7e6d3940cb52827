//! What a put is handed, and the tests that look at nothing else.
ghost use Rattle.std.specs.Prelude.{◌≡◌, true, drop, length, min};
ghost use Rattle.draft.specs.Drafts.{kind_in_range};
ghost use Rattle.draft.specs.Fits.{kids as draft_kids};
ghost use Rattle.table.specs.Puts.{due_fit, due_range, due_text, extras_fit, keys_fit, kid_list, stored_due};
ghost use Rattle.tree.specs.Answers.{passed_unless};

use draft::drafts::{Draft, Lying, RawConstant, RawIdent};
use draft::fits::all_placed;
use draft::keys::keys_distinct;
use kind::kinds::Kind;
use kind::shapes::Extra;
use node::faults::{StoreFault, TableFault, TextFault};
use node::positions::Ranged;

/// A draft, with the places of its children and the numbers of the arms that it refers to, the names of its links,
/// and how many values there are in the store.
#[derive(Clone, Copy)]
pub(crate) struct Offer<'o> {
    pub(crate) draft: &'o Draft,
    pub(crate) places: &'o [usize],
    pub(crate) idents: &'o [RawIdent],
    pub(crate) values: usize,
}

// Whether keys, where the kind has them, are told apart by their bytes.
fn keys_fit(extra: Option<Extra>, text: &[u8], idents: &[RawIdent]) -> bool
    ensures { result ≡ keys_fit extra text.now idents.now }
{
    match extra {
        Some(Extra::Keys) => keys_distinct(text, idents),
        Some(Extra::Arms | Extra::Shared) | None => true,
    }
}

impl<'o> Offer<'o> {
    // How many of the places are those of children.
    fn kids(&self) -> usize
        ensures { result ≡ min (draft_kids self.now.draft.now) (length self.now.places.now) }
    {
        let draft = self.draft;
        draft
            .head
            .saturating_add(draft.body)
            .saturating_add(draft.branch)
            .saturating_add(draft.arms)
            .saturating_add(draft.arms)
            .min(self.places.len())
    }

    // The children among the places.
    pub(crate) fn kid_places(&self) -> &'o [usize]
        ensures { result.now ≡ kid_list self.now.draft.now self.now.places.now }
    {
        &self.places[..self.kids()]
    }

    // The references among the places.
    fn reference_places(&self) -> &'o [usize]
        ensures { result.now ≡ drop (draft_kids self.now.draft.now) self.now.places.now }
    {
        &self.places[self.kids()..]
    }

    // Fault 2 where a stored constant is no value of the store.
    pub(crate) fn check_stored(&self) -> Result<(), TableFault>
        ensures { result ≡ passed_unless (stored_due self.now.values self.now.draft.now.constant) }
    {
        match self.draft.constant {
            Some(RawConstant::Stored(place)) if place >= self.values.min(4096) => {
                Err(TableFault::Store(StoreFault::Missing(place), 0))
            }
            _ => Ok(()),
        }
    }

    // Fault 3 where a number is out of range.
    pub(crate) fn check_range(&self) -> Result<(), TableFault>
        ensures { result ≡ passed_unless (due_range self.now.draft.now self.now.idents.now) }
    {
        if self.draft.in_range() && self.idents.in_range() {
            Ok(())
        } else {
            Err(TableFault::Range(0))
        }
    }

    // Fault 4 where a run ends beyond a text of this length.
    pub(crate) fn check_text(&self, text: usize) -> Result<(), TableFault>
        ensures { result ≡ passed_unless (due_text text self.now.draft.now self.now.idents.now) }
    {
        if self.draft.within(text) && self.idents.within(text) {
            Ok(())
        } else {
            Err(TableFault::Text(TextFault { place: 0 }, 0))
        }
    }

    // Whether names in links, references and keys are what the kind asks for.
    fn extras_fit(&self, extra: Option<Extra>, text: &[u8]) -> bool
        ensures { result ≡ extras_fit extra text.now self.now.draft.now self.now.places.now self.now.idents.now }
    {
        all_placed(self.idents)
            && self.draft.arms_there(self.reference_places())
            && keys_fit(extra, text, self.idents)
    }

    // Fault 5 where parts or data do not fit the kind.
    pub(crate) fn check_fit(&self, text: &[u8]) -> Result<(), TableFault>
        requires { kind_in_range self.now.draft.now.kind ≡ true }
        ensures { result ≡ passed_unless (due_fit text.now self.now.draft.now self.now.places.now self.now.idents.now) }
    {
        let shape = Kind::try_from(self.draft.kind).unwrap().shape();
        if self.draft.fits(shape, self.places.len(), self.idents.len())
            && self.extras_fit(shape.extra, text)
        {
            Ok(())
        } else {
            Err(TableFault::Misfit(0))
        }
    }
}
