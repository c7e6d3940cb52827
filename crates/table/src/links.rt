//! The links of a node to be put, as they are written.
ghost use Rattle.std.specs.Prelude.{◌≡◌, ℕ, ◌<◌, true, length, slice_index};
ghost use Rattle.draft.specs.Drafts.{ident_in_range, ident_within};
ghost use Rattle.std.specs.List.{list_all};

use draft::drafts::RawIdent;
use node::positions::Position;
use node::records::{Ident, Link, Run};

/// The places and the names that are handed in for the links of a node, each of which can be kept.
#[derive(Drop)]
pub(crate) struct NewLinks<'l> {
    pub(crate) places: &'l [usize],
    pub(crate) idents: &'l [RawIdent],
    ghost small: { (j : ℕ) → j < length places.now → slice_index places.now j < 65536 },
    ghost range: { list_all ident_in_range idents.now ≡ true },
    ghost within: { list_all (ident_within 65535) idents.now ≡ true },
}

impl NewLinks<'_> {
    ghost use Rattle.std.specs.Prelude.{map, slice_index_or};
    ghost use Rattle.draft.specs.Details.{ident_of};
    ghost use Rattle.table.specs.State.{blank_ident};
    ghost use Rattle.table.specs.Grows.{new_link};

    // The place at a number, or 0 past the last.
    fn place(&self, k: usize) -> u16
        ensures { result ≡ slice_index self.now.places.now k }
    {
        self.places.get(k).copied().unwrap_or(0) as u16
    }

    // The name at a number, or none past the last.
    fn ident(&self, k: usize) -> Ident
        ensures { result ≡ slice_index_or (map ident_of self.now.idents.now) k blank_ident }
    {
        self.idents
            .get(k)
            .and_then(|ident| Ident::try_from(*ident).ok())
            .unwrap_or(Ident {
                name: Run { start: 0, len: 0 },
                pos: Position::NONE,
            })
    }

    // The link at a number.
    pub(crate) fn at(&self, k: usize) -> Link
        ensures { result ≡ new_link self.now.places.now self.now.idents.now k }
    {
        Link {
            place: self.place(k),
            ident: self.ident(k),
        }
    }
}
