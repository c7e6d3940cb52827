//! The script table: its memory, its text, and what always holds of them.
ghost use Rattle.table.specs.Facts.{ArmsThere, Heights, HeightsFit, KidsKnown, KidsLower, KidsOnce, KidsSorted, KidsUnder, Lines, LinesFit, LinksFit, NodesFit, RunsFit, UpHolds, UpKnown, WalkedKnown, WalkedLower};
ghost use Rattle.table.specs.State.{state_of};
ghost use Rattle.std.specs.Prelude.{◌≤◌, length};

use crate::memory::Memory;

/// A table of a script's nodes over lent memory, with the one text that its names are runs of.
#[derive(Drop)]
pub struct Table<'a> {
    pub(crate) memory: Memory<'a>,
    pub(crate) text: &'a [u8],
    ghost text_fits: { length text.now ≤ 65535 },
    ghost nodes_fit: { NodesFit (state_of memory) },
    ghost links_fit: { LinksFit (state_of memory) },
    ghost runs_fit: { RunsFit (state_of memory) },
    ghost kids_known: { KidsKnown (state_of memory) },
    ghost kids_lower: { KidsLower (state_of memory) },
    ghost kids_under: { KidsUnder (state_of memory) },
    ghost kids_once: { KidsOnce (state_of memory) },
    ghost up_known: { UpKnown (state_of memory) },
    ghost up_holds: { UpHolds (state_of memory) },
    ghost kids_sorted: { KidsSorted (state_of memory) },
    ghost arms_there: { ArmsThere (state_of memory) },
    ghost heights: { Heights (state_of memory) },
    ghost heights_fit: { HeightsFit (state_of memory) },
    ghost lines: { Lines (state_of memory) },
    ghost lines_fit: { LinesFit (state_of memory) },
    ghost walked_known: { WalkedKnown (state_of memory) },
    ghost walked_lower: { WalkedLower (state_of memory) },
}
