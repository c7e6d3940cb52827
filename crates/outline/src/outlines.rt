//! The outline: its entries by number, each with its children.
ghost use Rattle.std.specs.Prelude.{◌≡◌, ◌≤◌, vec_len};
ghost use Rattle.outline.specs.Items.{branch_depths, children_lists, heights_of};
ghost use Rattle.outline.specs.Nesting.{Measured, Outermost, Parented, Shallow, Stepwise, roots_of};

use crate::entries::Entry;
use crate::items::Branch;

/// An outline of at most 4,096 entries, in at most 64 levels.
#[derive(Drop)]
pub struct Outline {
    // The entries by number.
    pub(crate) branches: Vec<Branch>,
    // Those of the outermost level, in the order of their lines.
    pub(crate) roots: Vec<Entry>,
    ghost few: { vec_len branches ≤ 4096 },
    ghost outermost: { Outermost (branch_depths branches.items) },
    ghost stepwise: { Stepwise (branch_depths branches.items) },
    ghost parented: { Parented (branch_depths branches.items) (children_lists branches.items) },
    ghost measured: { Measured (branch_depths branches.items) (heights_of branches.items) },
    ghost shallow: { Shallow (branch_depths branches.items) (heights_of branches.items) },
    ghost rooted: { roots.items ≡ roots_of (branch_depths branches.items) },
}
