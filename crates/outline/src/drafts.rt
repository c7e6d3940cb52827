//! A draft: the entries of the lines read so far.
ghost use Rattle.std.specs.Prelude.{◌≤◌, vec_len};
ghost use Rattle.outline.specs.Items.{depths_of};
ghost use Rattle.outline.specs.Nesting.{Outermost, Stepwise, Within};

use crate::items::Item;
use std::alloc::Global;

/// An outline that is being read, a line at a time.
#[derive(Drop)]
pub struct Draft {
    pub(crate) heap: Global,
    // The entries by number.
    pub(crate) items: Vec<Item>,
    // How many lines were read, blank ones too.
    pub(crate) lines: usize,
    ghost few: { vec_len items ≤ 4096 },
    ghost outermost: { Outermost (depths_of items.items) },
    ghost stepwise: { Stepwise (depths_of items.items) },
    ghost within: { Within (depths_of items.items) },
}
