//! Which entries are whose children, and how high each is: found from the last entry to the first, so that what is below
//! an entry is known before it.
ghost use Rattle.outline.specs.Building.{Nested};
ghost use Rattle.outline.specs.Items.{branch_depths, heights_of, items_of, lists_of};
ghost use Rattle.outline.specs.Nesting.{Stepwise, Within, highest};
ghost use Rattle.std.specs.Prelude.{◌≡◌, [], IfOk, OnOk, replicate, reverse, slice_index};

use crate::entries::Entry;
use crate::items::{Branch, Item};
use crate::lines::LEVELS;
use std::alloc::{AllocError, Global};

// The branches of some entries, each a leaf.
pub(crate) fn leaves(heap: Global, items: Vec<Item>) -> Result<Vec<Branch>, AllocError>
    ensures { IfOk result (λ branches. items_of branches.items ≡ items.items) }
{
    items
        .into_iter()
        .map(|item| Branch {
            item,
            height: 1,
            children: Vec::new(heap),
        })
        .collect(heap)
}

// An empty list for each level, and one for the level below the last.
fn levels(heap: Global) -> Result<Vec<Vec<Entry>>, AllocError>
    ensures { IfOk result (λ levels. lists_of levels.items ≡ replicate 65 []) }
{
    (0..LEVELS + 1).map(|_| Vec::new(heap)).collect(heap)
}

// Takes what is on a list, the last first, into memory for just so many.
fn taken(heap: Global, list: &mut Vec<Entry>) -> Result<Vec<Entry>, AllocError>
    ensures taken { IfOk result (λ taken. taken.items ≡ reverse list.old.items) }
    ensures left { OnOk result (list.new.items ≡ []) }
{
    let mut taken = Vec::from_slice(heap, list)?;
    taken.reverse();
    list.clear();
    Ok(taken)
}

// How high an entry is; 0 past the end.
fn height(branches: &[Branch], e: Entry) -> usize
    ensures { result ≡ slice_index (heights_of branches.now) e.number }
{
    branches.get(e.number).map_or(0, |branch| branch.height)
}

// The height of the highest of some entries; 0 of none.
fn highest(branches: &[Branch], entries: &[Entry]) -> usize
    ensures { result ≡ highest (heights_of branches.now) entries.now }
{
    entries
        .iter()
        .map(|e| height(branches, *e))
        .max()
        .unwrap_or(0)
}

// Gives each branch its children and its height, and answers with the outermost entries.
#[tactic(auto, using(crate::proofs::Nest::room, crate::proofs::Nest::nesting_none))]
pub(crate) fn nest(heap: Global, branches: &mut [Branch]) -> Result<Vec<Entry>, AllocError>
    requires stepwise { Stepwise (branch_depths branches.old) }
    requires within { Within (branch_depths branches.old) }
    ensures { IfOk result (λ roots. Nested branches.old branches.new roots.items) }
{
    // By level, the entries that have no parent yet, the last first.
    let mut free = levels(heap)?;
    for i in (0..branches.len()).rev() {
        let depth = branches[i].item.depth;
        let children = taken(heap, &mut free[depth + 1])?;
        let height = highest(branches, &children) + 1;
        let branch = &mut branches[i];
        branch.height = height;
        branch.children = children;
        free[depth].push(Entry { number: i })?;
    }
    taken(heap, &mut free[0])
}
