//! The walk over several names in turn, each from an empty path: all lines of one before those of the next.
ghost use Rattle.std.specs.Prelude.{◌≡◌};
ghost use Rattle.tree.specs.Answers.{passed_unless};
ghost use Rattle.tree.specs.Paths.{SameMemory, capacity_of};
ghost use Rattle.tree.specs.Forests.{WalkedEach, refusal_each};

use crate::paths::PathFault;
use crate::stacks::PathStack;
use crate::trees::Tree;
use crate::visitors::Visitor;
use crate::walks::{Outcome, WalkFault, all_known, show};

// The refusal that is due before anything is shown.
fn admit_each<T: Tree>(
    tree: &T,
    roots: &[T::Name],
    path: &PathStack<'_, T::Name>,
) -> Result<(), WalkFault<T::Name, T::Fault>>
    ensures { result ≡ passed_unless (refusal_each (T.known tree.now) (T.heights tree.now) (T.missing tree.now) roots.now (capacity_of path.now)) }
{
    all_known(tree, roots)?;
    for n in roots {
        if tree.height(*n)? > path.capacity() {
            return Err(WalkFault::Path(PathFault { place: *n }));
        }
    }
    Ok(())
}

/// Shows the lines of descent from several names in turn, each from an empty path.
///
/// Refused with fault 2 at the first name that the tree does not know, then with fault 9 at the first that is
/// higher than the path is long.
pub fn walk_each<T: Tree, V: Visitor<T>>(
    tree: &T,
    roots: &[T::Name],
    path: &mut PathStack<'_, T::Name>,
    visitor: &mut V,
) -> Result<Outcome, WalkFault<T::Name, T::Fault>>
    ensures law { WalkedEach (T.known tree.now) (T.heights tree.now) (T.children tree.now) (T.missing tree.now) (λ s q. V.next s tree.now q) (λ s q. V.accepts s tree.now q) roots.now path.old visitor.old result path.new visitor.new }
    ensures memory { SameMemory path.old path.new }
{
    admit_each(tree, roots, path)?;
    path.truncate(0);
    for n in roots {
        if let Outcome::Stopped = show(tree, *n, path, visitor) {
            return Ok(Outcome::Stopped);
        }
    }
    Ok(Outcome::Finished)
}
