//! The walk: every line of descent, shown once and in document order, up to the first no.
ghost use Rattle.std.specs.Prelude.{◌≡◌, ℕ, ◌+◌, ◌≤◌, true, length};
ghost use Rattle.tree.specs.Answers.{passed_unless};
ghost use Rattle.tree.specs.Faults.{walk_layer, walk_number};
ghost use Rattle.tree.specs.Paths.{SameMemory, capacity_of, names_of};
ghost use Rattle.tree.specs.Runs.{paths as shown_paths, refused_path, run};
ghost use Rattle.tree.specs.Walks.{Walked, first_missing, refusal};
ghost use Rattle.tree.specs.declared.walks.Outcome.TheVariants.{Finished};
ghost use Rattle.tree.specs.declared.walks.WalkFault.TheVariants.{Tree};

use crate::faults::{Fault, Layer};
use crate::paths::PathFault;
use crate::stacks::PathStack;
use crate::trees::Tree;
use crate::visitors::Visitor;

/// How a walk ended: every line shown, or stopped at a no.
#[derive(Clone, Copy, PartialEq, Eq, Debug)]
pub enum Outcome {
    Finished,
    Stopped,
}

/// A walk's refusal: the tree's own fault at an unknown name (2), or a path that is too short (9).
#[derive(Clone, Copy, PartialEq, Eq, Debug)]
pub enum WalkFault<N, F> {
    Tree(F),
    Path(PathFault<N>),
}

impl<N, F: Fault> Fault for WalkFault<N, F> {
    ghost numbered = { walk_number F.numbered };

    ghost found = { walk_layer F.found };

    fn number(&self) -> u8 {
        match self {
            WalkFault::Tree(fault) => fault.number(),
            WalkFault::Path(fault) => fault.number(),
        }
    }

    fn layer(&self) -> Layer {
        match self {
            WalkFault::Tree(fault) => fault.layer(),
            WalkFault::Path(fault) => fault.layer(),
        }
    }
}

/// A tree's own fault, as `?` passes it on.
impl<N, F> From<F> for WalkFault<N, F> {
    ghost from_gives = { λ f r. r ≡ Tree f };

    fn from(fault: F) -> WalkFault<N, F> {
        WalkFault::Tree(fault)
    }
}

// The tree's fault at the first name that it does not know.
pub(crate) fn all_known<T: Tree>(tree: &T, names: &[T::Name]) -> Result<(), T::Fault>
    ensures { result ≡ passed_unless (first_missing (T.known tree.now) (T.missing tree.now) names.now) }
{
    for n in names {
        tree.height(*n)?;
    }
    Ok(())
}

// Shows the lines from a known name, behind the path that leads to it.
pub(crate) fn show<T: Tree, V: Visitor<T>>(
    tree: &T,
    n: T::Name,
    path: &mut PathStack<'_, T::Name>,
    visitor: &mut V,
) -> Outcome
    requires known { T.known tree.now n ≡ true }
    requires room { length (names_of path.old) + T.heights tree.now n ≤ capacity_of path.old }
    ensures ran { (h : ℕ) → T.heights tree.now n ≤ h → run (λ s q. V.next s tree.now q) (λ s q. V.accepts s tree.now q) visitor.old (shown_paths (T.children tree.now) h (names_of path.old) n) ≡ (visitor.new, refused_path result (names_of path.new)) }
    ensures back { result ≡ Finished → names_of path.new ≡ names_of path.old }
    ensures memory { SameMemory path.old path.new }
{
    path.put(n);
    if !visitor.visit(tree, path.names()) {
        return Outcome::Stopped;
    }
    let count = tree.child_count(n).unwrap();
    for i in 0..count {
        let child = tree.child(n, i).unwrap();
        if let Outcome::Stopped = show(tree, child, path, visitor) {
            return Outcome::Stopped;
        }
    }
    let _ = path.pop();
    Outcome::Finished
}

// The refusal that is due before anything is shown.
fn admit<T: Tree>(
    tree: &T,
    start: T::Name,
    path: &PathStack<'_, T::Name>,
) -> Result<(), WalkFault<T::Name, T::Fault>>
    ensures { result ≡ passed_unless (refusal (T.known tree.now) (T.heights tree.now) (T.missing tree.now) start path.now) }
{
    let height = tree.height(start)?;
    all_known(tree, path.names())?;
    if path.len() + height > path.capacity() {
        return Err(WalkFault::Path(PathFault { place: start }));
    }
    Ok(())
}

/// Shows the lines of descent from a start, each by the initial path followed by the names along it.
///
/// Refused with fault 2 at the start or a name of the initial path that the tree does not know, then with
/// fault 9 where the path's length and the start's height are over its capacity.
pub fn walk<T: Tree, V: Visitor<T>>(
    tree: &T,
    start: T::Name,
    path: &mut PathStack<'_, T::Name>,
    visitor: &mut V,
) -> Result<Outcome, WalkFault<T::Name, T::Fault>>
    ensures law { Walked (T.known tree.now) (T.heights tree.now) (T.children tree.now) (T.missing tree.now) (λ s q. V.next s tree.now q) (λ s q. V.accepts s tree.now q) start path.old visitor.old result path.new visitor.new }
    ensures memory { SameMemory path.old path.new }
{
    admit(tree, start, path)?;
    Ok(show(tree, start, path, visitor))
}
