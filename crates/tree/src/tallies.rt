//! The tally: a visitor over any tree that counts lines.
ghost use Rattle.tree.specs.Counts.{Counted, one_more};
ghost use Rattle.tree.specs.Paths.{SameMemory};
ghost use Rattle.std.specs.Prelude.{◌≡◌, true};

use crate::stacks::PathStack;
use crate::trees::Tree;
use crate::visitors::Visitor;
use crate::walks::{WalkFault, walk};

/// How many lines were shown. It stays at 65,535.
#[derive(Clone, Copy, PartialEq, Eq, Debug)]
pub struct Tally {
    count: u16,
}

impl Tally {
    /// No line yet.
    pub fn new() -> Tally
        ensures { result.count ≡ 0 }
    {
        Tally { count: 0 }
    }

    /// How many lines were shown, or 65,535 where there were more.
    pub fn count(&self) -> u16
        ensures { result ≡ self.now.count }
    {
        self.count
    }
}

impl<T: Tree> Visitor<T> for Tally {
    ghost next = { λ tally tree path. one_more tally };

    ghost accepts = { λ tally tree path. true };

    fn visit(&mut self, _tree: &T, _path: &[T::Name]) -> bool {
        self.count = self.count.saturating_add(1);
        true
    }
}

/// The number of lines of descent from a start, or 65,535 where there are more. Refused as a walk is.
pub fn count_lines<T: Tree>(
    tree: &T,
    start: T::Name,
    path: &mut PathStack<'_, T::Name>,
) -> Result<u16, WalkFault<T::Name, T::Fault>>
    ensures count { Counted (T.known tree.now) (T.heights tree.now) (T.children tree.now) (T.missing tree.now) start path.old result path.new }
    ensures memory { SameMemory path.old path.new }
{
    let mut tally = Tally::new();
    walk(tree, start, path, &mut tally)?;
    Ok(tally.count)
}
