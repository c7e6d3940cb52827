//! A visitor that says no once.
ghost use Rattle.tree_tests.specs.Halts.{goes_on, one_shown};
ghost use Rattle.std.specs.Prelude.{◌≡◌};

use tree::trees::Tree;
use tree::visitors::Visitor;

/// Says no at the line of a number, counted from 1, and yes at every other. At 0 it always says yes.
#[derive(Clone, Copy, PartialEq, Eq, Debug)]
pub struct Halt {
    at: u16,
    shown: u16,
}

impl Halt {
    /// Nothing shown yet.
    pub fn new(at: u16) -> Halt
        ensures { (result.at ≡ at) × (result.shown ≡ 0) }
    {
        Halt { at, shown: 0 }
    }

    /// How many lines were shown.
    pub fn shown(&self) -> u16
        ensures { result ≡ self.now.shown }
    {
        self.shown
    }
}

impl<T: Tree> Visitor<T> for Halt {
    ghost next = { λ halt tree path. one_shown halt };

    ghost accepts = { λ halt tree path. goes_on halt };

    fn visit(&mut self, _tree: &T, _path: &[T::Name]) -> bool {
        self.shown = self.shown.saturating_add(1);
        self.shown != self.at
    }
}
