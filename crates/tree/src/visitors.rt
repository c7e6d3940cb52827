//! What a visitor is: a rule, and calls that follow it.
ghost use Rattle.std.specs.Prelude.{◌≡◌, Bool, List};

use crate::trees::Tree;

/// A visitor over a tree, by its rule: from what it holds, the tree and a path, what it holds next and yes or no.
pub trait Visitor<T: Tree> {
    // What it holds after it was shown a path.
    ghost next: { Self → T → List T.Name → Self };

    // Whether it says yes to a path.
    ghost accepts: { Self → T → List T.Name → Bool };

    /// Shows it a path. A yes accepts it, a no ends the walk there.
    fn visit(&mut self, tree: &T, path: &[T::Name]) -> bool
        ensures answer { result ≡ accepts self.old tree.now path.now }
        ensures holds { self.new ≡ next self.old tree.now path.now };
}
