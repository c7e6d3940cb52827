//! What a tree is: four questions, and the law that their answers keep.
ghost use Rattle.std.specs.Prelude.{◌≡◌, ℕ, Bool, ◌&&◌, List, length, nat_lt};
ghost use Rattle.tree.specs.Answers.{told};
ghost use Rattle.tree.specs.Lines.{TreeLaw, child_of};

use crate::faults::Fault;

/// A tree, by what its names mean: which it knows, how high each is, which children each has.
pub trait Tree {
    /// What its nodes are named by.
    type Name: Copy;
    /// What it answers where it was asked for something that is not there.
    type Fault: Fault + Copy;

    ghost known: { Self → Self.Name → Bool };

    ghost heights: { Self → Self.Name → ℕ };

    ghost children: { Self → Self.Name → List Self.Name };

    // Fault 2 at a name, with the place and the layer that this tree gives it.
    ghost missing: { Self → Self.Name → Self.Fault };

    ghost lawful: { (t : Self) → TreeLaw (known t) (heights t) (children t) };

    /// Whether the tree knows a name.
    fn knows(&self, n: Self::Name) -> bool
        ensures { result ≡ known self.now n };

    /// The height of a known name; fault 2 at any other.
    fn height(&self, n: Self::Name) -> Result<usize, Self::Fault>
        ensures value { result ≡ told (known self.now n) (heights self.now n) (missing self.now n) }
        ensures number { Self.Fault.Fault.numbered (missing self.now n) ≡ 2 };

    /// How many children a known name has; fault 2 at any other.
    fn child_count(&self, n: Self::Name) -> Result<usize, Self::Fault>
        ensures value { result ≡ told (known self.now n) (length (children self.now n)) (missing self.now n) }
        ensures number { Self.Fault.Fault.numbered (missing self.now n) ≡ 2 };

    /// The child at a number, counted from 0; fault 2 at an unknown name or past the last child.
    fn child(&self, n: Self::Name, i: usize) -> Result<Self::Name, Self::Fault>
        ensures value { result ≡ told (known self.now n && nat_lt i (length (children self.now n))) (child_of (children self.now) n i) (missing self.now n) }
        ensures number { Self.Fault.Fault.numbered (missing self.now n) ≡ 2 };
}
