//! What an outline answers: its entries and their texts, and the four questions of a tree.
ghost use Rattle.outline.specs.Law.{outline_law};
ghost use Rattle.outline.specs.Nesting.{roots_of};
ghost use Rattle.outline.specs.Trees.{IsBranch, children_in, depths_in, height_in, known_in, missing_in, text_in};
ghost use Rattle.std.specs.Prelude.{◌≡◌, true, false, vec_len, MatchResult};

use crate::entries::{Entry, NoEntry};
use crate::items::Branch;
use crate::outlines::Outline;
use tree::trees::Tree;

impl Outline {
    /// How many entries there are.
    pub fn len(&self) -> usize
        ensures { result ≡ vec_len self.now.branches }
    {
        self.branches.len()
    }

    /// The entries of the outermost level, in the order of their lines.
    pub fn roots(&self) -> &[Entry]
        ensures { result.now ≡ roots_of (depths_in self.now) }
    {
        self.roots.as_slice()
    }

    /// The text of an entry; fault 2 at one that the outline does not have.
    pub fn text(&self, e: Entry) -> Result<&str, NoEntry>
        ensures { MatchResult result (λ t. (known_in self.now e ≡ true) × (t.now ≡ text_in self.now e)) (λ f. (known_in self.now e ≡ false) × (f ≡ missing_in self.now e)) }
    {
        Ok(self.branch(e)?.item.text.as_str())
    }

    // The branch of an entry.
    fn branch(&self, e: Entry) -> Result<&Branch, NoEntry>
        ensures { MatchResult result (λ b. (known_in self.now e ≡ true) × IsBranch self.now e b.now) (λ f. (known_in self.now e ≡ false) × (f ≡ missing_in self.now e)) }
    {
        self.branches.get(e.number).ok_or(NoEntry { entry: e })
    }
}

impl Tree for Outline {
    type Name = Entry;

    type Fault = NoEntry;

    ghost known = { known_in };

    ghost heights = { height_in };

    ghost children = { children_in };

    ghost missing = { missing_in };

    ghost lawful = { outline_law };

    fn knows(&self, e: Entry) -> bool {
        e.number < self.len()
    }

    fn height(&self, e: Entry) -> Result<usize, NoEntry> {
        Ok(self.branch(e)?.height)
    }

    fn child_count(&self, e: Entry) -> Result<usize, NoEntry> {
        Ok(self.branch(e)?.children.len())
    }

    fn child(&self, e: Entry, i: usize) -> Result<Entry, NoEntry> {
        self.branch(e)?
            .children
            .get(i)
            .copied()
            .ok_or(NoEntry { entry: e })
    }
}
