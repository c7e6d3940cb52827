//! Two visitors over an outline: one that records the lines shown, and one that looks for a text.
ghost use Rattle.outline.specs.Visits.{ends_at, noted, recorded, room_for};
ghost use Rattle.std.specs.Prelude.{◌≡◌, not};

use crate::entries::Entry;
use crate::outlines::Outline;
use tree::visitors::Visitor;

/// A line that was shown: the entry that it ends at, and how many names its path has.
#[derive(Clone, Copy, Debug)]
pub struct Shown {
    pub entry: Entry,
    pub names: usize,
}

/// Records the lines shown in lent memory, in their order. It says no to a line for which no room is left.
#[derive(Drop)]
pub struct Record<'a> {
    lines: &'a mut [Shown],
    len: usize,
}

impl<'a> Record<'a> {
    /// An empty record over lent memory.
    pub fn new(lines: &'a mut [Shown]) -> Record<'a>
        ensures { (result.len ≡ 0) × (result.lines.now ≡ lines.old) × (result.lines.ghost_name ≡ lines.entry.ghost_name) }
    {
        Record { lines, len: 0 }
    }

    /// The lines recorded, the first first.
    pub fn lines(&self) -> &[Shown]
        ensures { result.now ≡ recorded self.now }
    {
        let len = self.len.min(self.lines.len());
        &self.lines[..len]
    }
}

impl<'a> Visitor<Outline> for Record<'a> {
    ghost next = { λ s t p. noted s p };

    ghost accepts = { λ s t p. room_for s p };

    fn visit(&mut self, _tree: &Outline, path: &[Entry]) -> bool {
        let Some(entry) = path.last() else {
            return true;
        };
        if self.len >= self.lines.len() {
            return false;
        }
        self.lines[self.len] = Shown {
            entry: *entry,
            names: path.len(),
        };
        self.len += 1;
        true
    }
}

/// Looks for a text: it says no at a line that ends at an entry with that text.
#[derive(Clone, Copy)]
pub struct Seek<'w> {
    pub word: &'w str,
}

impl<'w> Visitor<Outline> for Seek<'w> {
    ghost next = { λ s t p. s };

    ghost accepts = { λ s t p. not (ends_at t p s.word.now) };

    fn visit(&mut self, tree: &Outline, path: &[Entry]) -> bool {
        !ends_at(tree, path, self.word)
    }
}

// Whether a path ends at an entry with a text.
fn ends_at(tree: &Outline, path: &[Entry], word: &str) -> bool
    ensures { result ≡ ends_at tree.now path.now word.now }
{
    path.last()
        .is_some_and(|entry| tree.text(*entry).is_ok_and(|text| text == word))
}
