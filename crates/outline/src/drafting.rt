//! Adding lines to a draft, and making the outline of it.
ghost use Rattle.std.specs.Prelude.{◌≡◌, ◌<◌, ◌≤◌, [], IfOk, MatchResult, vec_len};
ghost use Rattle.outline.specs.Drafts.{Added, Denied, Finished, Grown, Longer, depths_in, judged};
ghost use Rattle.outline.specs.Nesting.{most_after};
ghost use Rattle.outline.specs.Reading.{text_of};

use crate::building::{leaves, nest};
use crate::drafts::Draft;
use crate::faults::{Cause, OutlineFault};
use crate::items::Item;
use crate::lines::{depth_with, text};
use crate::outlines::Outline;
use std::alloc::{AllocError, Global};

/// How many entries an outline has at most.
pub const ENTRIES: usize = 4096;

impl Draft {
    /// A draft without entries.
    pub fn new(heap: Global) -> Draft
        ensures { (result.items.items ≡ []) × (result.lines ≡ 0) }
    {
        Draft {
            heap,
            items: Vec::new(heap),
            lines: 0,
        }
    }

    // How deep the next entry may be: the first outermost, each other one level below the entry before.
    fn most(&self) -> usize
        ensures { result ≡ most_after (depths_in self.now) }
    {
        self.items.last().map_or(0, |item| item.depth + 1)
    }

    // How deep the entry of the next line is, or why the line is refused, where this is its text.
    fn judge(&self, line: &str, text: &str) -> Result<Option<usize>, Cause>
        requires { text.now ≡ text_of line.now }
        ensures { result ≡ judged self.now line.now }
    {
        match depth_with(line, text, self.most())? {
            Some(_) if self.items.len() >= ENTRIES => Err(Cause::Full),
            found => Ok(found),
        }
    }

    /// Adds the next line. A line without text is counted and adds no entry.
    ///
    /// Refused for an indent with a tab or an odd number of spaces, for an entry more than one level below the
    /// one before, below level 64 or over 4,096 entries, and where there is no memory; the draft is then gone.
    pub fn add(mut self, line: &str) -> Result<Draft, OutlineFault>
        ensures { Added self line.now result }
    {
        let number = self.lines.saturating_add(1);
        self.lines = number;
        self.grow(line).map_err(|cause| OutlineFault {
            line: number,
            cause,
        })
    }

    // Adds the entry of a line, if it has text.
    fn grow(self, line: &str) -> Result<Draft, Cause>
        ensures { MatchResult result (λ d. Grown (judged self line.now) self line.now d × (d.lines ≡ self.lines)) (λ cause. Denied (judged self line.now) cause) }
    {
        let text = text(line);
        match self.judge(line, text)? {
            Some(depth) => Ok(self.push(depth, text)?),
            None => Ok(self),
        }
    }

    /// The outline of the lines added. It fails only for want of memory.
    pub fn finish(self) -> Result<Outline, AllocError>
        ensures { IfOk result (λ o. Finished self o) }
    {
        let Draft { heap, items, .. } = self;
        let mut branches = leaves(heap, items)?;
        let roots = nest(heap, &mut branches)?;
        Ok(Outline { branches, roots })
    }

    // One entry more, where it is known to nest.
    fn push(mut self, depth: usize, text: &str) -> Result<Draft, AllocError>
        requires room { vec_len self.items < 4096 }
        requires within { depth < 64 }
        requires nests { depth ≤ most_after (depths_in self) }
        ensures { IfOk result (λ d. Longer self depth text.now d × (d.lines ≡ self.lines)) }
    {
        let text = String::from_str(self.heap, text)?;
        self.items.push(Item { depth, text })?;
        Ok(self)
    }
}
