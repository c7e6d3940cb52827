//! Views of a lent text.
ghost use Rattle.std.specs.Prelude.{◌≡◌, ◌+◌, ◌<◌, ◌≤◌, length, Decides, MatchResult, ◌==◌};

use crate::faults::TextFault;
use crate::records::Run;

/// A run of a lent text, of which any number can be read at the same time.
#[derive(Clone, Copy)]
pub struct View<'a> {
    text: &'a [u8],
    run: Run,
    ghost fits: { run.start + run.len ≤ length text.now },
}

impl<'a> View<'a> {
    ghost use Rattle.node.specs.Texts.{Shows, viewed};

    /// The view of a run; fault 4 where the run ends beyond the text.
    pub fn new(text: &'a [u8], run: Run) -> Result<View<'a>, TextFault>
        ensures { MatchResult result (λ v. Shows text.now run v) (λ f. (length text.now < run.start + run.len) × (f.place ≡ 0)) }
    {
        if run.start as usize + run.len as usize <= text.len() {
            Ok(View { text, run })
        } else {
            Err(TextFault { place: 0 })
        }
    }

    /// Its bytes.
    pub fn bytes(&self) -> &'a [u8]
        ensures { result.now ≡ viewed self.now }
    {
        let start = self.run.start as usize;
        &self.text[start..start + self.run.len as usize]
    }

    /// How many bytes it has.
    pub fn len(&self) -> usize
        ensures { result ≡ length (viewed self.now) }
    {
        self.bytes().len()
    }

    /// Whether it has no bytes.
    pub fn is_empty(&self) -> bool
        ensures { result ≡ (length (viewed self.now) == 0) }
    {
        self.len() == 0
    }

    /// Whether its bytes are these.
    pub fn eq_bytes(&self, other: &[u8]) -> bool
        ensures { Decides result (viewed self.now ≡ other.now) }
    {
        self.bytes() == other
    }

    /// Whether its bytes are those of another view, of this text or of another.
    pub fn same_bytes(&self, other: &View<'_>) -> bool
        ensures { Decides result (viewed self.now ≡ viewed other.now) }
    {
        self.eq_bytes(other.bytes())
    }
}
