//! Why a line of an outline is refused.
ghost use Rattle.outline.specs.Causes.{cause_text, fault_text};
ghost use Rattle.outline.specs.declared.faults.Cause.TheVariants.{Memory};
ghost use Rattle.std.specs.Prelude.{◌≡◌, Some};

use std::alloc::AllocError;
use std::error::Error;
use std::fmt;

/// What a line is refused for.
#[derive(Clone, Copy, PartialEq, Eq, Debug)]
pub enum Cause {
    /// A tab stands in the indent.
    Tab,
    /// The indent is an odd number of spaces.
    Odd { spaces: usize },
    /// The indent is over that of one level below the entry before.
    Skip { most: usize, spaces: usize },
    /// The entry would be below 64 levels.
    Deep,
    /// The entry would be one over 4,096.
    Full,
    /// There is no memory for the entry.
    Memory,
}

impl fmt::Display for Cause {
    ghost output = { λ c. Some (cause_text c) };

    fn fmt<W: fmt::Write>(&self, f: &mut fmt::Formatter<W>) -> fmt::Result {
        match self {
            Cause::Tab => f.write_str("expected an indent of spaces, found a tab"),
            Cause::Odd { spaces } => write!(
                f,
                "expected an indent of two spaces a level, found {spaces}"
            ),
            Cause::Skip { most, spaces } => write!(
                f,
                "expected an indent of at most {most} spaces here, found {spaces}"
            ),
            Cause::Deep => f.write_str("expected at most 64 levels, found one more"),
            Cause::Full => f.write_str("expected at most 4096 entries, found one more"),
            Cause::Memory => f.write_str("expected memory for the entry, found none"),
        }
    }
}

impl From<AllocError> for Cause {
    ghost from_gives = { λ _ cause. cause ≡ Memory };

    fn from(_: AllocError) -> Cause {
        Self::Memory
    }
}

/// A line that is refused, by its number from 1 on.
#[derive(Clone, Copy, PartialEq, Eq, Debug)]
pub struct OutlineFault {
    pub line: usize,
    pub cause: Cause,
}

impl fmt::Display for OutlineFault {
    ghost output = { λ f. Some (fault_text f) };

    fn fmt<W: fmt::Write>(&self, f: &mut fmt::Formatter<W>) -> fmt::Result {
        let line = self.line;
        let cause = self.cause;
        write!(f, "line {line}: {cause}")
    }
}

impl Error for OutlineFault {}
