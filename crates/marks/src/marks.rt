//! The marks of a table: whether an expression is constant, and whether a node is pure.
ghost use Rattle.std.specs.Prelude.{ℕ, Bool, Result};
ghost use Rattle.marks.specs.Answers.{TableConstant, TablePure};
ghost use Rattle.node.specs.declared.faults.TableFault.{TableFault};

use crate::asks::KnownNode;
use node::faults::TableFault;
use table::seen::Seen;
use table::tables::Table;

/// What is asked for marks.
pub trait Marks {
    ghost constant: { Self → ℕ → Result Bool TableFault → Type 0 };

    ghost pure: { Self → ℕ → Result Bool TableFault → Type 0 };

    /// Whether an expression is constant: whether each line from it ends in a constant or list kind.
    /// Fault 2 at an unknown place, fault 5 at a statement.
    fn is_constant(&self, n: usize) -> Result<bool, TableFault>
        ensures { constant self.now n result };

    /// Whether a node is pure: whether each counted line from it ends at a harmless node. Fault 2 at an unknown place.
    fn is_pure(&self, n: usize) -> Result<bool, TableFault>
        ensures { pure self.now n result };
}

impl<'a> Marks for Table<'a> {
    ghost constant = { TableConstant };

    ghost pure = { TablePure };

    fn is_constant(&self, n: usize) -> Result<bool, TableFault> {
        let node = KnownNode::expr(self, n)?;
        Ok(node.is_constant())
    }

    fn is_pure(&self, n: usize) -> Result<bool, TableFault> {
        Ok(KnownNode::new(self, n)?.is_pure(&mut Seen::none()))
    }
}
