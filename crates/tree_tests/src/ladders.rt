//! Ladders: a tree of which nothing is stored, and in which children repeat.
ghost use Rattle.tree.specs.declared.faults.Layer.TheVariants.{Table};
ghost use Rattle.tree_tests.specs.Ladders.{children_on, height_on, known_on, missing_on};
ghost use Rattle.tree_tests.specs.Law.{ladder_law};

use tree::faults::{Fault, Layer};
use tree::trees::Tree;

/// A rung, by its number from the lowest, which is 1.
#[derive(Clone, Copy, PartialEq, Eq, Debug)]
pub struct Rung {
    pub height: u8,
}

/// Fault 2: the ladder has no such rung, or the rung no such child.
#[derive(Clone, Copy, PartialEq, Eq, Debug)]
pub struct NoRung {
    pub rung: Rung,
}

impl Fault for NoRung {
    ghost numbered = { λ _. 2 };

    ghost found = { λ _. Table };

    fn number(&self) -> u8 {
        2
    }

    fn layer(&self) -> Layer {
        Layer::Table
    }
}

/// A ladder of at most 64 rungs. Every child of a rung is the next lower one, and stands there `fan` times.
#[derive(Clone, Copy, PartialEq, Eq, Debug)]
pub struct Ladder {
    pub rungs: u8,
    pub fan: usize,
}

impl Tree for Ladder {
    type Name = Rung;

    type Fault = NoRung;

    ghost known = { known_on };

    ghost heights = { height_on };

    ghost children = { children_on };

    ghost missing = { missing_on };

    ghost lawful = { ladder_law };

    fn knows(&self, n: Rung) -> bool {
        1 <= n.height && n.height <= self.rungs.min(64)
    }

    fn height(&self, n: Rung) -> Result<usize, NoRung> {
        if self.knows(n) {
            Ok(usize::from(n.height))
        } else {
            Err(NoRung { rung: n })
        }
    }

    fn child_count(&self, n: Rung) -> Result<usize, NoRung> {
        if !self.knows(n) {
            return Err(NoRung { rung: n });
        }
        if 1 < n.height { Ok(self.fan) } else { Ok(0) }
    }

    fn child(&self, n: Rung, i: usize) -> Result<Rung, NoRung> {
        let count = self.child_count(n)?;
        if i < count {
            Ok(Rung {
                height: n.height - 1,
            })
        } else {
            Err(NoRung { rung: n })
        }
    }
}
