//! The table is a tree: its names are places, counted from 0.
ghost use Rattle.table.specs.Trees.{table_children, table_height, table_knows, table_law, table_missing};

use crate::tables::Table;
use node::faults::TableFault;
use tree::trees::Tree;

impl<'a> Tree for Table<'a> {
    type Name = usize;

    type Fault = TableFault;

    ghost known = { table_knows };

    ghost heights = { table_height };

    ghost children = { table_children };

    ghost missing = { table_missing };

    ghost lawful = { table_law };

    fn knows(&self, n: usize) -> bool {
        n < self.memory.used
    }

    fn height(&self, n: usize) -> Result<usize, TableFault> {
        self.node(n).map(|node| node.height as usize)
    }

    fn child_count(&self, n: usize) -> Result<usize, TableFault> {
        let node = self.node(n)?;
        Ok(self.family(n, &node).child_count())
    }

    fn child(&self, n: usize, i: usize) -> Result<usize, TableFault> {
        let node = self.node(n)?;
        let family = self.family(n, &node);
        if i < family.child_count() {
            Ok(family.child(i))
        } else {
            Err(TableFault::Missing(n))
        }
    }
}
