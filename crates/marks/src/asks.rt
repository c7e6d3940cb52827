//! What a table tells of a known node, with no fault left to handle.
ghost use Rattle.std.specs.Prelude.{◌≡◌, ◌<◌, true, false, length, MatchResult, slice_index_or};
ghost use Rattle.table.specs.Facts.{known};
ghost use Rattle.table.specs.Reads.{table_state};

use node::faults::TableFault;
use node::records::{Ident, Node};
use table::tables::Table;
use tree::trees::Tree;

/// A node that its table knows, by its place.
#[derive(Clone, Copy)]
pub(crate) struct KnownNode<'t, 'a> {
    pub(crate) table: &'t Table<'a>,
    pub(crate) n: usize,
    ghost is_known: { known (table_state table.now) n ≡ true },
}

impl<'t, 'a> KnownNode<'t, 'a> {
    ghost use Rattle.marks.specs.Answers.{NoExpr, NoNode};
    ghost use Rattle.marks.specs.Asks.{IsAt, IsKidAt, record_of, state};
    ghost use Rattle.kind.specs.Kinds.{is_stmt};
    ghost use Rattle.node.specs.Parts.{kids, links, references};
    ghost use Rattle.table.specs.Facts.{kid};
    ghost use Rattle.table.specs.Reads.{ident_at, reference_at};
    ghost use Rattle.table.specs.State.{children};

    /// The node at a place; fault 2 where the place names none.
    pub(crate) fn new(table: &'t Table<'a>, n: usize) -> Result<KnownNode<'t, 'a>, TableFault>
        ensures { MatchResult result (IsAt table.now n) (NoNode (table_state table.now) n) }
    {
        if table.knows(n) {
            Ok(KnownNode { table, n })
        } else {
            Err(TableFault::Missing(n))
        }
    }

    /// The expression at a place; fault 2 where the place names no node, fault 5 at a statement.
    pub(crate) fn expr(table: &'t Table<'a>, n: usize) -> Result<KnownNode<'t, 'a>, TableFault>
        ensures { MatchResult result (λ k. IsAt table.now n k × (is_stmt (record_of k).details.kind ≡ false)) (NoExpr (table_state table.now) n) }
    {
        let node = KnownNode::new(table, n)?;
        if node.record().details.kind.is_stmt() {
            Err(TableFault::Misfit(n))
        } else {
            Ok(node)
        }
    }

    /// Its record.
    pub(crate) fn record(&self) -> Node
        ensures { result ≡ record_of self.now }
    {
        self.table.node(self.n).unwrap()
    }

    /// The child that it holds at a number, walked or not.
    pub(crate) fn kid(&self, k: usize) -> KnownNode<'t, 'a>
        requires { k < kids (record_of self.now).parts }
        ensures { IsKidAt self.now (kid (state self.now) self.now.n k) result }
    {
        KnownNode {
            table: self.table,
            n: self.table.kid(self.n, k).unwrap(),
        }
    }

    /// How many children it has, in walk order.
    pub(crate) fn child_count(&self) -> usize
        ensures { result ≡ length (children (state self.now) self.now.n) }
    {
        self.table.child_count(self.n).unwrap()
    }

    /// Its child at a number, in walk order.
    pub(crate) fn child(&self, i: usize) -> KnownNode<'t, 'a>
        requires { i < length (children (state self.now) self.now.n) }
        ensures { IsAt self.now.table.now (slice_index_or (children (state self.now) self.now.n) i self.now.n) result }
    {
        KnownNode {
            table: self.table,
            n: self.table.child(self.n, i).unwrap(),
        }
    }

    /// The arm that its reference at a number names.
    pub(crate) fn reference(&self, k: usize) -> usize
        requires { k < references (record_of self.now).parts }
        ensures { result ≡ reference_at (state self.now) self.now.n k }
    {
        self.table.reference(self.n, k).unwrap()
    }

    /// The name that belongs to its link at a number.
    pub(crate) fn ident(&self, k: usize) -> Ident
        requires { k < links (record_of self.now).parts }
        ensures { result ≡ ident_at (state self.now) self.now.n k }
    {
        self.table.ident(self.n, k).unwrap()
    }
}
