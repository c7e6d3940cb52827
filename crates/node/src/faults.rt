//! The faults of the text, the store and the table.
ghost use Rattle.std.specs.Prelude.{◌≡◌, ℕ, Result};
ghost use Rattle.node.specs.Faults.{added, store_layer, store_number, table_layer, table_number, table_place, text_layer, text_number};
ghost use Rattle.node.specs.declared.faults.Lower.{Lower};
ghost use Rattle.node.specs.declared.faults.TableFault.TheVariants.{Store, Text};

use tree::faults::{Fault, Layer};

/// Fault 4: a run of the text ends beyond it.
#[derive(Clone, Copy, PartialEq, Eq, Debug)]
pub struct TextFault {
    pub place: usize,
}

/// A fault of the store of values.
#[derive(Clone, Copy, PartialEq, Eq, Debug)]
pub enum StoreFault {
    /// Fault 2: a place names no value.
    Missing(usize),
}

/// A fault of the script table, with its place; a lower fault whole, with the table's place.
#[derive(Clone, Copy, PartialEq, Eq, Debug)]
pub enum TableFault {
    /// Fault 2: a place names no node, or a child number is past the last.
    Missing(usize),
    /// Fault 3: a kind, flag set, Boolean, character or position is out of range.
    Range(usize),
    /// Fault 4, of the text.
    Text(TextFault, usize),
    /// Fault 5: the parts do not fit the kind.
    Misfit(usize),
    /// Fault 6: a child has a parent, or is named twice.
    Held(usize),
    /// Fault 7: too high, or too many lines of descent.
    Size(usize),
    /// Fault 8: too few unused nodes or links.
    Full(usize),
    /// Fault 2, of the store.
    Store(StoreFault, usize),
}

impl TableFault {
    /// The place that it names: the table's own.
    pub fn place(&self) -> usize
        ensures { result ≡ table_place self.now }
    {
        match self {
            TableFault::Missing(place)
            | TableFault::Range(place)
            | TableFault::Text(_, place)
            | TableFault::Misfit(place)
            | TableFault::Held(place)
            | TableFault::Size(place)
            | TableFault::Full(place)
            | TableFault::Store(_, place) => *place,
        }
    }
}

impl Fault for TextFault {
    ghost numbered = { text_number };

    ghost found = { text_layer };

    fn number(&self) -> u8 {
        4
    }

    fn layer(&self) -> Layer {
        Layer::Text
    }
}

impl Fault for StoreFault {
    ghost numbered = { store_number };

    ghost found = { store_layer };

    fn number(&self) -> u8 {
        match self {
            StoreFault::Missing(_) => 2,
        }
    }

    fn layer(&self) -> Layer {
        Layer::Store
    }
}

impl Fault for TableFault {
    ghost numbered = { table_number };

    ghost found = { table_layer };

    fn number(&self) -> u8 {
        match self {
            TableFault::Missing(_) => 2,
            TableFault::Range(_) => 3,
            TableFault::Text(fault, _) => fault.number(),
            TableFault::Misfit(_) => 5,
            TableFault::Held(_) => 6,
            TableFault::Size(_) => 7,
            TableFault::Full(_) => 8,
            TableFault::Store(fault, _) => fault.number(),
        }
    }

    fn layer(&self) -> Layer {
        match self {
            TableFault::Text(fault, _) => fault.layer(),
            TableFault::Store(fault, _) => fault.layer(),
            _ => Layer::Table,
        }
    }
}

/// A fault of a lower layer, with the place that an upper layer adds.
#[derive(Clone, Copy)]
pub struct Lower<F> {
    pub fault: F,
    pub place: usize,
}

/// Adds a place to the fault of a lower layer.
pub trait At<T, F> {
    ghost adds: { Self → ℕ → Result T (Lower F) };

    fn at(self, place: usize) -> Result<T, Lower<F>>
        ensures { result ≡ adds self place };
}

impl<T, F> At<T, F> for Result<T, F> {
    ghost adds = { added };

    fn at(self, place: usize) -> Result<T, Lower<F>> {
        self.map_err(|fault| Lower { fault, place })
    }
}

impl From<Lower<TextFault>> for TableFault {
    ghost from_gives = { λ low r. r ≡ Text low.fault low.place };

    fn from(low: Lower<TextFault>) -> TableFault {
        TableFault::Text(low.fault, low.place)
    }
}

impl From<Lower<StoreFault>> for TableFault {
    ghost from_gives = { λ low r. r ≡ Store low.fault low.place };

    fn from(low: Lower<StoreFault>) -> TableFault {
        TableFault::Store(low.fault, low.place)
    }
}
