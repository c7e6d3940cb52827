//! What a fault tells: its number, and the layer that found it.
ghost use Rattle.std.specs.Prelude.{◌≡◌, ℕ};
ghost use Rattle.tree.specs.declared.faults.Layer.{Layer as Found};

/// The layer that found a fault.
#[derive(Clone, Copy, PartialEq, Eq, Debug)]
pub enum Layer {
    Text,
    Path,
    Literal,
    Script,
    Memory,
    Store,
    Table,
}

/// A fault of any layer.
pub trait Fault {
    ghost numbered: { Self → ℕ };

    ghost found: { Self → Found };

    /// Its number in the table of faults.
    fn number(&self) -> u8
        ensures { result ≡ numbered self.now };

    /// The layer that found it.
    fn layer(&self) -> Layer
        ensures { result ≡ found self.now };
}
