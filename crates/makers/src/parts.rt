//! What makers are handed.
ghost use Rattle.makers.specs.Makers.{placed};
ghost use Rattle.std.specs.Prelude.{◌≡◌};

use draft::drafts::{RawIdent, RawRun};
use node::positions::{RawPosition, RawSpan};

/// A list of statements: how many there are, and where it begins and ends.
#[derive(Clone, Copy)]
pub struct Block {
    pub statements: usize,
    pub span: RawSpan,
}

/// A name with its position.
#[derive(Clone, Copy)]
pub struct Placed {
    pub name: RawRun,
    pub pos: RawPosition,
}

/// The name as a draft holds it, and as keys and shared names are handed in.
impl From<Placed> for RawIdent {
    ghost from_gives = { λ name r. r ≡ placed name };

    fn from(name: Placed) -> RawIdent {
        RawIdent {
            name: name.name,
            pos: Some(name.pos),
        }
    }
}

/// A name that may be qualified: then the position of its namespace is given.
#[derive(Clone, Copy)]
pub struct Qualified {
    pub name: RawRun,
    pub namespace: Option<RawPosition>,
}

/// The arms of a switch, how many values and ranges refer to them, and the number of the default arm.
#[derive(Clone, Copy)]
pub struct Arms {
    pub arms: usize,
    pub values: usize,
    pub ranges: usize,
    pub default: Option<usize>,
}
