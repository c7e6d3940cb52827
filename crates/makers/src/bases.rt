//! What several makers begin with.
ghost use Rattle.makers.specs.Makers.{based, called, with_blocks};
ghost use Rattle.std.specs.Prelude.{◌≡◌};

use crate::parts::{Block, Qualified};
use draft::drafts::{Draft, RawIdent, RawKind};
use kind::kinds::Kind;
use node::positions::RawPosition;

// A draft with its kind, its position and the number of its expressions alone.
pub fn base(kind: Kind, position: Option<RawPosition>, head: usize) -> Draft
    ensures { result ≡ based kind position head }
{
    Draft {
        kind: RawKind::from(kind),
        flags: None,
        position,
        constant: None,
        body_span: None,
        branch_span: None,
        first: None,
        second: None,
        namespace: None,
        default: None,
        head,
        body: 0,
        branch: 0,
        arms: 0,
        values: 0,
        ranges: 0,
    }
}

// A draft with one expression, a body and a branch.
pub fn with_blocks(kind: Kind, body: Block, branch: Block, position: RawPosition) -> Draft
    ensures { result ≡ with_blocks kind body branch position }
{
    Draft {
        body: body.statements,
        body_span: Some(body.span),
        branch: branch.statements,
        branch_span: Some(branch.span),
        ..base(kind, Some(position), 1)
    }
}

// A draft with a name that may be qualified, and arguments.
pub fn called(kind: Kind, name: Qualified, arguments: usize, position: RawPosition) -> Draft
    ensures { result ≡ called kind name arguments position }
{
    Draft {
        first: Some(RawIdent::from(name.name)),
        namespace: name.namespace,
        ..base(kind, Some(position), arguments)
    }
}
