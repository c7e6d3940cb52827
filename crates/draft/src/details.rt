//! From the plain numbers of a draft to what is kept of it.
ghost use Rattle.std.specs.Prelude.{◌≡◌, true, false, ◌&&◌, Some, None, Ok, Err, MatchOption, MatchResult, nat_lt};
ghost use Rattle.draft.specs.Details.{constant_of, details_of, first_kept, ident_of, keepable, kind_of, payload_kept, payload_of, run_of, second_kept, second_of, small_constant};
ghost use Rattle.std.specs.Option.{option_map};
ghost use Rattle.draft.specs.Drafts.{constant_in_range, constant_within, flags_in_range, ident_in_range, ident_within, kind_in_range, run_within};
ghost use Rattle.node.specs.Positions.{if_given};

use crate::drafts::{Draft, Lying, RawConstant, RawFlags, RawIdent, RawKind, RawRun};
use kind::kinds::{ExprKind, Kind, StmtKind};
use node::flags::ASTFlags;
use node::positions::{OutOfRange, Position, Span};
use node::records::{Constant, Details, Ident, Payload, Run, Second};

/// The kind of a number.
impl TryFrom<RawKind> for Kind {
    type Error = OutOfRange;

    ghost try_from_gives = { λ raw r. MatchResult r (λ k. (kind_in_range raw ≡ true) × (k ≡ kind_of raw)) (λ _. kind_in_range raw ≡ false) };

    fn try_from(raw: RawKind) -> Result<Kind, OutOfRange> {
        Ok(match raw {
            RawKind::Stmt(number) => Kind::Stmt(StmtKind::try_from(number)?),
            RawKind::Expr(number) => Kind::Expr(ExprKind::try_from(number)?),
        })
    }
}

/// The set of flags of a number.
impl TryFrom<RawFlags> for ASTFlags {
    type Error = OutOfRange;

    ghost try_from_gives = { λ raw r. MatchResult r (λ f. (flags_in_range raw ≡ true) × (f.bits ≡ raw.bits)) (λ _. flags_in_range raw ≡ false) };

    fn try_from(raw: RawFlags) -> Result<ASTFlags, OutOfRange> {
        ASTFlags::from_bits(raw.bits).ok_or(OutOfRange)
    }
}

/// The run, where a text can be so long.
impl TryFrom<RawRun> for Run {
    type Error = OutOfRange;

    ghost try_from_gives = { λ raw r. MatchResult r (λ run. (run_within 65535 raw ≡ true) × (run ≡ run_of raw)) (λ _. run_within 65535 raw ≡ false) };

    fn try_from(raw: RawRun) -> Result<Run, OutOfRange> {
        if raw.within(65535) {
            Ok(Run {
                start: raw.start as u16,
                len: raw.len as u16,
            })
        } else {
            Err(OutOfRange)
        }
    }
}

// What is given, as it is kept; else what stands where nothing is given.
fn kept_or<R, K: TryFrom<R, Error = OutOfRange> + Drop>(
    given: Option<R>,
    nothing: K,
) -> Result<K, OutOfRange>
    ensures { MatchOption given (result ≡ Ok nothing) (λ raw. K.try_from_gives raw result) }
{
    match given {
        Some(raw) => K::try_from(raw),
        None => Ok(nothing),
    }
}

/// The name, where its position is in range and a text can be so long.
impl TryFrom<RawIdent> for Ident {
    type Error = OutOfRange;

    ghost try_from_gives = { λ raw r. MatchResult r (λ i. (ident_in_range raw ≡ true) × (ident_within 65535 raw ≡ true) × (i ≡ ident_of raw)) (λ _. (ident_in_range raw && ident_within 65535 raw) ≡ false) };

    fn try_from(raw: RawIdent) -> Result<Ident, OutOfRange> {
        Ok(Ident {
            name: Run::try_from(raw.name)?,
            pos: kept_or(raw.pos, Position::NONE)?,
        })
    }
}

/// The constant, where its number is in range and small enough, and a text can be so long.
impl TryFrom<RawConstant> for Constant {
    type Error = OutOfRange;

    ghost try_from_gives = { λ raw r. MatchResult r (λ c. (constant_in_range raw ≡ true) × (constant_within 65535 raw ≡ true) × (small_constant raw ≡ true) × (c ≡ constant_of raw)) (λ _. (constant_in_range raw && constant_within 65535 raw && small_constant raw) ≡ false) };

    fn try_from(raw: RawConstant) -> Result<Constant, OutOfRange> {
        Ok(match raw {
            RawConstant::Stored(place) => Constant::Stored(u16::try_from(place).map_err(
                |_| OutOfRange,
            )?),
            RawConstant::Bool(0) => Constant::Bool(false),
            RawConstant::Bool(1) => Constant::Bool(true),
            RawConstant::Bool(_) => return Err(OutOfRange),
            RawConstant::Integer(i) => Constant::Integer(i),
            RawConstant::Float(x) => Constant::Float(x),
            RawConstant::Char(code) => Constant::Char(char::from_u32(code).ok_or(OutOfRange)?),
            RawConstant::Text(run) => Constant::Text(Run::try_from(run)?),
        })
    }
}

// What is given, as it is kept; nothing where nothing is given.
fn kept<R, K: TryFrom<R, Error = OutOfRange> + Drop>(
    given: Option<R>,
) -> Result<Option<K>, OutOfRange>
    ensures { MatchOption given (result ≡ Ok None) (λ raw. MatchResult result (λ o. (k : K) × K.try_from_gives raw (Ok k) × (o ≡ Some k)) (λ e. K.try_from_gives raw (Err e))) }
{
    match given {
        Some(raw) => Ok(Some(K::try_from(raw)?)),
        None => Ok(None),
    }
}

// The number of an arm, where it is small enough to be kept.
fn default_kept(given: Option<usize>) -> Result<Option<u16>, OutOfRange>
    ensures { MatchResult result (λ o. (if_given (λ arm. nat_lt arm 65536) given ≡ true) × (o ≡ given)) (λ _. if_given (λ arm. nat_lt arm 65536) given ≡ false) }
{
    match given {
        Some(arm) => Ok(Some(u16::try_from(arm).map_err(|_| OutOfRange)?)),
        None => Ok(None),
    }
}

impl Draft {
    // The constant, or the spans of blocks.
    fn payload(&self) -> Result<Option<Payload>, OutOfRange>
        ensures { MatchResult result (λ p. (payload_kept self.now ≡ true) × (p ≡ payload_of self.now.constant self.now.body_span self.now.branch_span)) (λ _. payload_kept self.now ≡ false) }
    {
        let constant: Option<Constant> = kept(self.constant)?;
        let body: Option<Span> = kept(self.body_span)?;
        let branch = kept_or(self.branch_span, Span::NONE)?;
        let spans = body.map(|body| Payload::Spans(body, branch));
        Ok(constant.map(Payload::Constant).or(spans))
    }

    // The first name.
    fn first(&self) -> Result<Option<Ident>, OutOfRange>
        ensures { MatchResult result (λ i. (first_kept self.now ≡ true) × (i ≡ option_map ident_of self.now.first)) (λ _. first_kept self.now ≡ false) }
    {
        kept(self.first)
    }

    // A second name, the position of a namespace or a default arm.
    fn second(&self) -> Result<Option<Second>, OutOfRange>
        ensures { MatchResult result (λ s. (second_kept self.now ≡ true) × (s ≡ second_of self.now.second self.now.namespace self.now.default)) (λ _. second_kept self.now ≡ false) }
    {
        let name: Option<Ident> = kept(self.second)?;
        let namespace: Option<Position> = kept(self.namespace)?;
        let default = default_kept(self.default)?.map(Second::Default);
        Ok(
            name.map(Second::Name)
                .or(namespace.map(Second::Namespace))
                .or(default),
        )
    }

    /// What is kept of it, where every number is in range and small enough.
    pub fn details(&self) -> Result<Details, OutOfRange>
        ensures { MatchResult result (λ d. (keepable self.now ≡ true) × (d ≡ details_of self.now)) (λ _. keepable self.now ≡ false) }
    {
        Ok(Details {
            kind: Kind::try_from(self.kind)?,
            flags: kept_or(self.flags, ASTFlags::NONE)?,
            position: kept_or(self.position, Position::NONE)?,
            payload: self.payload()?,
            first: self.first()?,
            second: self.second()?,
        })
    }
}
