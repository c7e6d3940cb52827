//! Whether the parts and data of a draft fit the shape of its kind.
ghost use Rattle.draft.specs.Fits.{default_fits, fits, fits_blocks, fits_extra, fits_head, fits_names, fits_value, handed, has_position, no_arms, value_of, with_position, without_position};
ghost use Rattle.std.specs.List.{list_all};
ghost use Rattle.std.specs.Prelude.{◌≡◌, ◌==◌, nat_lt};

use crate::drafts::{Draft, RawConstant, RawIdent};
use kind::shapes::{Blocks, Extra, Head, Names, Shape, Value};

// Whether a name is given with its position.
fn with_position(ident: Option<RawIdent>) -> bool
    ensures { result ≡ with_position ident }
{
    ident.is_some_and(|ident| ident.pos.is_some())
}

// Whether a name is given without a position.
fn without_position(ident: Option<RawIdent>) -> bool
    ensures { result ≡ without_position ident }
{
    ident.is_some_and(|ident| ident.pos.is_none())
}

// Whether a head may have so many expressions.
fn head_fits(head: Head, count: usize) -> bool
    ensures { result ≡ fits_head head count }
{
    match head {
        Head::None => count == 0,
        Head::Optional => count <= 1,
        Head::One => count == 1,
        Head::Two => count == 2,
        Head::Any => true,
        Head::Some => 1 <= count,
    }
}

// Whether lists of statements and their spans are those that the kind has.
fn blocks_fit(blocks: Option<Blocks>, draft: &Draft) -> bool
    ensures { result ≡ fits_blocks blocks draft.now }
{
    let body = draft.body_span.is_some();
    let branch = draft.branch_span.is_some();
    match blocks {
        None => draft.body == 0 && draft.branch == 0 && !body && !branch,
        Some(Blocks::List) => draft.branch == 0 && body && !branch,
        Some(Blocks::Walked | Blocks::Held | Blocks::Catch) => body && branch,
    }
}

// Which constant is given.
fn value_of(constant: RawConstant) -> Value
    ensures { result ≡ value_of constant }
{
    match constant {
        RawConstant::Stored(_) => Value::Stored,
        RawConstant::Bool(_) => Value::Bool,
        RawConstant::Integer(_) => Value::Integer,
        RawConstant::Float(_) => Value::Float,
        RawConstant::Char(_) => Value::Char,
        RawConstant::Text(_) => Value::Text,
    }
}

// Whether the constant given is the one that the kind has.
fn value_fits(value: Option<Value>, constant: Option<RawConstant>) -> bool
    ensures { result ≡ fits_value value constant }
{
    value == constant.map(value_of)
}

// Whether the names given are those that the kind has.
fn names_fit(names: Option<Names>, draft: &Draft) -> bool
    ensures { result ≡ fits_names names draft.now }
{
    let first = draft.first;
    let second = draft.second;
    let local = draft.namespace.is_none();
    match names {
        None => first.is_none() && second.is_none() && local,
        Some(Names::Plain) => without_position(first) && second.is_none() && local,
        Some(Names::Call) => without_position(first) && second.is_none(),
        Some(Names::One) => with_position(first) && second.is_none() && local,
        Some(Names::Counter) => with_position(first)
            && (second.is_none() || with_position(second))
            && local,
        Some(Names::Two) => with_position(first) && with_position(second) && local,
    }
}

// Whether arms, references and names in links are those that the kind has.
fn extra_fits(extra: Option<Extra>, draft: &Draft, idents: usize) -> bool
    ensures { result ≡ fits_extra extra draft.now idents }
{
    match extra {
        None => draft.no_arms() && idents == 0,
        Some(Extra::Keys) => draft.no_arms() && idents == draft.head,
        Some(Extra::Arms) => draft.default_fits() && idents == 0,
        Some(Extra::Shared) => draft.no_arms() && 1 <= idents,
    }
}

/// Whether each name has a position.
pub fn all_placed(idents: &[RawIdent]) -> bool
    ensures { result ≡ list_all has_position idents.now }
{
    idents.iter().all(|ident| ident.pos.is_some())
}

impl Draft {
    // Whether there are no arms, no references and no default.
    fn no_arms(&self) -> bool
        ensures { result ≡ no_arms self.now }
    {
        self.arms == 0 && self.values == 0 && self.ranges == 0 && self.default.is_none()
    }

    // Whether the default, if there is one, names an arm.
    fn default_fits(&self) -> bool
        ensures { result ≡ default_fits self.now }
    {
        self.default.is_none_or(|arm| arm < self.arms)
    }

    // Whether so many places are what the counts of its parts come to.
    fn counts(&self, places: usize) -> bool
        ensures { result ≡ (handed self.now == places) }
    {
        let sum = (self.head as u128)
            + self.body as u128
            + self.branch as u128
            + self.arms as u128
            + self.arms as u128
            + self.values as u128
            + self.ranges as u128;
        sum == places as u128
    }

    /// Whether each reference names an arm.
    pub fn arms_there(&self, references: &[usize]) -> bool
        ensures { result ≡ list_all (λ arm. nat_lt arm self.now.arms) references.now }
    {
        references.iter().all(|arm| *arm < self.arms)
    }

    /// Whether parts and data fit a shape, so far as that can be told without looking at the children:
    /// so many places and so many names for links are handed in beside it.
    pub fn fits(&self, shape: Shape, places: usize, idents: usize) -> bool
        ensures { result ≡ fits shape self.now places idents }
    {
        self.counts(places)
            & head_fits(shape.head, self.head)
            & blocks_fit(shape.blocks, self)
            & extra_fits(shape.extra, self, idents)
            & value_fits(shape.value, self.constant)
            & names_fit(shape.names, self)
            & (shape.flags == self.flags.is_some())
            & (shape.position == self.position.is_some())
    }
}
