//! Positions in a script: a line and a column, or none.
ghost use Rattle.node.specs.Positions.{begins_line, brief, column_of, if_given, in_place, in_place_span, is_none, is_none_span, line_of, or_else, placed, placed_span, position_at, span_text, worded};
ghost use Rattle.std.specs.List.{list_all};
ghost use Rattle.std.specs.Prelude.{◌≡◌, Bool, true, false, Some, MatchResult};

use crate::faults::TableFault;
use kind::kinds::NoKind;
use std::fmt;

/// A line and a column. Line 0 stands only in 0:0, which is no position.
#[derive(Clone, Copy, PartialEq, Eq)]
pub struct Position {
    line: u16,
    pos: u16,
}

/// Where something begins and where it ends.
#[derive(Clone, Copy, PartialEq, Eq)]
pub struct Span {
    start: Position,
    end: Position,
}

/// A line and a column as they are handed in: any numbers.
#[derive(Clone, Copy, PartialEq, Eq, Debug)]
pub struct RawPosition {
    pub line: u32,
    pub column: u32,
}

/// Two positions as they are handed in.
#[derive(Clone, Copy, PartialEq, Eq, Debug)]
pub struct RawSpan {
    pub start: RawPosition,
    pub end: RawPosition,
}

impl Position {
    /// No position.
    pub const NONE: Position = Position { line: 0, pos: 0 };

    /// The first position: the beginning of line 1.
    pub const START: Position = Position { line: 1, pos: 0 };

    /// The position at a line and a column, 0 for the beginning of the line; fault 3 at line 0.
    pub fn new(line: u16, position: u16) -> Result<Position, TableFault>
        ensures { result ≡ position_at line position }
    {
        if line == 0 {
            return Err(TableFault::Range(0));
        }
        Ok(Position {
            line,
            pos: position,
        })
    }

    /// The line, counted from 1; none where there is no position.
    pub fn line(self) -> Option<usize>
        ensures { result ≡ line_of self }
    {
        if self.is_none() {
            None
        } else {
            Some(self.line as usize)
        }
    }

    /// The column, counted from 1; none at the beginning of a line, and where there is no position.
    pub fn position(self) -> Option<usize>
        ensures { result ≡ column_of self }
    {
        if self.is_none() || self.pos == 0 {
            None
        } else {
            Some(self.pos as usize)
        }
    }

    /// Whether it is the beginning of a line.
    pub fn is_beginning_of_line(self) -> bool
        ensures { result ≡ begins_line self }
    {
        self.pos == 0 && !self.is_none()
    }

    /// Whether it is no position.
    pub fn is_none(self) -> bool
        ensures { result ≡ is_none self }
    {
        self.line == 0 && self.pos == 0
    }

    /// Itself, or `pos` where it is no position.
    pub fn or_else(self, pos: Position) -> Position
        ensures { result ≡ or_else self pos }
    {
        if self.is_none() { pos } else { self }
    }

    /// The same position, for `Display` to print as `Debug` does.
    pub fn brief(self) -> Brief
        ensures { result ≡ record { 0 = self } }
    {
        Brief(self)
    }
}

impl Span {
    /// Neither begin nor end.
    pub const NONE: Span = Span {
        start: Position { line: 0, pos: 0 },
        end: Position { line: 0, pos: 0 },
    };

    /// The span from one position to another.
    pub fn new(start: Position, end: Position) -> Span
        ensures { result ≡ record { start = start; end = end } }
    {
        Span { start, end }
    }

    /// Where it begins.
    pub fn start(self) -> Position
        ensures { result ≡ self.start }
    {
        self.start
    }

    /// Where it ends.
    pub fn end(self) -> Position
        ensures { result ≡ self.end }
    {
        self.end
    }

    /// Whether it neither begins nor ends.
    pub fn is_none(self) -> bool
        ensures { result ≡ is_none_span self }
    {
        self.start.is_none() && self.end.is_none()
    }
}

/// `none`, or the line and the column in words.
impl fmt::Display for Position {
    ghost output = { λ p. Some (worded p) };

    fn fmt<W: fmt::Write>(&self, f: &mut fmt::Formatter<W>) -> fmt::Result {
        if self.is_none() {
            write!(f, "none")
        } else {
            write!(f, "line {}, position {}", self.line, self.pos)
        }
    }
}

/// A position that `Display` prints as `Debug` does: a contract can speak of the one, and not of the other.
#[derive(Clone, Copy)]
pub struct Brief(pub Position);

/// `none`, the line at its beginning, or the line and the column with a colon between them.
impl fmt::Display for Brief {
    ghost output = { λ b. Some (brief b.0) };

    fn fmt<W: fmt::Write>(&self, f: &mut fmt::Formatter<W>) -> fmt::Result {
        let position = self.0;
        if position.is_none() {
            f.write_str("none")
        } else if position.is_beginning_of_line() {
            write!(f, "{}", position.line)
        } else {
            write!(f, "{}:{}", position.line, position.pos)
        }
    }
}

impl fmt::Debug for Position {
    fn fmt<W: fmt::Write>(&self, f: &mut fmt::Formatter<W>) -> fmt::Result {
        fmt::Display::fmt(&self.brief(), f)
    }
}

/// Begin and end as `Debug` prints them, with the line said once where it is the same.
impl fmt::Display for Span {
    ghost output = { λ s. Some (span_text s) };

    fn fmt<W: fmt::Write>(&self, f: &mut fmt::Formatter<W>) -> fmt::Result {
        match (self.start, self.end) {
            (Position::NONE, Position::NONE) => write!(f, "{}", Position::NONE.brief()),
            (Position::NONE, end) => write!(f, "..{}", end.brief()),
            (start, Position::NONE) => write!(f, "{}", start.brief()),
            (start, end) if start.line != end.line => {
                write!(f, "{}-{}", start.brief(), end.brief())
            }
            (start, end) => write!(f, "{}:{}-{}", start.line, start.pos, end.pos),
        }
    }
}

impl fmt::Debug for Span {
    fn fmt<W: fmt::Write>(&self, f: &mut fmt::Formatter<W>) -> fmt::Result {
        fmt::Display::fmt(self, f)
    }
}

/// What is handed in as plain numbers, which may be out of range.
pub trait Ranged {
    ghost ranged: { Self → Bool };

    /// Whether the numbers are in range.
    fn in_range(self) -> bool
        ensures { result ≡ ranged self };
}

/// Both numbers are at most 65,535, and line 0 stands in 0:0 alone.
impl Ranged for RawPosition {
    ghost ranged = { in_place };

    fn in_range(self) -> bool {
        self.line <= 65535 && self.column <= 65535 && (self.line != 0 || self.column == 0)
    }
}

/// Both positions are in range.
impl Ranged for RawSpan {
    ghost ranged = { in_place_span };

    fn in_range(self) -> bool {
        self.start.in_range() && self.end.in_range()
    }
}

/// What is not given is not out of range.
impl<R: Ranged> Ranged for Option<R> {
    ghost ranged = { if_given R.ranged };

    fn in_range(self) -> bool {
        match self {
            Some(raw) => raw.in_range(),
            None => true,
        }
    }
}

/// Every element is in range.
impl<'a, R: Ranged + Copy> Ranged for &'a [R] {
    ghost ranged = { λ raws. list_all R.ranged raws.now };

    fn in_range(self) -> bool {
        self.iter().all(|raw| raw.in_range())
    }
}

/// Numbers that are out of range, or too large to be kept.
#[derive(Clone, Copy, PartialEq, Eq, Debug)]
pub struct OutOfRange;

impl From<NoKind> for OutOfRange {
    fn from(_none: NoKind) -> OutOfRange {
        OutOfRange
    }
}

/// The position of numbers in range.
impl TryFrom<RawPosition> for Position {
    type Error = OutOfRange;

    ghost try_from_gives = { λ raw r. MatchResult r (λ p. (in_place raw ≡ true) × (p ≡ placed raw)) (λ _. in_place raw ≡ false) };

    fn try_from(raw: RawPosition) -> Result<Position, OutOfRange> {
        if raw.in_range() {
            Ok(Position {
                line: raw.line as u16,
                pos: raw.column as u16,
            })
        } else {
            Err(OutOfRange)
        }
    }
}

/// The span of two positions in range.
impl TryFrom<RawSpan> for Span {
    type Error = OutOfRange;

    ghost try_from_gives = { λ raw r. MatchResult r (λ s. (in_place_span raw ≡ true) × (s ≡ placed_span raw)) (λ _. in_place_span raw ≡ false) };

    fn try_from(raw: RawSpan) -> Result<Span, OutOfRange> {
        let start = Position::try_from(raw.start)?;
        let end = Position::try_from(raw.end)?;
        Ok(Span { start, end })
    }
}
