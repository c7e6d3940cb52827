//! Positions and spans: what they answer, what is printed of them, and where numbers are out of range.
ghost use Rattle.node.specs.Positions.{span_text, worded};
ghost use Rattle.std.specs.Prelude.{◌≡◌, IfOk, string_bytes};

use node::positions::{Position, Ranged, RawPosition, Span};
use std::alloc::{AllocError, Global};
use std::test::Fail;
use tree::faults::{Fault, Layer};

fn worded(heap: Global, position: Position) -> Result<String, AllocError>
    ensures { IfOk result (λ s. string_bytes s ≡ worded position) }
{
    format!(in heap; "{position}")
}

fn spanned(heap: Global, span: Span) -> Result<String, AllocError>
    ensures { IfOk result (λ s. string_bytes s ≡ span_text span) }
{
    format!(in heap; "{span}")
}

// The position at a line and a column; none at line 0.
fn at(line: u16, column: u16) -> Position {
    Position::new(line, column).unwrap_or(Position::NONE)
}

#[test]
fn positions_are_printed(rt: HostRuntime) -> Result<(), Fail> {
    let table = [
        (0, 0, "none", "none"),
        (1, 0, "line 1, position 0", "1"),
        (3, 5, "line 3, position 5", "3:5"),
        (65535, 65535, "line 65535, position 65535", "65535:65535"),
    ];
    for (line, column, words, numbers) in table {
        let position = at(line, column);
        assert!(rt; worded(rt.alloc(), position)?.as_str() == words);
        assert!(rt; format!(in rt.alloc(); "{position:?}")?.as_str() == numbers);
    }
    Ok(())
}

#[test]
fn spans_are_printed(rt: HostRuntime) -> Result<(), Fail> {
    let table = [
        (0, 0, 0, 0, "none"),
        (0, 0, 3, 5, "..3:5"),
        (3, 5, 0, 0, "3:5"),
        (3, 5, 4, 1, "3:5-4:1"),
        (3, 0, 4, 0, "3-4"),
        (3, 5, 3, 9, "3:5-9"),
        (3, 0, 3, 0, "3:0-0"),
    ];
    for (line, column, last, end, text) in table {
        let span = Span::new(at(line, column), at(last, end));
        assert!(rt; spanned(rt.alloc(), span)?.as_str() == text);
        assert!(rt; format!(in rt.alloc(); "{span:?}")?.as_str() == text);
    }
    Ok(())
}

#[test]
fn positions_answer(rt: HostRuntime) {
    let table = [
        (0, 0, None, None, false),
        (7, 0, Some(7), None, true),
        (7, 2, Some(7), Some(2), false),
    ];
    for (line, column, lines, columns, begins) in table {
        let position = at(line, column);
        assert_eq!(rt; position.line(), lines);
        assert_eq!(rt; position.position(), columns);
        assert_eq!(rt; position.is_beginning_of_line(), begins);
        assert_eq!(rt; position.is_none(), line == 0);
    }
}

#[test]
fn positions_stand_in(rt: HostRuntime) {
    let inner = at(7, 2);
    assert_eq!(rt; Position::NONE.or_else(inner), inner);
    assert_eq!(rt; inner.or_else(Position::START), inner);
    let span = Span::new(Position::NONE, inner);
    assert_eq!(rt; span.is_none(), false);
    assert_eq!(rt; span.end(), inner);
}

#[test]
fn line_zero_is_out_of_range(rt: HostRuntime) -> Result<(), Fail> {
    let Err(fault) = Position::new(0, 1) else {
        return Err(Fail::new("line 0 is a position"));
    };
    assert_eq!(rt; fault.number(), 3);
    assert_eq!(rt; fault.layer(), Layer::Table);
    assert_eq!(rt; fault.place(), 0);
    Ok(())
}

#[test]
fn positions_in_range(rt: HostRuntime) {
    let table = [
        (0, 0, true),
        (0, 1, false),
        (1, 0, true),
        (65535, 65535, true),
        (65536, 0, false),
        (1, 65536, false),
        (u32::MAX, u32::MAX, false),
    ];
    for (line, column, within) in table {
        let raw = RawPosition { line, column };
        assert_eq!(rt; raw.in_range(), within);
        assert_eq!(rt; Position::try_from(raw).is_ok(), within);
    }
}
