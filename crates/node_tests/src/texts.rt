//! Runs of a text, and views of them.
use draft::drafts::{Lying, RawRun};
use node::records::Run;
use node::texts::check_text;
use node::views::View;
use std::test::Fail;
use tree::faults::Fault;

#[test]
fn runs_within_a_text(rt: HostRuntime) {
    let table = [
        (0, 3, true),
        (3, 0, true),
        (2, 1, true),
        (2, 2, false),
        (4, 0, false),
        (1, usize::MAX, false),
        (usize::MAX, 1, false),
    ];
    for (start, len, within) in table {
        assert_eq!(rt; RawRun { start, len }.within(3), within);
    }
}

#[test]
fn views_side_by_side(rt: HostRuntime) -> Result<(), Fail> {
    let text = b"pump_on on";
    let short = View::new(text, Run { start: 5, len: 2 })?;
    let last = View::new(text, Run { start: 8, len: 2 })?;
    let long = View::new(text, Run { start: 0, len: 7 })?;
    assert!(rt; long.eq_bytes(b"pump_on"));
    assert!(rt; short.same_bytes(&last));
    assert!(rt; !short.same_bytes(&long));
    assert_eq!(rt; long.len(), 7);
    Ok(())
}

#[test]
fn views_beyond_a_text(rt: HostRuntime) -> Result<(), Fail> {
    for (start, len) in [(0, 4), (3, 1), (4, 0), (65535, 65535)] {
        match View::new(b"abc", Run { start, len }) {
            Ok(_) => return Err(Fail::new(start)),
            Err(fault) => assert!(rt; fault.number() == 4 && fault.place == 0),
        }
    }
    Ok(())
}

#[test]
fn texts_over_the_limit(rt: HostRuntime) -> Result<(), Fail> {
    let text = vec![in rt.alloc(); 0u8; 65536]?;
    assert!(rt; text.len() == 65536);
    assert!(rt; check_text(&text[0..65535]).is_ok());
    assert!(rt; check_text(&text).is_err());
    Ok(())
}
