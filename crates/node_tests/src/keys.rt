//! Whether keys are distinct.
use draft::drafts::{RawIdent, RawRun};
use draft::keys::keys_distinct;
use std::alloc::{AllocError, Global};
use std::process::Abort;
use std::test::Fail;

fn key(start: usize, len: usize) -> RawIdent {
    RawIdent {
        name: RawRun { start, len },
        pos: None,
    }
}

#[test]
fn few_keys(rt: HostRuntime) {
    let text = b"abcab";
    assert!(rt; keys_distinct(text, &[]));
    assert!(rt; keys_distinct(text, &[key(0, 2), key(0, 3), key(1, 2), key(0, 0)]));
    assert!(rt; !keys_distinct(text, &[key(0, 2), key(1, 2), key(3, 2)]));
    assert!(rt; !keys_distinct(text, &[key(1, 0), key(4, 0)]));
}

// The keys of two bytes at 0, 2, 4 and so on.
fn pairs(heap: Global, count: usize) -> Result<Vec<RawIdent>, AllocError> {
    (0..count)
        .map(|i| key(i.saturating_mul(2), 2))
        .collect(heap)
}

// So many keys of two bytes each are distinct, and are not once the last is that at the start.
fn many(rt: &impl Abort, heap: Global, count: usize) -> Result<(), Fail> {
    let mut text = Vec::new(heap);
    for i in 0..count {
        text.push((i / 256 % 256) as u8)?;
        text.push((i % 256) as u8)?;
    }
    let mut keys = pairs(heap, count)?;
    assert!(rt; keys_distinct(&text, &keys));
    let _ = keys.pop();
    keys.push(key(0, 2))?;
    assert!(rt; !keys_distinct(&text, &keys));
    Ok(())
}

#[test]
fn as_many_keys_as_a_table_holds(rt: HostRuntime) -> Result<(), Fail> {
    many(&rt, rt.alloc(), 4096)
}

#[test]
fn more_keys_than_a_table_holds(rt: HostRuntime) -> Result<(), Fail> {
    many(&rt, rt.alloc(), 4097)
}
