//! The outline on standard input.
use outline::drafts::Draft;
use outline::outlines::Outline;
use std::io::{BufRead, BufReader};

/// Reads the lines of standard input into an outline.
pub fn read_outline(rt: &HostRuntime) -> anyhow::Result<Outline> {
    let heap = rt.alloc();
    let mut draft = Draft::new(heap);
    for line in BufReader::new(heap, rt.stdin())?.lines(heap) {
        let line = line?;
        draft = draft.add(line.as_str())?;
    }
    Ok(draft.finish()?)
}
