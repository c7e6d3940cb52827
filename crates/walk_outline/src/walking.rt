//! The walks over an outline, from each of its outermost entries.
use crate::printing::print_path;
use anyhow::anyhow;
use outline::entries::Entry;
use outline::lines::LEVELS;
use outline::outlines::Outline;
use outline::visitors::{Record, Seek, Shown};
use std::alloc::Global;
use tree::forests::walk_each;
use tree::paths::check_memory;
use tree::stacks::PathStack;
use tree::visitors::Visitor;
use tree::walks::Outcome;

// Memory for a path through every level.
fn names(heap: Global) -> anyhow::Result<Vec<Entry>> {
    let names = vec![in heap; Entry { number: 0 }; LEVELS]?;
    check_memory(&names).map_err(|_| anyhow!("the memory for the path is over its limit"))?;
    Ok(names)
}

// Walks from each outermost entry in turn, up to the first no.
fn walk_roots<V: Visitor<Outline>>(
    outline: &Outline,
    path: &mut PathStack<'_, Entry>,
    visitor: &mut V,
) -> anyhow::Result<Outcome> {
    walk_each(outline, outline.roots(), path, visitor).map_err(|_| anyhow!(
        "the outline is too high for the path"
    ))
}

// Prints the path of each line recorded: a line's path is the start of the path before it, and its own entry.
fn print_lines(rt: &HostRuntime, outline: &Outline, lines: &[Shown]) -> anyhow::Result<()> {
    let mut path = Vec::new(rt.alloc());
    for line in lines {
        path.truncate(line.names.saturating_sub(1));
        path.push(line.entry)?;
        print_path(rt, outline, path.as_slice())?;
    }
    let count = lines.len();
    println!(rt; "{count} lines")?;
    Ok(())
}

/// Prints the path of every line, and how many lines there are.
pub fn print_all(rt: &HostRuntime, outline: &Outline) -> anyhow::Result<()> {
    let mut names = names(rt.alloc())?;
    let blank = Shown {
        entry: Entry { number: 0 },
        names: 0,
    };
    let mut memory = vec![in rt.alloc(); blank; outline.len()]?;
    let mut path = PathStack::new(names.as_mut_slice());
    let mut record = Record::new(memory.as_mut_slice());
    match walk_roots(outline, &mut path, &mut record)? {
        Outcome::Finished => print_lines(rt, outline, record.lines()),
        Outcome::Stopped => Err(anyhow!("the outline has more lines than entries")),
    }
}

/// Prints the path of the first line that ends at an entry with a text, or that there is none.
pub fn print_first(rt: &HostRuntime, outline: &Outline, word: &str) -> anyhow::Result<()> {
    let mut names = names(rt.alloc())?;
    let mut path = PathStack::new(names.as_mut_slice());
    let mut seek = Seek { word };
    match walk_roots(outline, &mut path, &mut seek)? {
        Outcome::Stopped => print_path(rt, outline, path.names()),
        Outcome::Finished => {
            println!(rt; "no line ends at {word}")?;
            Ok(())
        }
    }
}
