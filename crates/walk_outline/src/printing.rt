//! Paths as text.
use outline::entries::Entry;
use outline::outlines::Outline;

/// Prints the texts of a path's entries, joined by ` > `.
pub fn print_path(rt: &HostRuntime, outline: &Outline, path: &[Entry]) -> anyhow::Result<()> {
    let mut line = String::new(rt.alloc());
    for entry in path {
        if !line.is_empty() {
            line.push_str(" > ")?;
        }
        if let Ok(text) = outline.text(*entry) {
            line.push_str(text)?;
        }
    }
    println!(rt; "{line}")?;
    Ok(())
}
