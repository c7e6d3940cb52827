//! What one line of an outline says: its indent, its text, and how deep its entry is.
ghost use Rattle.std.specs.Prelude.{◌≡◌, ◌<◌, ◌≤◌, length, slice_index};
ghost use Rattle.outline.specs.Reading.{reading, spaces, text_end, text_of};

use crate::faults::Cause;

/// How many levels an outline has at most.
pub const LEVELS: usize = 64;

// How many spaces a line begins with.
fn indent(line: &str) -> usize
    ensures { result ≡ spaces line.now }
{
    line.len() - line.trim_start_matches(' ').len()
}

// Where the text of a line ends: at the spaces and carriage returns that close it.
fn end_of_text(line: &[u8]) -> usize
    ensures value { result ≡ text_end line.now }
    ensures within { result ≤ length line.now }
    ensures closes { result < length line.now → slice_index line.now result < 128 }
{
    let mut kept = line;
    while let [rest @ .., b' ' | b'\r'] = kept {
        kept = rest;
    }
    kept.len()
}

/// The text of a line: what stands after the indent, without the spaces and carriage returns at its end.
pub fn text(line: &str) -> &str
    ensures { result.now ≡ text_of line.now }
{
    let rest = line.trim_start_matches(' ');
    &rest[..end_of_text(rest.as_bytes())]
}

// How deep the entry of a line with this text is, or none where the text is empty.
pub(crate) fn depth_with(line: &str, text: &str, most: usize) -> Result<Option<usize>, Cause>
    requires { text.now ≡ text_of line.now }
    ensures { result ≡ reading line.now most }
{
    if text.is_empty() {
        return Ok(None);
    }
    let spaces = indent(line);
    let depth = spaces / 2;
    if text.starts_with('\t') {
        Err(Cause::Tab)
    } else if spaces % 2 == 1 {
        Err(Cause::Odd { spaces })
    } else if depth > most {
        Err(Cause::Skip {
            most: most * 2,
            spaces,
        })
    } else if depth >= LEVELS {
        Err(Cause::Deep)
    } else {
        Ok(Some(depth))
    }
}

/// How deep the entry of a line is, or none for a line without text. It is refused for a tab or an odd number
/// of spaces in its indent, then where it is over `most` levels deep, then where it is below level 64.
pub fn depth(line: &str, most: usize) -> Result<Option<usize>, Cause>
    ensures { result ≡ reading line.now most }
{
    depth_with(line, text(line), most)
}
