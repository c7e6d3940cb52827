//! The text that a caller lends, and parts of it.
ghost use Rattle.std.specs.Prelude.{◌≡◌, ◌<◌, ◌≤◌, length, MatchResult};
ghost use Rattle.node.specs.Texts.{part_of};
ghost use Rattle.tree.specs.declared.limits.Memory.TheVariants.{Text};

use tree::limits::{Memory, MemoryFault};

/// Fault 1 where a text is longer than its limit, 65,535 bytes, and only there.
pub fn check_text(text: &[u8]) -> Result<(), MemoryFault>
    ensures { MatchResult result (λ _. length text.now ≤ 65535) (λ f. (65535 < length text.now) × (f.memory ≡ Text)) }
{
    Memory::Text.check(text.len())
}

/// The bytes of a text from `start` on, `len` of them so far as the text goes.
pub fn part(text: &[u8], start: usize, len: usize) -> &[u8]
    ensures { result.now ≡ part_of text.now start len }
{
    if start > text.len() {
        return &text[0..0];
    }
    if len > text.len() - start {
        return &text[start..];
    }
    &text[start..start + len]
}
