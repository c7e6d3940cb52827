//! The parts of a node to be put as they are kept, and whether its height and lines fit.
ghost use Rattle.std.specs.Prelude.{◌≡◌, ◌+◌, ◌≤◌, ◌&&◌, nat_le};
ghost use Rattle.table.specs.Puts.{shared_of};

use crate::measures::Measure;
use draft::drafts::Draft;
use kind::shapes::Extra;
use node::records::Parts;

// How many links shared names take.
pub(crate) fn shared_count(extra: Option<Extra>, idents: usize) -> usize
    ensures { result ≡ shared_of extra idents }
{
    match extra {
        Some(Extra::Shared) => idents,
        Some(Extra::Keys | Extra::Arms) | None => 0,
    }
}

// The parts of a draft, whose counts fit.
pub(crate) fn narrow(draft: &Draft, start: usize, shared: usize) -> Parts
    requires start { start ≤ 65535 }
    requires shared { shared ≤ 65535 }
    requires kids { draft.now.head + draft.now.body + draft.now.branch + draft.now.arms ≤ 65535 }
    requires references { draft.now.values + draft.now.ranges ≤ 65535 }
    ensures { result ≡ record { start = start; head = draft.now.head; body = draft.now.body; branch = draft.now.branch; arms = draft.now.arms; values = draft.now.values; ranges = draft.now.ranges; shared = shared } }
{
    Parts {
        start: start as u16,
        head: draft.head as u16,
        body: draft.body as u16,
        branch: draft.branch as u16,
        arms: draft.arms as u16,
        values: draft.values as u16,
        ranges: draft.ranges as u16,
        shared: shared as u16,
    }
}

impl Measure {
    // Whether a node may be so high and have so many lines.
    pub(crate) fn fits(self) -> bool
        ensures { result ≡ nat_le self.height 64 && nat_le self.lines 65535 }
    {
        self.height <= 64 && self.lines <= 65535
    }
}
