//! Whether no key of a map stands twice.
ghost use Rattle.std.specs.Prelude.{◌≡◌, ◌<◌, ◌≤◌, length, Decides};
ghost use Rattle.draft.specs.Buckets.{Chained, bucket_at, bucket_of, last_in};
ghost use Rattle.draft.specs.Keys.{Among, Distinct, key_bytes};

use crate::drafts::RawIdent;
use node::texts::part;

// How many buckets there are.
const BUCKETS: usize = 1024;

// How many keys are put into buckets at most.
const CHAINED: usize = 4096;

// How many keys are few: for these less memory is made ready.
const FEW: usize = 256;

impl RawIdent {
    /// The bytes of its name, so far as the text goes.
    pub fn bytes(self, text: &[u8]) -> &[u8]
        ensures { result.now ≡ key_bytes text.now self }
    {
        part(text, self.name.start, self.name.len)
    }

    /// Whether its name has these bytes.
    pub fn has_bytes(self, text: &[u8], bytes: &[u8]) -> bool
        ensures { Decides result (key_bytes text.now self ≡ bytes.now) }
    {
        self.bytes(text) == bytes
    }
}

// Whether one of some keys has these bytes.
fn among(text: &[u8], keys: &[RawIdent], bytes: &[u8]) -> bool
    ensures { Decides result (Among text.now keys.now bytes.now) }
{
    keys.iter().any(|key| key.has_bytes(text, bytes))
}

// By comparing each key with all before it.
fn distinct_by_pairs(text: &[u8], keys: &[RawIdent]) -> bool
    ensures { Decides result (Distinct text.now keys.now) }
{
    for (i, key) in keys.iter().enumerate() {
        if among(text, &keys[..i], key.bytes(text)) {
            return false;
        }
    }
    true
}

// The bucket of a key.
fn bucket(bytes: &[u8]) -> usize
    ensures { result ≡ bucket_of bytes.now }
{
    bytes.iter().take(64).fold(
        bytes.len() % BUCKETS,
        |hash, b| (hash * 31 + *b as usize) % BUCKETS,
    )
}

// Whether one of some keys has these bytes. `first` is the place of the last of them in the bytes'
// bucket, and `next` has for each key the place of the one before it in its bucket.
fn on_chain(
    text: &[u8],
    keys: &[RawIdent],
    next: &[Option<u16>],
    first: Option<u16>,
    bytes: &[u8],
) -> bool
    requires next { length keys.now ≤ length next.now }
    requires chained { Chained (bucket_at text.now keys.now) next.now (length keys.now) }
    requires first { first ≡ last_in (bucket_at text.now keys.now) (bucket_of bytes.now) (length keys.now) }
    ensures { Decides result (Among text.now keys.now bytes.now) }
{
    let mut at = first;
    while let Some(i) = at {
        if keys[i as usize].has_bytes(text, bytes) {
            return true;
        }
        at = next[i as usize];
    }
    false
}

// By comparing each key with those before it in its bucket, for at most so many keys.
#[tactic(auto, using(crate::proofs::Chains::bucket_low))]
fn distinct_by_chains<const N: usize>(text: &[u8], keys: &[RawIdent]) -> bool
    requires room { length keys.now ≤ N }
    requires small { N ≤ 4096 }
    ensures { Decides result (Distinct text.now keys.now) }
{
    let mut heads = [None; BUCKETS];
    let mut next = [None; N];
    for (i, key) in keys.iter().enumerate() {
        let bytes = key.bytes(text);
        let head = &mut heads[bucket(bytes)];
        if on_chain(text, &keys[..i], &next, *head, bytes) {
            return false;
        }
        next[i] = head.replace(i as u16);
    }
    true
}

/// Whether no two keys have the same bytes. Up to 4,096 keys take time in proportion to their number.
pub fn keys_distinct(text: &[u8], keys: &[RawIdent]) -> bool
    ensures { Decides result (Distinct text.now keys.now) }
{
    if keys.len() <= FEW {
        distinct_by_chains::<FEW>(text, keys)
    } else if keys.len() <= CHAINED {
        distinct_by_chains::<CHAINED>(text, keys)
    } else {
        distinct_by_pairs(text, keys)
    }
}
