//! A set of places: a mark for each place that a table may have.
ghost use Rattle.std.specs.Prelude.{◌≡◌, ℕ, ◌<◌, true, false, ◌≢◌};
ghost use Rattle.table.specs.Seen.{marked};

/// A set of the places of a table's nodes, of which there are at most 4,096, in memory of its own.
#[derive(Drop)]
pub struct Seen {
    marks: [bool; 4096],
}

impl Seen {
    /// No place yet.
    pub fn none() -> Seen
        ensures { (j : ℕ) → marked result j ≡ false }
    {
        Seen {
            marks: [false; 4096],
        }
    }

    /// Whether a place was marked; no number from 4,096 on is.
    pub fn has(&self, place: usize) -> bool
        ensures { result ≡ marked self.now place }
    {
        self.marks.get(place).copied().unwrap_or(false)
    }

    /// Marks a place, and leaves every other as it was. No number from 4,096 on is one.
    pub fn mark(&mut self, place: usize)
        ensures here { place < 4096 → marked self.new place ≡ true }
        ensures others { (j : ℕ) → (j ≢ place) → marked self.new j ≡ marked self.old j }
    {
        if place < self.marks.len() {
            self.marks[place] = true;
        }
    }
}
