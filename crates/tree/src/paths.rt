//! Making a path and reading it, and one name more or less on it.
ghost use Rattle.std.specs.Prelude.{◌≡◌, ◌+◌, ◌<◌, ◌≤◌, [], ◌∷◌, ◌++◌, length, take, MatchResult};
ghost use Rattle.tree.specs.Faults.{path_layer, path_number};
ghost use Rattle.tree.specs.Paths.{Popped, Pushed, SameMemory, capacity_of, names_of};
ghost use Rattle.tree.specs.declared.limits.Memory.TheVariants.{Path};

use crate::faults::{Fault, Layer};
use crate::limits::{Memory, MemoryFault};
use crate::stacks::PathStack;

/// Fault 9: the path is too short for what is asked. The place is the name that was asked about.
#[derive(Clone, Copy, PartialEq, Eq, Debug)]
pub struct PathFault<N> {
    pub place: N,
}

impl<N> Fault for PathFault<N> {
    ghost numbered = { path_number };

    ghost found = { path_layer };

    fn number(&self) -> u8 {
        9
    }

    fn layer(&self) -> Layer {
        Layer::Path
    }
}

/// Fault 1 where more than 128 places are lent for a path, and only there. It only checks.
pub fn check_memory<N>(places: &[N]) -> Result<(), MemoryFault>
    ensures { MatchResult result (λ _. length places.now ≤ 128) (λ f. (128 < length places.now) × (f.memory ≡ Path)) }
{
    Memory::Path.check(places.len())
}

impl<'a, N: Copy> PathStack<'a, N> {
    /// An empty path over lent memory. It refuses nothing.
    pub fn new(places: &'a mut [N]) -> PathStack<'a, N>
        ensures empty { names_of result ≡ [] }
        ensures memory { result.places.now ≡ places.old }
        ensures lent { result.places.ghost_name ≡ places.entry.ghost_name }
    {
        PathStack { places, len: 0 }
    }

    /// How many names are on the path.
    pub fn len(&self) -> usize
        ensures { result ≡ length (names_of self.now) }
    {
        self.len
    }

    /// How many names fit on the path.
    pub fn capacity(&self) -> usize
        ensures { result ≡ capacity_of self.now }
    {
        self.places.len().min(128)
    }

    /// The names on the path, the first first.
    pub fn names(&self) -> &[N]
        ensures { result.now ≡ names_of self.now }
    {
        &self.places[..self.len]
    }

    /// One name more at the end. On a full path it is fault 9 at that name, and nothing changes.
    pub fn push(&mut self, n: N) -> Result<(), PathFault<N>>
        ensures cases { Pushed self.old n result self.new }
        ensures memory { SameMemory self.old self.new }
    {
        if self.len < self.capacity() {
            self.put(n);
            Ok(())
        } else {
            Err(PathFault { place: n })
        }
    }

    /// Takes the last name off the path; none off an empty one.
    pub fn pop(&mut self) -> Option<N>
        ensures cases { Popped self.old result self.new }
        ensures memory { SameMemory self.old self.new }
    {
        self.len = self.len.checked_sub(1)?;
        Some(self.places[self.len])
    }

    /// Keeps the first names, at most as many as told.
    pub fn truncate(&mut self, len: usize)
        ensures names { names_of self.new ≡ take len (names_of self.old) }
        ensures memory { SameMemory self.old self.new }
    {
        self.len = self.len.min(len);
    }

    // One name more where it is known to fit.
    pub(crate) fn put(&mut self, n: N)
        requires { length (names_of self.old) < capacity_of self.old }
        ensures names { names_of self.new ≡ names_of self.old ++ n ∷ [] }
        ensures memory { SameMemory self.old self.new }
    {
        self.places[self.len] = n;
        self.len += 1;
    }
}
