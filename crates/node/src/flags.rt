//! Sets of flags.
ghost use Rattle.node.specs.Flags.{breaks, constant, contains, exported, negated};
ghost use Rattle.std.specs.Prelude.{◌≡◌, nat_le, if◌then◌else◌, Some, None, ◌==◌};

/// A set of flags, 0 to 15.
#[derive(Clone, Copy, PartialEq, Eq, Debug)]
pub struct ASTFlags {
    bits: u8,
}

impl ASTFlags {
    /// No flag.
    pub const NONE: ASTFlags = ASTFlags { bits: 0 };

    /// The variable is a constant.
    pub const CONSTANT: ASTFlags = ASTFlags { bits: 1 };

    /// The variable is exported.
    pub const EXPORTED: ASTFlags = ASTFlags { bits: 2 };

    /// The meaning is turned: `until` for `while`, `?.` for `.`, `?[` for `[`.
    pub const NEGATED: ASTFlags = ASTFlags { bits: 4 };

    /// It breaks off: `break` for `continue`, `throw` for `return`, the end of a chain.
    pub const BREAK: ASTFlags = ASTFlags { bits: 8 };

    /// The set of a number from 0 to 15; none for any other number.
    pub fn from_bits(bits: u32) -> Option<ASTFlags>
        ensures { result ≡ (if nat_le bits 15 then Some (record { bits = bits }) else None) }
    {
        if bits <= 15 {
            Some(ASTFlags { bits: bits as u8 })
        } else {
            None
        }
    }

    /// The number of the set.
    pub fn bits(self) -> u8
        ensures { result ≡ self.bits }
    {
        self.bits
    }

    /// Whether there is no flag in it.
    pub fn is_empty(self) -> bool
        ensures { result ≡ (self.bits == 0) }
    {
        self.bits == 0
    }

    /// Whether every flag of the other set is in it.
    pub fn contains(self, other: ASTFlags) -> bool
        ensures { result ≡ contains self other }
    {
        self.bits & other.bits == other.bits
    }

    /// Whether CONSTANT is in it.
    pub fn is_constant(self) -> bool
        ensures { result ≡ constant self }
    {
        self.contains(ASTFlags::CONSTANT)
    }

    /// Whether EXPORTED is in it.
    pub fn is_exported(self) -> bool
        ensures { result ≡ exported self }
    {
        self.contains(ASTFlags::EXPORTED)
    }

    /// Whether NEGATED is in it.
    pub fn is_negated(self) -> bool
        ensures { result ≡ negated self }
    {
        self.contains(ASTFlags::NEGATED)
    }

    /// Whether BREAK is in it.
    pub fn is_break(self) -> bool
        ensures { result ≡ breaks self }
    {
        self.contains(ASTFlags::BREAK)
    }
}
