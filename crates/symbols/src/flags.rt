// What a table does with a name, as masks.
ghost use Rattle.std.specs.Prelude.{◌≡◌, bit_or};
ghost use Rattle.symbols.specs.Flags.{has, shares};

use std::ops::BitOr;

// A set of masks.
#[derive(Clone, Copy, Drop, PartialEq, Eq, Debug)]
pub struct SymbolFlags {
    pub bits: u16,
}

impl SymbolFlags {
    pub const EMPTY: SymbolFlags = SymbolFlags { bits: 0x000 };

    pub const REFERENCED: SymbolFlags = SymbolFlags { bits: 0x001 };

    pub const ASSIGNED: SymbolFlags = SymbolFlags { bits: 0x002 };

    pub const PARAMETER: SymbolFlags = SymbolFlags { bits: 0x004 };

    pub const ANNOTATED: SymbolFlags = SymbolFlags { bits: 0x008 };

    pub const IMPORTED: SymbolFlags = SymbolFlags { bits: 0x010 };

    pub const NONLOCAL: SymbolFlags = SymbolFlags { bits: 0x020 };

    // Assigned by a named expression in a comprehension.
    pub const ASSIGNED_IN_COMPREHENSION: SymbolFlags = SymbolFlags { bits: 0x040 };

    // The target of a `for` in a comprehension.
    pub const ITER: SymbolFlags = SymbolFlags { bits: 0x080 };

    // Free in a function of a class, from around the class.
    pub const FREE_CLASS: SymbolFlags = SymbolFlags { bits: 0x100 };

    // What binds a name.
    pub const BOUND: SymbolFlags = SymbolFlags {
        bits: Self::ASSIGNED.bits | Self::PARAMETER.bits | Self::IMPORTED.bits | Self::ITER.bits,
    };

    // Whether all masks of `other` are there.
    pub fn contains(self, other: SymbolFlags) -> bool
        ensures { result ≡ has self.bits other.bits }
    {
        self.bits & other.bits == other.bits
    }

    // Whether some mask of `other` is there.
    pub fn intersects(self, other: SymbolFlags) -> bool
        ensures { result ≡ shares self.bits other.bits }
    {
        self.bits & other.bits != 0
    }
}

// The masks of both.
impl BitOr for SymbolFlags {
    type Output = SymbolFlags;

    ghost bitor_gives = { λ m n both. both ≡ record { bits = bit_or m.bits n.bits } };

    fn bitor(self, other: SymbolFlags) -> SymbolFlags {
        SymbolFlags {
            bits: self.bits | other.bits,
        }
    }
}
