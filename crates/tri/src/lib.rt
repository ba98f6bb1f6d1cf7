// The three values n, m, y, and the three operations on them.
//
// They stand in that order as 0, 1, 2. Each operation is total: a number above 2 in `v` does no harm.
#![tactic(auto)]

ghost use Rattle.std.specs.Prelude.{◌≡◌};
ghost use Rattle.tri.specs.Three.{tri_of, not_of, and_of, or_of};

// A byte, and no enum of three: the rules are promised for node work of any bytes (`values::at` ensures `result.v ≡ val vs.now i`, which may be 255).
// Derived comparisons compare `v`, so n < m < y.
#[derive(Clone, Copy, PartialEq, Eq, PartialOrd, Ord)]
pub struct Tri {
    pub v: u8,
}

impl Tri {
    pub const N: Tri = Tri { v: 0 };

    pub const M: Tri = Tri { v: 1 };

    pub const Y: Tri = Tri { v: 2 };

    // y for n, n for y, m for m.
    pub fn not(self) -> Tri
        ensures { result.v ≡ not_of self.v }
    {
        if self.v < 2 {
            Tri { v: 2 - self.v }
        } else {
            Tri::N
        }
    }

    // The smaller of the two.
    pub fn and(self, other: Tri) -> Tri
        ensures { result.v ≡ and_of self.v other.v }
    {
        self.min(other)
    }

    // The larger of the two.
    pub fn or(self, other: Tri) -> Tri
        ensures { result.v ≡ or_of self.v other.v }
    {
        self.max(other)
    }
}

// The value that a byte stands for; every byte above 2 is read as y.
impl From<u8> for Tri {
    ghost from_gives = { λ byte t. t.v ≡ tri_of byte };

    fn from(byte: u8) -> Tri {
        if byte < 2 { Tri { v: byte } } else { Tri::Y }
    }
}
