// The parameter sets of ML-DSA: in the library's code the constants of each stand here alone.
#![tactic(auto)]

ghost use Rattle.std.specs.Prelude.{◌≡◌, IsTrue};
ghost use Rattle.params.specs.Facts.{kind_holds, set_holds};

// Of one kind of coefficient: a size below the bound a is accepted, up to the reach b widening keeps the value, and rho is the verdict's shift.
#[derive(Clone, Copy)]
pub struct Bounds {
    pub a: u32,
    pub b: u32,
    pub rho: u32,
    pub ghost holds: { IsTrue (kind_holds a b rho) },
}

// The kinds of coefficients, with their numbers: z and r̃.
#[derive(Clone, Copy, PartialEq, Eq)]
pub enum Kind {
    Z = 1,
    R = 2,
}

// A number that is not one of a kind.
#[derive(Clone, Copy, PartialEq, Eq)]
pub struct UnknownKind;

impl TryFrom<u32> for Kind {
    ghost use Rattle.std.specs.Result.{result_ok};
    ghost use Rattle.params.specs.Sets.{kind_of_number};

    type Error = UnknownKind;

    ghost try_from_gives = { λ number r. result_ok r ≡ kind_of_number number };

    fn try_from(number: u32) -> Result<Self, UnknownKind> {
        match number {
            1 => Ok(Kind::Z),
            2 => Ok(Kind::R),
            _ => Err(UnknownKind),
        }
    }
}

// The constants of one set.
#[derive(Clone, Copy)]
pub struct Params {
    pub gamma1: u32,
    pub gamma2: u32,
    pub beta: u32,
    pub delta: u32,
    pub mu: u32,
    pub kind1: Bounds,
    pub kind2: Bounds,
    pub ghost holds: { IsTrue (set_holds gamma1 gamma2 beta delta mu kind1.a kind1.b kind2.a kind2.b) },
}

impl Params {
    ghost use Rattle.params.specs.Sets.{set_of, kind_number, of_kind, bounds_of};

    pub const Q: u32 = 8380417;

    // The largest number of shares.
    pub const MOST: usize = 8;

    // A polynomial has so many coefficients.
    pub const COEFFICIENTS: usize = 256;

    #[tactic(auto, unfolding(crate::specs::Sets::set_of))]
    pub fn of_set(set: u32) -> Option<Params>
        ensures { result ≡ set_of set }
    {
        match set {
            44 => Some(Params {
                gamma1: 131072,
                gamma2: 95232,
                beta: 78,
                delta: 44,
                mu: 18,
                kind1: Bounds {
                    a: 130994,
                    b: 131150,
                    rho: 8,
                },
                kind2: Bounds {
                    a: 95154,
                    b: 95232,
                    rho: 7,
                },
            }),
            65 => Some(Params {
                gamma1: 524288,
                gamma2: 261888,
                beta: 196,
                delta: 16,
                mu: 20,
                kind1: Bounds {
                    a: 524092,
                    b: 524484,
                    rho: 9,
                },
                kind2: Bounds {
                    a: 261692,
                    b: 261888,
                    rho: 8,
                },
            }),
            87 => Some(Params {
                gamma1: 524288,
                gamma2: 261888,
                beta: 120,
                delta: 16,
                mu: 20,
                kind1: Bounds {
                    a: 524168,
                    b: 524408,
                    rho: 8,
                },
                kind2: Bounds {
                    a: 261768,
                    b: 261888,
                    rho: 7,
                },
            }),
            _ => None,
        }
    }

    #[tactic(auto, unfolding(crate::specs::Sets::of_kind))]
    fn by_kind(self, kind: Kind) -> Bounds
        ensures { result ≡ of_kind self (kind_number kind) }
    {
        match kind {
            Kind::Z => self.kind1,
            Kind::R => self.kind2,
        }
    }

    // The bounds of kind 1, and for any other number those of kind 2.
    #[tactic(auto, unfolding(crate::specs::Sets::of_kind))]
    pub fn of_kind(self, kind: u32) -> Bounds
        ensures { result ≡ of_kind self kind }
    {
        self.by_kind(Kind::try_from(kind).unwrap_or(Kind::R))
    }

    // The bounds of a kind of a set, where both numbers are in their ranges.
    #[tactic(auto, unfolding(crate::specs::Sets::bounds_of))]
    pub fn bounds(set: u32, kind: u32) -> Option<Bounds>
        ensures { result ≡ bounds_of set kind }
    {
        let p = Params::of_set(set)?;
        let kind = Kind::try_from(kind).ok()?;
        Some(p.by_kind(kind))
    }
}
