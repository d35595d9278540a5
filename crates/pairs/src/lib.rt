// The gadgets by name and number, and the parameters that a round calls them with, right and wrong.
#![tactic(auto)]

mod named;
mod sets;

pub use named::Gadget;
pub use sets::SETS;

// A gadget's parameters; the second is 0 where it has but one.
#[derive(Clone, Copy)]
pub struct Pair {
    pub first: u32,
    pub second: u32,
}

impl Pair {
    pub fn of(first: u32, second: u32) -> Pair {
        Pair { first, second }
    }

    pub fn one(first: u32) -> Pair {
        Pair { first, second: 0 }
    }

    // The modulus odd times 2^j, and j.
    fn times_power(odd: u32, j: u32) -> Pair {
        Pair::of(odd << (j % 32), j)
    }
}

// One round of a gadget's lines: its number, and the last word of its tape. What it takes by r mod 8 is listed in docs/CASES.md.
#[derive(Clone, Copy)]
pub struct Round {
    pub gadget: Gadget,
    pub r: u32,
    pub x: u32,
}

impl Round {
    fn modulus(self) -> u32 {
        match self.r % 8 {
            0 => 2,
            1 => 3,
            2 => 8380417,
            3 => 4294967295,
            4 => 2147483649,
            5 => self.x,
            6 => self.r / 8 % 2,
            _ => self.x % 1000 + 2,
        }
    }

    fn width(self) -> u32 {
        match self.r % 8 {
            0 => 1,
            1 => 31,
            2 => 8,
            3 => 23,
            4 => (self.r / 8 + 1) % 31 + 1,
            5 => self.x % 31 + 1,
            6 => self.r / 8 % 2 * 32,
            _ => self.x,
        }
    }

    fn mu(self) -> u32 {
        match self.r % 8 {
            0 => 1,
            1 => 20,
            2 => 18,
            3 => self.r / 8 % 2 * 21,
            4 => self.r / 8 % 20 + 1,
            5 | 6 => self.x % 20 + 1,
            _ => self.x,
        }
    }

    fn modulus_and_t(self) -> Pair {
        let x = self.x;
        match self.r % 8 {
            0 => Pair::of(4294967294, 1),
            1 => Pair::of(2147483648, x % 31 + 1),
            2 => Pair::of(3221225472, x % 30 + 1),
            3 => Pair::times_power(8380417, x % 9 + 1),
            4 => Pair::times_power(x / 8 % 1000 * 2 + 3, x % 8 + 1),
            5 => Pair::of(x, self.r / 8 % 34),
            6 => Pair::of(1 << ((x % 31 + 2) % 32), x % 31 + 1),
            _ => Pair::of(x % 6 * 2, x / 6 % 3),
        }
    }

    pub fn parameters(self) -> Pair {
        match self.gadget {
            Gadget::Refresh => Pair::one(self.modulus()),
            Gadget::Shift => self.modulus_and_t(),
            Gadget::ToModQ => Pair::one(self.mu()),
            Gadget::Sample | Gadget::SamplePolynomial => Pair::one(self.set()),
            Gadget::Widen | Gadget::Decompose | Gadget::Verdict => self.set_and_kind(),
            Gadget::RefreshBoolean | Gadget::ToBoolean | Gadget::ToArithmetic => {
                Pair::one(self.width())
            }
        }
    }
}
