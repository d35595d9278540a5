// The two kinds of sharing, as code: below what the words are, and how a number is added to a share and taken from one.
ghost use Rattle.std.specs.Prelude.{◌≡◌, ◌<◌, ◌≤◌};
ghost use Rattle.shares.specs.Sharing.{Sharing, arithmetic, boolean, bound, plus, minus};

use words::{add_mod, power, sub_mod};

pub trait ShareKind: Copy {
    ghost kind: { Self → Sharing };

    fn bound(self) -> u32
        ensures { result ≡ bound (kind self) };

    fn plus(self, x: u32, r: u32) -> u32
        requires { (x < bound (kind self)) × (r < bound (kind self)) }
        ensures { result ≡ plus (kind self) x r };

    fn minus(self, x: u32, r: u32) -> u32
        requires { (x < bound (kind self)) × (r < bound (kind self)) }
        ensures { result ≡ minus (kind self) x r };
}

// An arithmetic sharing modulo m.
#[derive(Clone, Copy)]
pub struct Arithmetic {
    pub m: u32,
}

impl ShareKind for Arithmetic {
    ghost kind = { λ s. arithmetic s.m };

    fn bound(self) -> u32 {
        self.m
    }

    fn plus(self, x: u32, r: u32) -> u32 {
        add_mod(x, r, self.m)
    }

    fn minus(self, x: u32, r: u32) -> u32 {
        sub_mod(x, r, self.m)
    }
}

// A Boolean one of width k.
#[derive(Clone, Copy)]
pub struct Boolean {
    pub k: u32,
    ghost fits: { k ≤ 31 },
}

impl ShareKind for Boolean {
    ghost kind = { λ s. boolean s.k };

    fn bound(self) -> u32 {
        power(self.k)
    }

    #[tactic(auto, unfolding(numbers::specs::Modulo::xor))]
    fn plus(self, x: u32, r: u32) -> u32 {
        x ^ r
    }

    // What an exclusive or adds it takes off again.
    fn minus(self, x: u32, r: u32) -> u32 {
        self.plus(x, r)
    }
}
