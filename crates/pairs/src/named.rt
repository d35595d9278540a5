// The public gadgets by name and number.
use std::fmt;

// The number of each is its place in the table of docs/CASES.md. The words of its rounds begin with it.
#[derive(Clone, Copy, PartialEq, Eq)]
pub enum Gadget {
    Refresh = 1,
    RefreshBoolean = 2,
    Shift = 3,
    ToBoolean = 4,
    ToArithmetic = 5,
    ToModQ = 6,
    Sample = 7,
    SamplePolynomial = 8,
    Widen = 9,
    Decompose = 10,
    Verdict = 11,
}

impl Gadget {
    pub const ALL: [Gadget; 11] = [
        Gadget::Refresh,
        Gadget::RefreshBoolean,
        Gadget::Shift,
        Gadget::ToBoolean,
        Gadget::ToArithmetic,
        Gadget::ToModQ,
        Gadget::Sample,
        Gadget::SamplePolynomial,
        Gadget::Widen,
        Gadget::Decompose,
        Gadget::Verdict,
    ];

    // Whether its shares recombine by exclusive or.
    pub fn is_boolean(self) -> bool {
        matches!(
            self,
            Gadget::RefreshBoolean | Gadget::ToArithmetic | Gadget::ToModQ
        )
    }

    // What its shares are below, by its first parameter.
    pub fn bound(self, first: u32) -> u32 {
        match self {
            Gadget::Refresh | Gadget::Shift => first,
            Gadget::Widen | Gadget::Decompose | Gadget::Verdict => 8380417,
            _ => 1 << (first % 32),
        }
    }
}

impl From<Gadget> for u32 {
    fn from(gadget: Gadget) -> u32 {
        gadget as u32
    }
}

impl fmt::Display for Gadget {
    fn fmt<W: fmt::Write>(&self, f: &mut fmt::Formatter<W>) -> fmt::Result {
        f.write_str(match self {
            Gadget::Refresh => "refresh",
            Gadget::RefreshBoolean => "refresh_boolean",
            Gadget::Shift => "shift",
            Gadget::ToBoolean => "to_boolean",
            Gadget::ToArithmetic => "to_arithmetic",
            Gadget::ToModQ => "to_mod_q",
            Gadget::Sample => "sample",
            Gadget::SamplePolynomial => "sample_polynomial",
            Gadget::Widen => "widen",
            Gadget::Decompose => "decompose",
            Gadget::Verdict => "verdict",
        })
    }
}
