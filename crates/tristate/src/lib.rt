//! Tristate numbers: words of which some bits are known and the others are not.
//!
//! The formulas are those of Linux's tnum.c.
#![tactic(auto)]

ghost use Rattle.std.specs.Prelude.{◌≡◌};
ghost use Rattle.tristate.specs.Tristates.{common, conjunction, difference, disjunction, exclusion, known, most, only, product, quotient, reading, shift_amount, shifted_left, shifted_right, single, sum, unknown, word};

use std::ops::{Add, BitAnd, BitOr, BitXor, Div, Mul, Shl, Shr, Sub};

/// Any two words. The bits of `mask` are unknown, and the others are those of `value`: the bits
/// that `value` and `mask` share count as unknown.
#[derive(Clone, Copy, PartialEq, Eq, Debug)]
pub struct Tristate {
    pub value: u64,
    pub mask: u64,
}

impl Tristate {
    /// Every word.
    pub const FULL: Tristate = Tristate {
        value: 0,
        mask: u64::MAX,
    };

    /// The bits that are known to be set, which is the least word held.
    pub fn known(self) -> u64
        ensures { result ≡ known self }
    {
        self.value & !self.unknown()
    }

    /// The bits that are unknown.
    pub fn unknown(self) -> u64
        ensures { result ≡ unknown self }
    {
        self.mask
    }

    /// The same words, with the bits that `value` and `mask` share out of `value`.
    pub fn read(self) -> Tristate
        ensures { result ≡ reading self }
    {
        Tristate {
            value: self.known(),
            mask: self.unknown(),
        }
    }

    /// The greatest word held.
    pub fn most(self) -> u64
        ensures { result ≡ most self }
    {
        let least = self.known();
        least | self.unknown()
    }

    /// Is just one word held?
    pub fn is_single(self) -> bool
        ensures { result ≡ single self }
    {
        self.unknown() == 0
    }

    /// The word that is held, if it is just one.
    pub fn word(self) -> Option<u64>
        ensures { result ≡ word self }
    {
        self.is_single().then_some(self.known())
    }

    /// The word that is held, if it is just one and at most 63.
    fn shift_amount(self) -> Option<u64>
        ensures { result ≡ shift_amount self }
    {
        self.word().filter(|word| *word < 64)
    }

    /// What holds just the words that both hold.
    pub fn common(self, other: Tristate) -> Option<Tristate>
        ensures { result ≡ common self other }
    {
        // the bits known on both sides that differ: no word has both
        let apart = (self.known() ^ other.known()) & !(self.unknown() | other.unknown());
        (apart == 0).then_some(Tristate {
            value: self.known() | other.known(),
            mask: self.unknown() & other.unknown(),
        })
    }
}

/// One word.
impl From<u64> for Tristate {
    ghost from_gives = { λ w t. t ≡ only w };

    fn from(word: u64) -> Tristate {
        Tristate {
            value: word,
            mask: 0,
        }
    }
}

impl Add for Tristate {
    type Output = Tristate;

    ghost add_gives = { λ a b r. r ≡ sum a b };

    fn add(self, other: Tristate) -> Tristate {
        // the least sum
        let s = self.known().wrapping_add(other.known());
        // the greatest: it takes every carry that any sum takes
        let sigma = s.wrapping_add(self.unknown()).wrapping_add(other.unknown());
        // so a carry into a bit can differ only where these two differ
        let carries = sigma ^ s;
        let mask = carries | (self.unknown() | other.unknown());
        Tristate {
            value: s & !mask,
            mask,
        }
    }
}

impl Sub for Tristate {
    type Output = Tristate;

    ghost sub_gives = { λ a b r. r ≡ difference a b };

    fn sub(self, other: Tristate) -> Tristate {
        let d = self.known().wrapping_sub(other.known());
        // the greatest difference, and the least
        let alpha = d.wrapping_add(self.unknown());
        let beta = d.wrapping_sub(other.unknown());
        // a borrow from a bit can differ only where these two differ
        let borrows = alpha ^ beta;
        let mask = borrows | (self.unknown() | other.unknown());
        Tristate {
            value: d & !mask,
            mask,
        }
    }
}

impl BitAnd for Tristate {
    type Output = Tristate;

    ghost bitand_gives = { λ a b r. r ≡ conjunction a b };

    fn bitand(self, other: Tristate) -> Tristate {
        // the bits that can be set on either side
        let alpha = self.known() | self.unknown();
        let beta = other.known() | other.unknown();
        let value = self.known() & other.known();
        Tristate {
            value,
            mask: (alpha & beta) & !value,
        }
    }
}

impl BitOr for Tristate {
    type Output = Tristate;

    ghost bitor_gives = { λ a b r. r ≡ disjunction a b };

    fn bitor(self, other: Tristate) -> Tristate {
        let value = self.known() | other.known();
        // a bit known to be set on one side is set, whatever the other's
        let mask = (self.unknown() | other.unknown()) & !value;
        Tristate { value, mask }
    }
}

impl BitXor for Tristate {
    type Output = Tristate;

    ghost bitxor_gives = { λ a b r. r ≡ exclusion a b };

    fn bitxor(self, other: Tristate) -> Tristate {
        let mask = self.unknown() | other.unknown();
        Tristate {
            value: (self.known() ^ other.known()) & !mask,
            mask,
        }
    }
}

/// Every word, where the amount is not one word of at most 63.
impl Shl for Tristate {
    type Output = Tristate;

    ghost shl_gives = { λ a b r. r ≡ shifted_left a b };

    fn shl(self, by: Tristate) -> Tristate {
        match by.shift_amount() {
            Some(s) => Tristate {
                value: self.known() << s,
                mask: self.unknown() << s,
            },
            None => Tristate::FULL,
        }
    }
}

/// Every word, where the amount is not one word of at most 63.
impl Shr for Tristate {
    type Output = Tristate;

    ghost shr_gives = { λ a b r. r ≡ shifted_right a b };

    fn shr(self, by: Tristate) -> Tristate {
        match by.shift_amount() {
            Some(s) => Tristate {
                value: self.known() >> s,
                mask: self.unknown() >> s,
            },
            None => Tristate::FULL,
        }
    }
}

/// Exact for two single words.
impl Mul for Tristate {
    type Output = Tristate;

    ghost mul_gives = { λ a b r. r ≡ product a b };

    fn mul(self, other: Tristate) -> Tristate {
        match (self.word(), other.word()) {
            (Some(a), Some(b)) => Tristate::from(a.wrapping_mul(b)),
            _ => Tristate::FULL,
        }
    }
}

/// Exact for two single words, the second above 0.
impl Div for Tristate {
    type Output = Tristate;

    ghost div_gives = { λ a b r. r ≡ quotient a b };

    fn div(self, other: Tristate) -> Tristate {
        match (self.word(), other.word()) {
            (Some(a), Some(b)) if b > 0 => Tristate::from(a / b),
            _ => Tristate::FULL,
        }
    }
}
