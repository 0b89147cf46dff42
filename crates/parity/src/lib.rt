//! Parities as a domain: one that is made of neither known bits nor ranges.

#![tactic(auto)]

ghost use Rattle.std.specs.Prelude.{◌≡◌};
ghost use Rattle.parity.specs.Parities.{Stands, absorbed, applied, common, conjunction, joined, lowest, member, narrowed, parity_of, sum, told};
ghost use Rattle.parity.specs.declared.Parity.TheVariants.{Either};
ghost use Rattle.parity.specs.Laws.{absorbed_stands, absorbed-within, applied_stands, either_stands, every_stands, joined_stands, member_decides, narrowed_stands, parity_of_stands, told-met};

use domain::{Domain, Facts};
use range::Range;
use std::ops::{Add, BitAnd};
use tristate::Tristate;
use words::{Operation, Relation, Width};

/// Which words: the even ones, the odd ones, or all.
#[derive(Clone, Copy, PartialEq, Eq, Debug)]
pub enum Parity {
    Even,
    Odd,
    Either,
}

/// What is known of the lowest bit.
fn lowest(bits: Tristate) -> Parity
    ensures { result ≡ lowest bits }
{
    if bits.unknown() % 2 == 0 {
        Parity::from(bits.known())
    } else {
        Parity::Either
    }
}

impl Parity {
    /// What holds just the words that both hold.
    pub fn common(self, other: Parity) -> Option<Parity>
        ensures { result ≡ common self other }
    {
        match (self, other) {
            (Parity::Even, Parity::Odd) => None,
            (Parity::Even, _) => Some(Parity::Even),
            (Parity::Odd, Parity::Even) => None,
            (Parity::Odd, _) => Some(Parity::Odd),
            (Parity::Either, known) => Some(known),
        }
    }
}

/// The parity of one word.
impl From<u64> for Parity {
    ghost from_gives = { λ w p. p ≡ parity_of w };

    fn from(word: u64) -> Parity {
        if word % 2 == 0 {
            Parity::Even
        } else {
            Parity::Odd
        }
    }
}

/// The parity of a sum, and so of a difference and of an exclusive or.
impl Add for Parity {
    type Output = Parity;

    ghost add_gives = { λ a b r. r ≡ sum a b };

    fn add(self, other: Parity) -> Parity {
        match (self, other) {
            (Parity::Even, known) => known,
            (Parity::Odd, Parity::Even) => Parity::Odd,
            (Parity::Odd, Parity::Odd) => Parity::Even,
            (Parity::Odd, Parity::Either) | (Parity::Either, _) => Parity::Either,
        }
    }
}

impl BitAnd for Parity {
    type Output = Parity;

    ghost bitand_gives = { λ a b r. r ≡ conjunction a b };

    fn bitand(self, other: Parity) -> Parity {
        match (self, other) {
            (Parity::Even, _) => Parity::Even,
            (Parity::Odd, known) => known,
            (Parity::Either, Parity::Even) => Parity::Even,
            (Parity::Either, _) => Parity::Either,
        }
    }
}

impl Domain for Parity {
    ghost holds = { Stands };

    ghost every = { Either };

    ghost single = { parity_of };

    ghost under = { λ _. Either };

    ghost member = { member };

    ghost applied = { applied };

    ghost joined = { joined };

    ghost narrowed = { narrowed };

    ghost told = { told };

    ghost absorbed = { absorbed };

    ghost any_holds = { every_stands };

    ghost only_holds = { parity_of_stands };

    ghost low_holds = { either_stands };

    ghost has_decides = { member_decides };

    ghost of_holds = { applied_stands };

    ghost join_holds = { joined_stands };

    ghost narrow_holds = { narrowed_stands };

    ghost facts_met = { told-met };

    ghost absorb_holds = { absorbed_stands };

    ghost absorb_within = { absorbed-within };

    fn any() -> Parity {
        Parity::Even.join(Parity::Odd)
    }

    fn only(word: u64) -> Parity {
        Parity::from(word)
    }

    fn low(_width: Width) -> Parity {
        Self::any()
    }

    fn has(self, word: u64) -> bool {
        match self {
            Parity::Even => word % 2 == 0,
            Parity::Odd => word % 2 == 1,
            Parity::Either => true,
        }
    }

    // a match, as in every domain: a table of closures would say the same operators with more words
    fn of(operation: Operation, a: Parity, b: Parity) -> Parity {
        match operation {
            Operation::Add | Operation::Sub | Operation::Xor => a + b,
            Operation::And => a & b,
            Operation::Mul | Operation::Div | Operation::Or | Operation::Shl | Operation::Shr =>
                Parity::Either,
        }
    }

    fn join(self, other: Parity) -> Parity {
        match (self, other) {
            (Parity::Even, Parity::Even) => Parity::Even,
            (Parity::Odd, Parity::Odd) => Parity::Odd,
            _ => Parity::Either,
        }
    }

    fn narrow(self, relation: Relation, other: Parity) -> Option<Parity> {
        match relation {
            Relation::Equal => self.common(other),
            _ => Some(self),
        }
    }

    fn facts(self) -> Facts {
        let bits = match self {
            Parity::Even => Tristate { value: 0, mask: !1 },
            Parity::Odd => Tristate { value: 1, mask: !1 },
            Parity::Either => Tristate::any(),
        };
        Facts {
            bits,
            range: Range::any(),
        }
    }

    fn absorb(self, facts: Facts) -> Option<Parity> {
        self.common(lowest(facts.bits))
    }
}
