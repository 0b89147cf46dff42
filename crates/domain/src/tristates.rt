ghost use Rattle.std.specs.Prelude.{◌≡◌};
ghost use Rattle.domain.specs.Answers.{bits_absorbed, bits_told};
ghost use Rattle.tristate.specs.Answers.{Smallest, applied, narrowed};
ghost use Rattle.tristate.specs.Tristates.{Holds, front, full, hull, member, only};
ghost use Rattle.words.specs.Widths.{bits_of};
ghost use Rattle.tristate.proofs.Laws.{applied-holds, narrowed-holds};
ghost use Rattle.domain.specs.TristateLaws.{absorbed-holds, absorbed-within, front-holds, full-holds, hull-holds, member_decides, exact-holds, told-met};

use super::domain::Domain;
use super::facts::Facts;
use range::Range;
use tristate::Tristate;
use words::{Operation, Relation, Width};

/// The formula of the operation.
// A function of its own: were the match in `of`, each of its arms would owe by itself that the
// answer is the smallest. A match: a table of closures would say the same operators with more words.
fn computed(operation: Operation, a: Tristate, b: Tristate) -> Tristate
    ensures { result ≡ applied operation a b }
{
    match operation {
        Operation::Add => a + b,
        Operation::Sub => a - b,
        Operation::Mul => a * b,
        Operation::Div => a / b,
        Operation::And => a & b,
        Operation::Or => a | b,
        Operation::Xor => a ^ b,
        Operation::Shl => a << b,
        Operation::Shr => a >> b,
    }
}

impl Domain for Tristate {
    ghost holds = { Holds };

    ghost every = { full };

    ghost single = { only };

    ghost under = { λ k. front (bits_of k) };

    ghost member = { member };

    ghost applied = { applied };

    ghost joined = { hull };

    ghost narrowed = { narrowed };

    ghost told = { bits_told };

    ghost absorbed = { bits_absorbed };

    ghost any_holds = { full-holds };

    ghost only_holds = { exact-holds };

    ghost low_holds = { front-holds };

    ghost has_decides = { member_decides };

    ghost of_holds = { applied-holds };

    ghost join_holds = { hull-holds };

    ghost narrow_holds = { narrowed-holds };

    ghost facts_met = { told-met };

    ghost absorb_holds = { absorbed-holds };

    ghost absorb_within = { absorbed-within };

    fn any() -> Tristate {
        Tristate::FULL
    }

    fn only(word: u64) -> Tristate {
        Tristate::from(word)
    }

    fn low(width: Width) -> Tristate {
        Tristate {
            value: 0,
            mask: width.most(),
        }
    }

    fn has(self, word: u64) -> bool {
        word & !self.unknown() == self.known()
    }

    fn of(operation: Operation, a: Tristate, b: Tristate) -> Tristate
        ensures named { result ≡ applied operation a b }
        ensures smallest { Smallest operation a b result }
    {
        computed(operation, a, b)
    }

    fn join(self, other: Tristate) -> Tristate {
        let v = self.known();
        let w = other.known();
        // unknown is also what is known on both sides and differs
        let mask = (v ^ w) | (self.unknown() | other.unknown());
        Tristate {
            value: (v & w) & !mask,
            mask,
        }
    }

    fn narrow(self, relation: Relation, other: Tristate) -> Option<Tristate> {
        match relation {
            Relation::Equal => self.common(other),
            Relation::Unequal => match (self.word(), other.word()) {
                (Some(word), Some(same)) if word == same => None,
                _ => Some(self.read()),
            },
            Relation::Less | Relation::LessOrEqual | Relation::Greater | Relation::GreaterOrEqual =>
                Some(self.read()),
        }
    }

    fn facts(self) -> Facts {
        Facts {
            bits: self.read(),
            range: Range::reach(self),
        }
    }

    fn absorb(self, facts: Facts) -> Option<Tristate> {
        let shared = self.common(facts.bits)?;
        shared.common(facts.range.span())
    }
}
