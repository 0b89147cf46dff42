ghost use Rattle.domain.specs.Answers.{range_absorbed, range_told};
ghost use Rattle.range.specs.Answers.{applied, narrowed};
ghost use Rattle.range.specs.Ranges.{Within, front, full, hull, member, only};
ghost use Rattle.words.specs.Widths.{bits_of};
ghost use Rattle.range.proofs.Laws.{applied-holds, narrowed-holds};
ghost use Rattle.domain.specs.RangeLaws.{absorbed-holds, absorbed-within, front-holds, full-holds, hull-holds, member_decides, exact-holds, told-met};

use super::domain::Domain;
use super::facts::Facts;
use range::Range;
use words::{Operation, Relation, Width};

impl Domain for Range {
    ghost holds = { Within };

    ghost every = { full };

    ghost single = { only };

    ghost under = { λ k. front (bits_of k) };

    ghost member = { member };

    ghost applied = { applied };

    ghost joined = { hull };

    ghost narrowed = { narrowed };

    ghost told = { range_told };

    ghost absorbed = { range_absorbed };

    ghost any_holds = { full-holds };

    ghost only_holds = { exact-holds };

    ghost low_holds = { front-holds };

    ghost has_decides = { member_decides };

    ghost of_holds = { applied-holds };

    ghost join_holds = { hull-holds };

    ghost narrow_holds = { narrowed-holds };

    ghost facts_met = { told-met };

    ghost absorb_holds = { absorbed-holds };

    ghost absorb_within = { absorbed-within };

    fn any() -> Range {
        Range::FULL
    }

    fn only(word: u64) -> Range {
        Range::from(word)
    }

    fn low(width: Width) -> Range {
        Range {
            low: 0,
            high: width.most(),
        }
    }

    fn has(self, word: u64) -> bool {
        self.least() <= word && word <= self.most()
    }

    // a match, as in every domain: a table of closures would say the same operators with more words
    fn of(operation: Operation, a: Range, b: Range) -> Range {
        match operation {
            Operation::Add => a + b,
            Operation::Sub => a - b,
            Operation::Mul => a * b,
            Operation::Div | Operation::Shr => a.no_more(),
            Operation::And => a & b,
            Operation::Or => a | b,
            Operation::Xor | Operation::Shl => Self::any(),
        }
    }

    fn join(self, other: Range) -> Range {
        Range {
            low: self.least().min(other.least()),
            high: self.most().max(other.most()),
        }
    }

    fn narrow(self, relation: Relation, other: Range) -> Option<Range> {
        match relation {
            Relation::Equal => self.common(other),
            Relation::Unequal => match other.word() {
                Some(word) => self.without(word),
                None => Some(self.read()),
            },
            Relation::Less => self.below(other.most()),
            Relation::LessOrEqual => self.up_to(other.most()),
            Relation::Greater => self.above(other.least()),
            Relation::GreaterOrEqual => self.on_from(other.least()),
        }
    }

    fn facts(self) -> Facts {
        Facts {
            bits: self.span(),
            range: self.read(),
        }
    }

    fn absorb(self, facts: Facts) -> Option<Range> {
        let shared = self.common(facts.range)?;
        shared.common(Range::reach(facts.bits))
    }
}
