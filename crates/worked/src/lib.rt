//! Eight examples worked by hand, which the domains answer.

#![tactic(auto)]

ghost use Rattle.std.specs.Prelude.{◌≡◌};
ghost use Rattle.worked.specs.Table.{table};

use domain::Domain;
use range::Range;
use tristate::Tristate;
use words::{Operation, Relation};

/// The answers, in the order of the examples.
#[derive(Clone, Copy, PartialEq, Eq, Debug)]
pub struct Worked {
    pub sum: Tristate,
    pub difference: Tristate,
    pub unlike: Tristate,
    pub span: Tristate,
    pub joined: Tristate,
    pub wrapped: Range,
    pub under57: Option<Range>,
    pub under58: Option<Range>,
    pub either: Range,
}

/// Each example, asked of its domain.
pub fn answers() -> Worked
    ensures { result ≡ table }
{
    let eight_or_ten = Tristate { value: 8, mask: 2 };
    let nine_or_eleven = Tristate { value: 9, mask: 2 };
    let four_or_five = Tristate { value: 4, mask: 1 };
    let one_or_three = Tristate { value: 1, mask: 2 };
    let from_57_to_60 = Range { low: 57, high: 60 };
    Worked {
        sum: Tristate::of(Operation::Add, eight_or_ten, nine_or_eleven),
        difference: Tristate::of(Operation::Sub, eight_or_ten, nine_or_eleven),
        unlike: Tristate::of(Operation::Xor, four_or_five, one_or_three),
        span: Range { low: 9, high: 11 }.span(),
        joined: Tristate::only(17).join(Tristate::only(166)),
        wrapped: Range::of(
            Operation::Add,
            Range { low: 8, high: 64 },
            Range::only(u64::MAX - 7),
        ),
        under57: from_57_to_60.narrow(Relation::Less, Range::only(57)),
        under58: from_57_to_60.narrow(Relation::Less, Range::only(58)),
        either: Range::of(
            Operation::Or,
            Range { low: 4, high: 5 },
            Range { low: 1, high: 8 },
        ),
    }
}
