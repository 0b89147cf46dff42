use domain::Facts;
use range::Range;
use tristate::Tristate;
use words::{Operation, Relation};

const MAX: u64 = u64::MAX;

/// 2 ^ 63.
const TOP: u64 = 0x8000_0000_0000_0000;

/// What an operation makes of two values.
#[derive(Clone, Copy)]
pub struct Applied<D> {
    pub operation: Operation,
    pub a: D,
    pub b: D,
    pub answer: D,
}

/// What a relation to `b` leaves of `a`.
#[derive(Clone, Copy)]
pub struct Narrowed<D> {
    pub relation: Relation,
    pub a: D,
    pub b: D,
    pub answer: Option<D>,
}

/// What facts leave of a value.
#[derive(Clone, Copy)]
pub struct Absorbed<D> {
    pub a: D,
    pub facts: Facts,
    pub answer: Option<D>,
}

/// Is a word held?
#[derive(Clone, Copy)]
pub struct Held<D> {
    pub a: D,
    pub word: u64,
    pub answer: bool,
}

// The rows are written out, since the value of a static may call no function.

/// The smallest answers, worked out word by word; some operands share bits between value and mask.
pub static BITS: [Applied<Tristate>; 31] = [
    Applied {
        operation: Operation::Add,
        a: Tristate { value: 8, mask: 2 },
        b: Tristate { value: 9, mask: 2 },
        answer: Tristate { value: 17, mask: 6 },
    },
    Applied {
        operation: Operation::Add,
        a: Tristate {
            value: MAX,
            mask: 0,
        },
        b: Tristate { value: 1, mask: 0 },
        answer: Tristate { value: 0, mask: 0 },
    },
    Applied {
        operation: Operation::Add,
        a: Tristate {
            value: TOP,
            mask: 0,
        },
        b: Tristate {
            value: TOP,
            mask: 1,
        },
        answer: Tristate { value: 0, mask: 1 },
    },
    Applied {
        operation: Operation::Add,
        a: Tristate { value: 3, mask: 2 },
        b: Tristate { value: 0, mask: 1 },
        answer: Tristate { value: 0, mask: 7 },
    },
    Applied {
        operation: Operation::Sub,
        a: Tristate { value: 8, mask: 2 },
        b: Tristate { value: 9, mask: 2 },
        answer: Tristate {
            value: 1,
            mask: MAX - 1,
        },
    },
    Applied {
        operation: Operation::Sub,
        a: Tristate { value: 0, mask: 0 },
        b: Tristate { value: 1, mask: 0 },
        answer: Tristate {
            value: MAX,
            mask: 0,
        },
    },
    Applied {
        operation: Operation::Sub,
        a: Tristate { value: 12, mask: 3 },
        b: Tristate { value: 4, mask: 0 },
        answer: Tristate { value: 8, mask: 3 },
    },
    Applied {
        operation: Operation::Sub,
        a: Tristate {
            value: TOP,
            mask: 0,
        },
        b: Tristate {
            value: TOP,
            mask: 0,
        },
        answer: Tristate { value: 0, mask: 0 },
    },
    Applied {
        operation: Operation::And,
        a: Tristate { value: 12, mask: 3 },
        b: Tristate { value: 10, mask: 0 },
        answer: Tristate { value: 8, mask: 2 },
    },
    Applied {
        operation: Operation::And,
        a: Tristate {
            value: MAX,
            mask: 0,
        },
        b: Tristate { value: 5, mask: 8 },
        answer: Tristate { value: 5, mask: 8 },
    },
    Applied {
        operation: Operation::And,
        a: Tristate { value: 6, mask: 1 },
        b: Tristate { value: 3, mask: 4 },
        answer: Tristate { value: 2, mask: 5 },
    },
    Applied {
        operation: Operation::Or,
        a: Tristate { value: 4, mask: 1 },
        b: Tristate { value: 1, mask: 2 },
        answer: Tristate { value: 5, mask: 2 },
    },
    Applied {
        operation: Operation::Or,
        a: Tristate { value: 0, mask: 0 },
        b: Tristate {
            value: TOP,
            mask: 3,
        },
        answer: Tristate {
            value: TOP,
            mask: 3,
        },
    },
    Applied {
        operation: Operation::Or,
        a: Tristate { value: 7, mask: 2 },
        b: Tristate { value: 8, mask: 0 },
        answer: Tristate { value: 13, mask: 2 },
    },
    Applied {
        operation: Operation::Xor,
        a: Tristate { value: 4, mask: 1 },
        b: Tristate { value: 1, mask: 2 },
        answer: Tristate { value: 4, mask: 3 },
    },
    Applied {
        operation: Operation::Xor,
        a: Tristate {
            value: MAX,
            mask: 0,
        },
        b: Tristate {
            value: MAX,
            mask: 0,
        },
        answer: Tristate { value: 0, mask: 0 },
    },
    Applied {
        operation: Operation::Xor,
        a: Tristate { value: 5, mask: 5 },
        b: Tristate { value: 1, mask: 0 },
        answer: Tristate { value: 0, mask: 5 },
    },
    Applied {
        operation: Operation::Shl,
        a: Tristate { value: 1, mask: 2 },
        b: Tristate { value: 63, mask: 0 },
        answer: Tristate {
            value: TOP,
            mask: 0,
        },
    },
    Applied {
        operation: Operation::Shl,
        a: Tristate { value: 5, mask: 2 },
        b: Tristate { value: 4, mask: 0 },
        answer: Tristate {
            value: 80,
            mask: 32,
        },
    },
    Applied {
        operation: Operation::Shl,
        a: Tristate { value: 1, mask: 0 },
        b: Tristate { value: 64, mask: 0 },
        answer: Tristate {
            value: 0,
            mask: MAX,
        },
    },
    Applied {
        operation: Operation::Shl,
        a: Tristate { value: 1, mask: 0 },
        b: Tristate { value: 0, mask: 1 },
        answer: Tristate {
            value: 0,
            mask: MAX,
        },
    },
    Applied {
        operation: Operation::Shr,
        a: Tristate {
            value: TOP,
            mask: 0,
        },
        b: Tristate { value: 63, mask: 0 },
        answer: Tristate { value: 1, mask: 0 },
    },
    Applied {
        operation: Operation::Shr,
        a: Tristate { value: 40, mask: 3 },
        b: Tristate { value: 2, mask: 0 },
        answer: Tristate { value: 10, mask: 0 },
    },
    Applied {
        operation: Operation::Shr,
        a: Tristate { value: 1, mask: 0 },
        b: Tristate { value: 64, mask: 0 },
        answer: Tristate {
            value: 0,
            mask: MAX,
        },
    },
    Applied {
        operation: Operation::Shr,
        a: Tristate { value: 1, mask: 0 },
        b: Tristate { value: 2, mask: 1 },
        answer: Tristate {
            value: 0,
            mask: MAX,
        },
    },
    Applied {
        operation: Operation::Mul,
        a: Tristate { value: 6, mask: 0 },
        b: Tristate { value: 7, mask: 0 },
        answer: Tristate { value: 42, mask: 0 },
    },
    Applied {
        operation: Operation::Mul,
        a: Tristate {
            value: TOP,
            mask: 0,
        },
        b: Tristate { value: 2, mask: 0 },
        answer: Tristate { value: 0, mask: 0 },
    },
    Applied {
        operation: Operation::Mul,
        a: Tristate { value: 6, mask: 1 },
        b: Tristate { value: 7, mask: 0 },
        answer: Tristate {
            value: 0,
            mask: MAX,
        },
    },
    Applied {
        operation: Operation::Div,
        a: Tristate { value: 43, mask: 0 },
        b: Tristate { value: 6, mask: 0 },
        answer: Tristate { value: 7, mask: 0 },
    },
    Applied {
        operation: Operation::Div,
        a: Tristate { value: 43, mask: 0 },
        b: Tristate { value: 0, mask: 0 },
        answer: Tristate {
            value: 0,
            mask: MAX,
        },
    },
    Applied {
        operation: Operation::Div,
        a: Tristate { value: 43, mask: 4 },
        b: Tristate { value: 6, mask: 0 },
        answer: Tristate {
            value: 0,
            mask: MAX,
        },
    },
];

/// Some operands have their ends in the other order.
pub static RANGES: [Applied<Range>; 18] = [
    Applied {
        operation: Operation::Add,
        a: Range { low: 1, high: 4 },
        b: Range { low: 10, high: 20 },
        answer: Range { low: 11, high: 24 },
    },
    Applied {
        operation: Operation::Add,
        a: Range { low: 8, high: 64 },
        b: Range {
            low: MAX - 7,
            high: MAX - 7,
        },
        answer: Range { low: 0, high: MAX },
    },
    Applied {
        operation: Operation::Add,
        a: Range { low: 4, high: 1 },
        b: Range {
            low: MAX - 4,
            high: MAX - 4,
        },
        answer: Range {
            low: MAX - 3,
            high: MAX,
        },
    },
    Applied {
        operation: Operation::Sub,
        a: Range { low: 10, high: 20 },
        b: Range { low: 1, high: 4 },
        answer: Range { low: 6, high: 19 },
    },
    Applied {
        operation: Operation::Sub,
        a: Range { low: 10, high: 20 },
        b: Range { low: 1, high: 11 },
        answer: Range { low: 0, high: MAX },
    },
    Applied {
        operation: Operation::Sub,
        a: Range { low: 10, high: 20 },
        b: Range { low: 10, high: 3 },
        answer: Range { low: 0, high: 17 },
    },
    Applied {
        operation: Operation::Mul,
        a: Range { low: 2, high: 3 },
        b: Range { low: 5, high: 7 },
        answer: Range { low: 10, high: 21 },
    },
    Applied {
        operation: Operation::Mul,
        a: Range { low: 0, high: TOP },
        b: Range { low: 0, high: 2 },
        answer: Range { low: 0, high: MAX },
    },
    Applied {
        operation: Operation::Mul,
        a: Range { low: 0, high: TOP },
        b: Range { low: 1, high: 1 },
        answer: Range { low: 0, high: TOP },
    },
    Applied {
        operation: Operation::Div,
        a: Range { low: 10, high: 20 },
        b: Range { low: 1, high: 1 },
        answer: Range { low: 0, high: 20 },
    },
    Applied {
        operation: Operation::Div,
        a: Range { low: 0, high: 0 },
        b: Range { low: 0, high: 0 },
        answer: Range { low: 0, high: 0 },
    },
    Applied {
        operation: Operation::Shr,
        a: Range { low: 9, high: 8 },
        b: Range { low: 64, high: 70 },
        answer: Range { low: 0, high: 9 },
    },
    Applied {
        operation: Operation::And,
        a: Range { low: 10, high: 20 },
        b: Range { low: 1, high: 7 },
        answer: Range { low: 0, high: 7 },
    },
    Applied {
        operation: Operation::And,
        a: Range {
            low: MAX,
            high: MAX,
        },
        b: Range { low: MAX, high: 0 },
        answer: Range { low: 0, high: MAX },
    },
    Applied {
        operation: Operation::Or,
        a: Range { low: 4, high: 5 },
        b: Range { low: 1, high: 8 },
        answer: Range { low: 4, high: MAX },
    },
    Applied {
        operation: Operation::Or,
        a: Range { low: 0, high: 0 },
        b: Range { low: 0, high: 1 },
        answer: Range { low: 0, high: MAX },
    },
    Applied {
        operation: Operation::Xor,
        a: Range { low: 1, high: 1 },
        b: Range { low: 1, high: 1 },
        answer: Range { low: 0, high: MAX },
    },
    Applied {
        operation: Operation::Shl,
        a: Range { low: 1, high: 1 },
        b: Range { low: 1, high: 1 },
        answer: Range { low: 0, high: MAX },
    },
];

/// The orders leave known bits, as they are read.
pub static BITS_NARROWED: [Narrowed<Tristate>; 14] = [
    Narrowed {
        relation: Relation::Equal,
        a: Tristate {
            value: 0,
            mask: MAX,
        },
        b: Tristate { value: 0, mask: 0 },
        answer: Some(Tristate { value: 0, mask: 0 }),
    },
    Narrowed {
        relation: Relation::Equal,
        a: Tristate { value: 1, mask: 0 },
        b: Tristate { value: 0, mask: 1 },
        answer: Some(Tristate { value: 1, mask: 0 }),
    },
    Narrowed {
        relation: Relation::Equal,
        a: Tristate {
            value: TOP,
            mask: 1,
        },
        b: Tristate {
            value: 0,
            mask: MAX - 1,
        },
        answer: Some(Tristate {
            value: TOP,
            mask: 0,
        }),
    },
    Narrowed {
        relation: Relation::Equal,
        a: Tristate { value: 0, mask: 0 },
        b: Tristate { value: 1, mask: 0 },
        answer: None,
    },
    Narrowed {
        relation: Relation::Equal,
        a: Tristate {
            value: MAX,
            mask: 0,
        },
        b: Tristate {
            value: MAX,
            mask: 0,
        },
        answer: Some(Tristate {
            value: MAX,
            mask: 0,
        }),
    },
    Narrowed {
        relation: Relation::Unequal,
        a: Tristate { value: 0, mask: 0 },
        b: Tristate { value: 0, mask: 0 },
        answer: None,
    },
    Narrowed {
        relation: Relation::Unequal,
        a: Tristate {
            value: MAX,
            mask: 0,
        },
        b: Tristate {
            value: MAX,
            mask: 0,
        },
        answer: None,
    },
    Narrowed {
        relation: Relation::Unequal,
        a: Tristate {
            value: TOP,
            mask: 0,
        },
        b: Tristate { value: 1, mask: 0 },
        answer: Some(Tristate {
            value: TOP,
            mask: 0,
        }),
    },
    Narrowed {
        relation: Relation::Unequal,
        a: Tristate { value: 0, mask: 1 },
        b: Tristate { value: 0, mask: 0 },
        answer: Some(Tristate { value: 0, mask: 1 }),
    },
    Narrowed {
        relation: Relation::Unequal,
        a: Tristate { value: 1, mask: 1 },
        b: Tristate { value: 1, mask: 1 },
        answer: Some(Tristate { value: 0, mask: 1 }),
    },
    Narrowed {
        relation: Relation::Less,
        a: Tristate { value: 0, mask: 0 },
        b: Tristate { value: 0, mask: 0 },
        answer: Some(Tristate { value: 0, mask: 0 }),
    },
    Narrowed {
        relation: Relation::LessOrEqual,
        a: Tristate {
            value: MAX,
            mask: 0,
        },
        b: Tristate { value: 0, mask: 0 },
        answer: Some(Tristate {
            value: MAX,
            mask: 0,
        }),
    },
    Narrowed {
        relation: Relation::Greater,
        a: Tristate { value: 3, mask: 1 },
        b: Tristate {
            value: MAX,
            mask: 0,
        },
        answer: Some(Tristate { value: 2, mask: 1 }),
    },
    Narrowed {
        relation: Relation::GreaterOrEqual,
        a: Tristate {
            value: 0,
            mask: MAX,
        },
        b: Tristate {
            value: MAX,
            mask: 0,
        },
        answer: Some(Tristate {
            value: 0,
            mask: MAX,
        }),
    },
];

/// No cut wraps at an end of the words.
pub static RANGES_NARROWED: [Narrowed<Range>; 29] = [
    Narrowed {
        relation: Relation::Equal,
        a: Range { low: 0, high: MAX },
        b: Range { low: 0, high: 0 },
        answer: Some(Range { low: 0, high: 0 }),
    },
    Narrowed {
        relation: Relation::Equal,
        a: Range { low: 0, high: MAX },
        b: Range {
            low: MAX,
            high: MAX,
        },
        answer: Some(Range {
            low: MAX,
            high: MAX,
        }),
    },
    Narrowed {
        relation: Relation::Equal,
        a: Range { low: 0, high: TOP },
        b: Range {
            low: TOP,
            high: MAX,
        },
        answer: Some(Range {
            low: TOP,
            high: TOP,
        }),
    },
    Narrowed {
        relation: Relation::Equal,
        a: Range { low: 0, high: 1 },
        b: Range {
            low: TOP,
            high: MAX,
        },
        answer: None,
    },
    Narrowed {
        relation: Relation::Unequal,
        a: Range { low: 0, high: MAX },
        b: Range { low: 0, high: 0 },
        answer: Some(Range { low: 1, high: MAX }),
    },
    Narrowed {
        relation: Relation::Unequal,
        a: Range { low: 0, high: MAX },
        b: Range {
            low: MAX,
            high: MAX,
        },
        answer: Some(Range {
            low: 0,
            high: MAX - 1,
        }),
    },
    Narrowed {
        relation: Relation::Unequal,
        a: Range { low: 0, high: MAX },
        b: Range { low: 1, high: 1 },
        answer: Some(Range { low: 0, high: MAX }),
    },
    Narrowed {
        relation: Relation::Unequal,
        a: Range {
            low: MAX,
            high: MAX,
        },
        b: Range {
            low: MAX,
            high: MAX,
        },
        answer: None,
    },
    Narrowed {
        relation: Relation::Unequal,
        a: Range { low: 0, high: 0 },
        b: Range { low: 0, high: 0 },
        answer: None,
    },
    Narrowed {
        relation: Relation::Unequal,
        a: Range {
            low: TOP,
            high: TOP + 1,
        },
        b: Range {
            low: TOP,
            high: TOP,
        },
        answer: Some(Range {
            low: TOP + 1,
            high: TOP + 1,
        }),
    },
    Narrowed {
        relation: Relation::Unequal,
        a: Range { low: 0, high: 1 },
        b: Range { low: 1, high: 0 },
        answer: Some(Range { low: 0, high: 1 }),
    },
    Narrowed {
        relation: Relation::Less,
        a: Range { low: 0, high: MAX },
        b: Range { low: 0, high: 0 },
        answer: None,
    },
    Narrowed {
        relation: Relation::Less,
        a: Range { low: 0, high: MAX },
        b: Range { low: 1, high: 1 },
        answer: Some(Range { low: 0, high: 0 }),
    },
    Narrowed {
        relation: Relation::Less,
        a: Range { low: 0, high: MAX },
        b: Range {
            low: TOP,
            high: TOP,
        },
        answer: Some(Range {
            low: 0,
            high: TOP - 1,
        }),
    },
    Narrowed {
        relation: Relation::Less,
        a: Range { low: 0, high: MAX },
        b: Range {
            low: MAX,
            high: MAX,
        },
        answer: Some(Range {
            low: 0,
            high: MAX - 1,
        }),
    },
    Narrowed {
        relation: Relation::Less,
        a: Range { low: 57, high: 60 },
        b: Range { low: 57, high: 57 },
        answer: None,
    },
    Narrowed {
        relation: Relation::Less,
        a: Range { low: 60, high: 57 },
        b: Range { low: 58, high: 58 },
        answer: Some(Range { low: 57, high: 57 }),
    },
    Narrowed {
        relation: Relation::LessOrEqual,
        a: Range { low: 0, high: MAX },
        b: Range { low: 0, high: 0 },
        answer: Some(Range { low: 0, high: 0 }),
    },
    Narrowed {
        relation: Relation::LessOrEqual,
        a: Range { low: 1, high: MAX },
        b: Range { low: 0, high: 0 },
        answer: None,
    },
    Narrowed {
        relation: Relation::LessOrEqual,
        a: Range { low: 0, high: MAX },
        b: Range {
            low: MAX,
            high: MAX,
        },
        answer: Some(Range { low: 0, high: MAX }),
    },
    Narrowed {
        relation: Relation::LessOrEqual,
        a: Range {
            low: TOP,
            high: MAX,
        },
        b: Range {
            low: TOP,
            high: TOP,
        },
        answer: Some(Range {
            low: TOP,
            high: TOP,
        }),
    },
    Narrowed {
        relation: Relation::Greater,
        a: Range { low: 0, high: MAX },
        b: Range {
            low: MAX,
            high: MAX,
        },
        answer: None,
    },
    Narrowed {
        relation: Relation::Greater,
        a: Range { low: 0, high: MAX },
        b: Range { low: 0, high: 0 },
        answer: Some(Range { low: 1, high: MAX }),
    },
    Narrowed {
        relation: Relation::Greater,
        a: Range { low: 0, high: MAX },
        b: Range {
            low: TOP,
            high: TOP,
        },
        answer: Some(Range {
            low: TOP + 1,
            high: MAX,
        }),
    },
    Narrowed {
        relation: Relation::Greater,
        a: Range { low: 0, high: 1 },
        b: Range { low: 1, high: 1 },
        answer: None,
    },
    Narrowed {
        relation: Relation::GreaterOrEqual,
        a: Range { low: 0, high: MAX },
        b: Range {
            low: MAX,
            high: MAX,
        },
        answer: Some(Range {
            low: MAX,
            high: MAX,
        }),
    },
    Narrowed {
        relation: Relation::GreaterOrEqual,
        a: Range { low: 0, high: 1 },
        b: Range {
            low: TOP,
            high: MAX,
        },
        answer: None,
    },
    Narrowed {
        relation: Relation::GreaterOrEqual,
        a: Range { low: 1, high: 0 },
        b: Range { low: 1, high: 1 },
        answer: Some(Range { low: 1, high: 1 }),
    },
    Narrowed {
        relation: Relation::GreaterOrEqual,
        a: Range { low: 0, high: MAX },
        b: Range { low: 0, high: 0 },
        answer: Some(Range { low: 0, high: MAX }),
    },
];

/// With the known bits of the facts, and then with the span of their range.
pub static BITS_ABSORBED: [Absorbed<Tristate>; 7] = [
    Absorbed {
        a: Tristate {
            value: 0,
            mask: MAX,
        },
        facts: Facts {
            bits: Tristate { value: 0, mask: 0 },
            range: Range { low: 0, high: MAX },
        },
        answer: Some(Tristate { value: 0, mask: 0 }),
    },
    Absorbed {
        a: Tristate {
            value: 0,
            mask: MAX,
        },
        facts: Facts {
            bits: Tristate {
                value: 1,
                mask: MAX - 1,
            },
            range: Range { low: 0, high: 1 },
        },
        answer: Some(Tristate { value: 1, mask: 0 }),
    },
    Absorbed {
        a: Tristate { value: 1, mask: 0 },
        facts: Facts {
            bits: Tristate {
                value: 0,
                mask: MAX - 1,
            },
            range: Range { low: 0, high: MAX },
        },
        answer: None,
    },
    Absorbed {
        a: Tristate {
            value: 0,
            mask: MAX,
        },
        facts: Facts {
            bits: Tristate {
                value: 0,
                mask: MAX,
            },
            range: Range {
                low: MAX,
                high: MAX,
            },
        },
        answer: Some(Tristate {
            value: MAX,
            mask: 0,
        }),
    },
    Absorbed {
        a: Tristate {
            value: 0,
            mask: MAX,
        },
        facts: Facts {
            bits: Tristate {
                value: 0,
                mask: MAX,
            },
            range: Range {
                low: TOP,
                high: MAX,
            },
        },
        answer: Some(Tristate {
            value: TOP,
            mask: TOP - 1,
        }),
    },
    Absorbed {
        a: Tristate { value: 0, mask: 1 },
        facts: Facts {
            bits: Tristate {
                value: 0,
                mask: MAX,
            },
            range: Range { low: 0, high: 0 },
        },
        answer: Some(Tristate { value: 0, mask: 0 }),
    },
    Absorbed {
        a: Tristate { value: 2, mask: 3 },
        facts: Facts {
            bits: Tristate { value: 3, mask: 1 },
            range: Range { low: 8, high: 8 },
        },
        answer: None,
    },
];

/// With the range of the facts, and then from the least to the greatest of their known bits.
pub static RANGES_ABSORBED: [Absorbed<Range>; 7] = [
    Absorbed {
        a: Range { low: 0, high: MAX },
        facts: Facts {
            bits: Tristate { value: 0, mask: 0 },
            range: Range { low: 0, high: MAX },
        },
        answer: Some(Range { low: 0, high: 0 }),
    },
    Absorbed {
        a: Range { low: 0, high: MAX },
        facts: Facts {
            bits: Tristate {
                value: 1,
                mask: MAX - 1,
            },
            range: Range { low: 0, high: MAX },
        },
        answer: Some(Range { low: 1, high: MAX }),
    },
    Absorbed {
        a: Range { low: 0, high: 1 },
        facts: Facts {
            bits: Tristate {
                value: TOP,
                mask: 0,
            },
            range: Range { low: 0, high: MAX },
        },
        answer: None,
    },
    Absorbed {
        a: Range { low: 0, high: MAX },
        facts: Facts {
            bits: Tristate {
                value: MAX,
                mask: 0,
            },
            range: Range { low: MAX, high: 0 },
        },
        answer: Some(Range {
            low: MAX,
            high: MAX,
        }),
    },
    Absorbed {
        a: Range { low: 5, high: 9 },
        facts: Facts {
            bits: Tristate {
                value: 0,
                mask: MAX,
            },
            range: Range { low: 9, high: 12 },
        },
        answer: Some(Range { low: 9, high: 9 }),
    },
    Absorbed {
        a: Range { low: 1, high: MAX },
        facts: Facts {
            bits: Tristate {
                value: 0,
                mask: MAX,
            },
            range: Range { low: 0, high: 0 },
        },
        answer: None,
    },
    Absorbed {
        a: Range { low: 0, high: MAX },
        facts: Facts {
            bits: Tristate {
                value: TOP,
                mask: TOP - 1,
            },
            range: Range { low: MAX, high: 1 },
        },
        answer: Some(Range {
            low: TOP,
            high: MAX,
        }),
    },
];

/// Words at the ends.
pub static BITS_HELD: [Held<Tristate>; 9] = [
    Held {
        a: Tristate { value: 0, mask: 0 },
        word: 0,
        answer: true,
    },
    Held {
        a: Tristate { value: 0, mask: 0 },
        word: 1,
        answer: false,
    },
    Held {
        a: Tristate { value: 0, mask: 1 },
        word: 1,
        answer: true,
    },
    Held {
        a: Tristate {
            value: TOP,
            mask: 0,
        },
        word: TOP,
        answer: true,
    },
    Held {
        a: Tristate {
            value: TOP,
            mask: TOP - 1,
        },
        word: MAX,
        answer: true,
    },
    Held {
        a: Tristate {
            value: TOP,
            mask: TOP - 1,
        },
        word: TOP - 1,
        answer: false,
    },
    Held {
        a: Tristate {
            value: MAX,
            mask: MAX,
        },
        word: 0,
        answer: true,
    },
    Held {
        a: Tristate {
            value: MAX,
            mask: 0,
        },
        word: MAX,
        answer: true,
    },
    Held {
        a: Tristate {
            value: MAX,
            mask: 0,
        },
        word: 0,
        answer: false,
    },
];

/// Words at the ends.
pub static RANGES_HELD: [Held<Range>; 9] = [
    Held {
        a: Range { low: 0, high: 0 },
        word: 0,
        answer: true,
    },
    Held {
        a: Range { low: 0, high: 0 },
        word: 1,
        answer: false,
    },
    Held {
        a: Range { low: 1, high: 0 },
        word: 1,
        answer: true,
    },
    Held {
        a: Range {
            low: TOP,
            high: MAX,
        },
        word: TOP,
        answer: true,
    },
    Held {
        a: Range {
            low: MAX,
            high: TOP,
        },
        word: TOP - 1,
        answer: false,
    },
    Held {
        a: Range {
            low: TOP,
            high: MAX,
        },
        word: MAX,
        answer: true,
    },
    Held {
        a: Range { low: 0, high: MAX },
        word: 0,
        answer: true,
    },
    Held {
        a: Range { low: 1, high: MAX },
        word: 0,
        answer: false,
    },
    Held {
        a: Range {
            low: MAX,
            high: MAX,
        },
        word: MAX,
        answer: true,
    },
];

/// The words at which a carry or a cut could go wrong.
pub static ENDS: [u64; 4] = [0, 1, TOP, MAX];
