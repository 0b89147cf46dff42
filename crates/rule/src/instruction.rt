ghost use Rattle.std.specs.Prelude.{◌≡◌};
ghost use Rattle.rule.specs.Instructions.{is_ret, relation_of};

use words::{Operation, Relation, Width};

/// What an instruction reads: a register by its number, or a constant.
#[derive(Clone, Copy, PartialEq, Eq, Debug)]
pub enum Operand {
    Register(u8),
    Constant(u64),
}

/// On what a branch jumps: `jeq`, `jne`, `jlt` and `jle`. Four of the six relations: a table can hold no other branch.
#[derive(Clone, Copy, PartialEq, Eq, Debug)]
pub enum Condition {
    Equal,
    Unequal,
    Less,
    LessOrEqual,
}

impl From<Condition> for Relation {
    ghost from_gives = { λ c r. r ≡ relation_of c };

    fn from(condition: Condition) -> Relation {
        match condition {
            Condition::Equal => Relation::Equal,
            Condition::Unequal => Relation::Unequal,
            Condition::Less => Relation::Less,
            Condition::LessOrEqual => Relation::LessOrEqual,
        }
    }
}

/// An instruction. Registers go by their number. Buffers and the instructions to jump to go as `N`: by their names, as
/// they are written, or by their places among their kind, from 0, once they are read.
#[derive(Clone, Copy, PartialEq, Eq, Debug)]
pub enum Instruction<N> {
    Mov {
        target: u8,
        source: Operand,
    },
    Alu {
        operation: Operation,
        target: u8,
        operand: Operand,
    },
    Load {
        width: Width,
        target: u8,
        buffer: N,
        index: Operand,
    },
    Store {
        width: Width,
        buffer: N,
        index: Operand,
        source: u8,
    },
    Jump {
        to: N,
    },
    Branch {
        condition: Condition,
        left: u8,
        right: Operand,
        to: N,
    },
    Ret,
}

impl<N> Instruction<N> {
    /// Does it end the rule?
    pub fn is_ret(&self) -> bool
        ensures { result ≡ is_ret self.now }
    {
        matches!(self, Instruction::Ret)
    }
}
