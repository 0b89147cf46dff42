ghost use Rattle.std.specs.Prelude.{◌≡◌, true, false, MatchResult};
ghost use Rattle.std.specs.Option.{is_some};
ghost use Rattle.checker.specs.Rules.{built_in};

use super::draft::Draft;
use super::passed::Passed;
use super::refusal::PassRefusal;
use machine::Rule;
use rule::{Instruction, Item, Operand, Record, Shape};

/// No buffers; the rule returns 0.
static BUILT_IN: [Record; 2] = [
    Record {
        line: 0,
        item: Item::Instruction(Instruction::Mov {
            target: 0,
            source: Operand::Constant(0),
        }),
    },
    Record {
        line: 0,
        item: Item::Instruction(Instruction::Ret),
    },
];

impl<'a> Passed<'a> {
    /// The rule that stands in a place before another is passed into it: no buffers, `mov r0 0` and `ret`.
    pub fn built_in() -> Passed<'a>
        ensures { result.rule.table.now ≡ built_in }
    {
        // no test when it runs: that the table holds a rule is proved
        let shape = Shape {
            buffers: 0,
            instructions: 2,
        };
        let rule = Rule::new(&BUILT_IN, shape);
        Passed { rule }
    }
}

impl<'a> Draft<'a> {
    /// Turns a clean draft into a passed rule, in a place that has one already. A draft that is not clean is spent too,
    /// and the place keeps its rule.
    pub fn pass(self, place: &mut Passed<'a>) -> Result<(), PassRefusal>
        ensures { MatchResult result
            (λ _. (is_some self.entry.clean ≡ true) × (place.new.rule.table.now ≡ self.entry.table.now))
            (λ _. (is_some self.entry.clean ≡ false) × (place.new.rule.table.now ≡ place.old.rule.table.now)) }
    {
        match self.clean {
            Some(rule) => {
                *place = rule;
                Ok(())
            }
            None => Err(PassRefusal::Unclean),
        }
    }
}
