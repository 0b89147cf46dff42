ghost use Rattle.std.specs.Prelude.{◌≡◌, [], ◌∷◌};
ghost use Rattle.machine.specs.Machine.{register_in, reads};
ghost use Rattle.rule.specs.declared.record.Item.TheVariants.{Instruction as Instructs};
ghost use Rattle.step.specs.Rows.{cell, amount, first_unset, doubted, first_report};

use super::cause::Cause;
use super::mark::Mark;
use super::report::Report;
use domain::Domain;
use rule::{Instruction, Operand};

/// What is known before an instruction: the values of its row, and its mark. Past the row a register holds any, and past
/// the mark it is not set.
#[derive(Clone, Copy)]
pub(crate) struct Before<'a, D> {
    pub(crate) row: &'a [D],
    pub(crate) mark: Mark,
}

impl<D: Domain> Before<'_, D> {
    pub(crate) fn cell(self, register: u8) -> D
        ensures { result ≡ cell D.Domain self.entry.row.now register }
    {
        self.row
            .get(usize::from(register))
            .copied()
            .unwrap_or_else(|| D::any())
    }

    pub(crate) fn amount(self, operand: Operand) -> D
        ensures { result ≡ amount D.Domain self.entry.row.now operand }
    {
        match operand {
            Operand::Register(k) => self.cell(k),
            Operand::Constant(c) => D::only(c),
        }
    }

    fn unset_register(self, register: u8) -> Option<u8>
        ensures { result ≡ first_unset self.entry.mark (register ∷ []) }
    {
        match self.mark.set.get(usize::from(register)) {
            Some(true) => None,
            Some(false) | None => Some(register),
        }
    }

    fn unset_operand(self, operand: Operand) -> Option<u8>
        ensures { result ≡ first_unset self.entry.mark (register_in operand) }
    {
        match operand {
            Operand::Register(k) => self.unset_register(k),
            Operand::Constant(_) => None,
        }
    }

    /// The first register that the instruction reads and that may be unset, in the order written.
    fn first_unset(self, instruction: Instruction<usize>) -> Option<u8>
        ensures { result ≡ first_unset self.entry.mark (reads (Instructs instruction)) }
    {
        match instruction {
            Instruction::Mov { source, .. } => self.unset_operand(source),
            Instruction::Alu {
                target,
                operand,
                ..
            } => self.unset_register(target).or(self.unset_operand(operand)),
            Instruction::Load { index, .. } => self.unset_operand(index),
            Instruction::Store { index, source, .. } => {
                self.unset_operand(index).or(self.unset_register(source))
            }
            Instruction::Branch { left, right, .. } => {
                self.unset_register(left).or(self.unset_operand(right))
            }
            Instruction::Ret => self.unset_register(0),
            Instruction::Jump { .. } => None,
        }
    }

    /// The report of an operand whose facts do not show the need.
    pub(crate) fn doubt(self, line: usize, operand: Operand, cause: Option<Cause>) -> Option<Report>
        ensures { result ≡ doubted D.Domain line self.entry.row.now operand cause }
    {
        let register = match operand {
            Operand::Register(k) => Some(k),
            Operand::Constant(_) => None,
        };
        let facts = self.amount(operand).facts();
        cause.map(|cause| Report::new(line, cause, register, facts))
    }

    /// A register that may be unset comes before every other cause.
    pub(crate) fn report(
        self,
        line: usize,
        instruction: Instruction<usize>,
        other: Option<Report>,
    ) -> Option<Report>
        ensures { result ≡ first_report D.Domain line self.entry.row.now (first_unset self.entry.mark (reads (Instructs instruction))) other }
    {
        match self.first_unset(instruction) {
            Some(k) => Some(Report::new(line, Cause::Unset, Some(k), self.cell(k).facts())),
            None => other,
        }
    }
}
