ghost use Rattle.std.specs.Prelude.{◌≡◌};
ghost use Rattle.lexer.specs.Fields.{spelled};
ghost use Rattle.syntax.specs.Spelled.{instruction as spelled_instruction};
ghost use Rattle.grammar.specs.Links.{source as source_of, sink as sink_of, target as target_of, resolved};
ghost use Rattle.reader.specs.Scopes.{scope_in};

use super::names::Names;
use super::survey::MOST_LABELS;
use grammar::ProgramFault;
use lexer::Name;
use rule::{Instruction, MOST_BUFFERS, Record};

/// What the names of a text stand for: its buffers by name and as records, its labels, and how many instructions it has.
#[derive(Clone, Copy)]
pub(crate) struct Scope<'a, 'b> {
    pub(crate) names: &'b Names<'a, MOST_BUFFERS>,
    pub(crate) heads: &'b [Record],
    pub(crate) labels: &'b Names<'a, MOST_LABELS>,
    pub(crate) count: usize,
}

impl Scope<'_, '_> {
    /// The buffer to load from.
    fn source(&self, name: Name) -> Result<usize, ProgramFault>
        ensures { result ≡ source_of (scope_in self.now) (spelled name.entry) }
    {
        self.names
            .get(name.text)
            .ok_or(ProgramFault::Unknown(name.place))
    }

    /// The buffer to store into.
    fn sink(&self, name: Name) -> Result<usize, ProgramFault>
        ensures { result ≡ sink_of (scope_in self.now) (spelled name.entry) }
    {
        match self.names.get(name.text) {
            Some(buffer)
                if self
                    .heads
                    .get(buffer)
                    .is_some_and(|record| record.item.is_writable()) => Ok(buffer),
            Some(_) => Err(ProgramFault::ReadOnly(name.place)),
            None => Err(ProgramFault::Unknown(name.place)),
        }
    }

    /// The instruction to jump to from instruction k.
    fn target(&self, k: usize, name: Name) -> Result<usize, ProgramFault>
        ensures { result ≡ target_of (scope_in self.now) k (spelled name.entry) }
    {
        match self.labels.get(name.text) {
            Some(to) if k < to && to < self.count => Ok(to),
            Some(_) => Err(ProgramFault::Backward(name.place)),
            None => Err(ProgramFault::Unknown(name.place)),
        }
    }

    /// Instruction k, with its names as the numbers that they stand for.
    pub(crate) fn resolve(
        &self,
        k: usize,
        instruction: Instruction<Name>,
    ) -> Result<Instruction<usize>, ProgramFault>
        ensures { result ≡ resolved (scope_in self.now) k (spelled_instruction instruction.entry) }
    {
        match instruction {
            Instruction::Mov { target, source } => Ok(Instruction::Mov { target, source }),
            Instruction::Alu {
                operation,
                target,
                operand,
            } => Ok(Instruction::Alu {
                operation,
                target,
                operand,
            }),
            Instruction::Load {
                width,
                target,
                buffer,
                index,
            } => {
                let buffer = self.source(buffer)?;
                Ok(Instruction::Load {
                    width,
                    target,
                    buffer,
                    index,
                })
            }
            Instruction::Store {
                width,
                buffer,
                index,
                source,
            } => {
                let buffer = self.sink(buffer)?;
                Ok(Instruction::Store {
                    width,
                    buffer,
                    index,
                    source,
                })
            }
            Instruction::Jump { to } => {
                let to = self.target(k, to)?;
                Ok(Instruction::Jump { to })
            }
            Instruction::Branch {
                condition,
                left,
                right,
                to,
            } => {
                let to = self.target(k, to)?;
                Ok(Instruction::Branch {
                    condition,
                    left,
                    right,
                    to,
                })
            }
            Instruction::Ret => Ok(Instruction::Ret),
        }
    }
}
