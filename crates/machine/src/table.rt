ghost use Rattle.std.specs.Prelude.{◌≡◌, ◌*◌, ◌≤◌, true, take, IfSome, MatchOption, Some, None};
ghost use Rattle.machine.specs.Memory.{start_of, total_size};
ghost use Rattle.machine.specs.Tables.{behind, buffer_count, code_length};
ghost use Rattle.machine.specs.Props.{valid_props};
ghost use Rattle.machine.specs.Valid.{layout_of, table_ok, Valid};

use super::memory::sizes_of;
use super::valid::Measured;
use rule::{Record, Shape};

/// A table that holds a rule: in front of it stand records that some text could give, but for the numbers of its lines.
#[derive(Clone, Copy)]
pub struct Rule<'a> {
    table: &'a [Record],
    shape: Shape,
    ghost valid: { Valid table.now } by { Prim.hlevel valid_props },
    ghost buffers: { shape.buffers ≡ buffer_count table.now },
    ghost instructions: { shape.instructions ≡ code_length table.now },
}

impl<'a> Rule<'a> {
    /// The rule that a table holds, if it holds one.
    pub fn of(table: &'a [Record]) -> Option<Rule<'a>>
        ensures layout { MatchOption result (layout_of table.now ≡ None) (λ r. (layout_of table.now ≡ Some r.shape) × (r.table.now ≡ table.now)) }
        ensures valid { IfSome result (λ _. Valid table.now) }
        ensures whole { IfSome result (λ _. table_ok table.now ≡ true) }
    {
        let measured = Measured::of(table);
        if measured.is_rule() {
            let shape = measured.shape;
            Some(Rule { table, shape })
        } else {
            None
        }
    }

    /// The rule in a table that is known to hold one, with its counts. Public only because crates divide the machine: the
    /// table is valid, and the counts are its own. A valid table may have any records behind its first blank.
    pub fn new(table: &'a [Record], shape: Shape) -> Rule<'a>
        requires valid { Valid table.now }
        requires buffers { shape.buffers ≡ buffer_count table.now }
        requires instructions { shape.instructions ≡ code_length table.now }
        ensures table { result.table.now ≡ table.now }
        ensures shape { result.shape ≡ shape }
    {
        Rule { table, shape }
    }

    /// The table, with the records behind the rule.
    pub fn table(self) -> &'a [Record]
        ensures { result.now ≡ self.entry.table.now }
    {
        self.table
    }

    /// How many buffers and instructions the rule has.
    pub fn shape(self) -> Shape
        ensures { result ≡ self.entry.shape }
    {
        self.shape
    }

    /// The instructions.
    pub fn code(self) -> &'a [Record]
        ensures { result.now ≡ take (code_length self.entry.table.now) (behind self.entry.table.now) }
    {
        let Shape {
            buffers,
            instructions,
        } = self.shape;
        &self.table[buffers..buffers + instructions]
    }

    /// Where a buffer begins in the memory. Public only because crates divide the machine: the rule has at least so many
    /// buffers.
    pub fn start_of(self, buffer: usize) -> usize
        requires { buffer ≤ buffer_count self.table.now }
        ensures value { result ≡ start_of self.entry.table.now buffer }
        ensures bound { result ≤ 1024 * buffer }
    {
        sizes_of(&self.table[..buffer])
    }

    /// The size of the memory of the rule.
    pub fn total_size(self) -> usize
        ensures { result ≡ total_size self.entry.table.now }
    {
        self.start_of(self.shape.buffers)
    }
}
