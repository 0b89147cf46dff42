ghost use Rattle.std.specs.Prelude.{◌≡◌, ◌+◌, ◌≤◌, ◌&&◌, length};
ghost use Rattle.rule.specs.declared.record.Item.TheVariants.{Instruction as Instructs};
ghost use Rattle.machine.specs.Tables.{behind, buffer_count, code_length, filled_count, writable_at};
ghost use Rattle.machine.specs.Valid.{operand_ok, jump_ok, item_ok, code_ok, is_ret, size_ok, heads_ok, blanks_ok, counts_ok, rest_ok, table_ok};

use rule::{Instruction, Item, MOST_BUFFERS, MOST_INSTRUCTIONS, Operand, Record, Shape};

/// How many buffers stand in front of a table.
fn count_buffers(table: &[Record]) -> usize
    ensures value { result ≡ buffer_count table.now }
    ensures bound { result ≤ length table.now }
{
    table
        .iter()
        .take_while(|record| record.item.is_buffer())
        .count()
}

/// How many records stand before the first blank.
fn count_filled(records: &[Record]) -> usize
    ensures value { result ≡ filled_count records.now }
    ensures bound { result ≤ length records.now }
{
    records
        .iter()
        .take_while(|record| !record.item.is_blank())
        .count()
}

/// How many buffers stand in front of a table, and how many records behind them before the first blank.
pub fn measure(table: &[Record]) -> Shape
    ensures buffers { result.buffers ≡ buffer_count table.now }
    ensures instructions { result.instructions ≡ code_length table.now }
    ensures inside { result.buffers + result.instructions ≤ length table.now }
{
    let buffers = count_buffers(table);
    let instructions = count_filled(&table[buffers..]);
    Shape {
        buffers,
        instructions,
    }
}

fn fits_operand(operand: Operand) -> bool
    ensures { result ≡ operand_ok operand }
{
    match operand {
        Operand::Register(k) => k < 8,
        Operand::Constant(_) => true,
    }
}

fn fits_size(item: Item) -> bool
    ensures { result ≡ size_ok item }
{
    let size = item.size();
    1 <= size && size <= 1024
}

/// Has each buffer in front of a table a size that it may have?
fn fit_heads(table: &[Record]) -> bool
    ensures { result ≡ heads_ok table.now }
{
    table
        .iter()
        .take_while(|record| record.item.is_buffer())
        .all(|record| fits_size(record.item))
}

fn are_blank(records: &[Record]) -> bool
    ensures { result ≡ blanks_ok records.now }
{
    records.iter().all(|record| record.item.is_blank())
}

fn is_writable(table: &[Record], buffer: usize) -> bool
    ensures { result ≡ writable_at table.now buffer }
{
    table
        .get(buffer)
        .is_some_and(|record| record.item.is_writable())
}

fn fits_jump(n: usize, k: usize, to: usize) -> bool
    ensures { result ≡ jump_ok n k to }
{
    k < to && to < n
}

fn is_ret(item: Item) -> bool
    ensures { result ≡ is_ret item }
{
    match item {
        Item::Instruction(instruction) => instruction.is_ret(),
        Item::Buffer { .. } | Item::Blank => false,
    }
}

fn fit_counts(shape: Shape) -> bool
    ensures { result ≡ counts_ok shape.buffers shape.instructions }
{
    let Shape {
        buffers,
        instructions,
    } = shape;
    buffers <= MOST_BUFFERS && (1 <= instructions && instructions <= MOST_INSTRUCTIONS)
}

/// A table and its counts, whether it holds a rule or not.
#[derive(Clone, Copy)]
pub(crate) struct Measured<'a> {
    pub(crate) table: &'a [Record],
    pub(crate) shape: Shape,
    ghost buffers: { shape.buffers ≡ buffer_count table.now },
    ghost instructions: { shape.instructions ≡ code_length table.now },
    ghost inside: { shape.buffers + shape.instructions ≤ length table.now },
}

impl<'a> Measured<'a> {
    pub(crate) fn of(table: &'a [Record]) -> Measured<'a>
        ensures { result.table.now ≡ table.now }
    {
        let shape = measure(table);
        Measured { table, shape }
    }

    /// The records behind the buffers.
    fn behind(self) -> &'a [Record]
        ensures value { result.now ≡ behind self.entry.table.now }
        ensures long { code_length self.entry.table.now ≤ length result.now }
    {
        &self.table[self.shape.buffers..]
    }

    /// Is the instruction one that a text could give as instruction k?
    fn fits(self, k: usize, instruction: Instruction<usize>) -> bool
        ensures { result ≡ item_ok self.entry.table.now (code_length self.entry.table.now) k (Instructs instruction) }
    {
        let Shape {
            buffers,
            instructions,
        } = self.shape;
        match instruction {
            Instruction::Mov { target, source } => target < 8 && fits_operand(source),
            Instruction::Alu {
                target,
                operand,
                ..
            } => target < 8 && fits_operand(operand),
            Instruction::Load {
                target,
                buffer,
                index,
                ..
            } => target < 8 && (buffer < buffers && fits_operand(index)),
            Instruction::Store {
                buffer,
                index,
                source,
                ..
            } => {
                (buffer < buffers && is_writable(self.table, buffer))
                    && (fits_operand(index) && source < 8)
            }
            Instruction::Jump { to } => fits_jump(instructions, k, to),
            Instruction::Branch {
                left,
                right,
                to,
                ..
            } => left < 8 && (fits_operand(right) && fits_jump(instructions, k, to)),
            Instruction::Ret => true,
        }
    }

    /// Is the item an instruction, and one that a text could give there?
    fn fits_item(self, k: usize, item: Item) -> bool
        ensures { result ≡ item_ok self.entry.table.now (code_length self.entry.table.now) k item }
    {
        match item {
            Item::Instruction(instruction) => self.fits(k, instruction),
            Item::Buffer { .. } | Item::Blank => false,
        }
    }

    /// Are the records behind the buffers, as far as they are counted, instructions that a text could give?
    fn fits_code(self) -> bool
        ensures { result ≡ code_ok self.entry.table.now (behind self.entry.table.now) (code_length self.entry.table.now) (code_length self.entry.table.now) }
    {
        let code = &self.behind()[..self.shape.instructions];
        let mut fine = true;
        // no `all`: the definition goes from the last instruction to the first
        for (k, record) in code.iter().enumerate() {
            fine = self.fits_item(k, record.item) & fine;
        }
        fine
    }

    /// Are the buffers' sizes fit, and of the records behind them so many instructions, the last `ret`, and the rest blank?
    fn fits_rest(self) -> bool
        requires { 1 ≤ code_length self.table.now }
        ensures { result ≡ rest_ok self.entry.table.now (behind self.entry.table.now) (code_length self.entry.table.now) }
    {
        let behind = self.behind();
        let n = self.shape.instructions;
        let framed = fit_heads(self.table) & are_blank(&behind[n..]);
        let closed = self.fits_code() & is_ret(behind[n - 1].item);
        framed & closed
    }

    /// Does the table hold a rule?
    pub(crate) fn is_rule(self) -> bool
        ensures { result ≡ table_ok self.entry.table.now }
    {
        fit_counts(self.shape) && self.fits_rest()
    }
}
