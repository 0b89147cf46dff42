ghost use Rattle.std.specs.Prelude.{◌≡◌, ℕ, ◌+◌, ◌<◌, ◌≤◌, List, length, IfSome};
ghost use Rattle.words.specs.Widths.{bytes_of};
ghost use Rattle.rule.specs.declared.record.Item.TheVariants.{Instruction as Instructs};
ghost use Rattle.machine.specs.Memory.{total_size};
ghost use Rattle.machine.specs.Tables.{buffer_count};
ghost use Rattle.engine.specs.Buffers.{HasBuffer};
ghost use Rattle.engine.specs.Steps.{fetched, result_in, is_related, alu_of, place_in, load_of, stores, branches, stepped, puts, step_of};

use super::bytes;
use super::next::Next;
use super::place::place;
use super::registers::Registers;
use machine::Rule;
use rule::{Condition, Instruction, Operand};
use words::{Operation, Width};

/// The operation's result; none for a divisor of 0 and a shift by more than 63. A match: a table of closures would say the
/// same operators with more words.
fn compute(operation: Operation, x: u64, y: u64) -> Option<u64>
    ensures { result ≡ result_in operation x y }
{
    match operation {
        Operation::Add => Some(x.wrapping_add(y)),
        Operation::Sub => Some(x.wrapping_sub(y)),
        Operation::Mul => Some(x.wrapping_mul(y)),
        Operation::Div => x.checked_div(y),
        Operation::And => Some(x & y),
        Operation::Or => Some(x | y),
        Operation::Xor => Some(x ^ y),
        Operation::Shl if y <= 63 => Some(x << y),
        Operation::Shr if y <= 63 => Some(x >> y),
        Operation::Shl | Operation::Shr => None,
    }
}

fn holds(condition: Condition, x: u64, y: u64) -> bool
    ensures { result ≡ is_related condition x y }
{
    match condition {
        Condition::Equal => x == y,
        Condition::Unequal => x != y,
        Condition::Less => x < y,
        Condition::LessOrEqual => x <= y,
    }
}

/// The place in the memory of the bytes at an index of a buffer, where they lie in it and the index is a multiple of
/// their number.
fn aligned(rule: Rule<'_>, buffer: usize, width: Width, index: u64) -> Option<usize>
    requires { buffer < buffer_count rule.table.now }
    ensures value { result ≡ place_in rule.entry.table.now buffer width index }
    ensures inside { IfSome result (λ at. at + bytes_of width ≤ total_size rule.entry.table.now) }
{
    let count = width.bytes();
    let index = index as usize;
    if index % count == 0 {
        place(rule, buffer, index, count)
    } else {
        None
    }
}

fn mov(registers: &mut Registers, target: u8, source: Operand) -> Option<Next>
    ensures { (k : ℕ) (m : List ℕ) → stepped k result registers.new.words m ≡ puts k target registers.old.words m (fetched registers.old.words source) }
{
    let word = registers.value(source)?;
    registers.set(target, word);
    Some(Next::Onward)
}

fn alu(
    registers: &mut Registers,
    operation: Operation,
    target: u8,
    operand: Operand,
) -> Option<Next>
    ensures { (k : ℕ) (m : List ℕ) → stepped k result registers.new.words m ≡ puts k target registers.old.words m (alu_of registers.old.words operation target operand) }
{
    let x = registers.get(target)?;
    let y = registers.value(operand)?;
    let word = compute(operation, x, y)?;
    registers.set(target, word);
    Some(Next::Onward)
}

fn load(
    rule: Rule<'_>,
    registers: &mut Registers,
    memory: &[u8],
    width: Width,
    target: u8,
    buffer: usize,
    index: Operand,
) -> Option<Next>
    requires there { buffer < buffer_count rule.table.now }
    requires memory { length memory.now ≡ total_size rule.table.now }
    ensures { (k : ℕ) → stepped k result registers.new.words memory.now ≡ puts k target registers.old.words memory.now (load_of rule.entry.table.now registers.old.words memory.now width buffer index) }
{
    let index = registers.value(index)?;
    let at = aligned(rule, buffer, width, index)?;
    registers.set(target, bytes::load(memory, at, width));
    Some(Next::Onward)
}

/// Stores the low bytes of a register. Nothing is written where there is no place for them.
fn store(
    rule: Rule<'_>,
    registers: &Registers,
    memory: &mut [u8],
    width: Width,
    buffer: usize,
    index: Operand,
    source: u8,
) -> Option<Next>
    requires there { buffer < buffer_count rule.table.now }
    requires memory { length memory.old ≡ total_size rule.table.now }
    ensures { (k : ℕ) → stepped k result registers.now.words memory.new ≡ stores rule.entry.table.now k width buffer index source registers.now.words memory.old }
{
    let index = registers.value(index)?;
    let word = registers.get(source)?;
    let at = aligned(rule, buffer, width, index)?;
    bytes::store(memory, at, width, word);
    Some(Next::Onward)
}

fn branch(
    registers: &Registers,
    condition: Condition,
    left: u8,
    right: Operand,
    to: usize,
) -> Option<Next>
    ensures { (k : ℕ) (m : List ℕ) → stepped k result registers.now.words m ≡ branches k condition left right to registers.now.words m }
{
    let x = registers.get(left)?;
    let y = registers.value(right)?;
    if holds(condition, x, y) {
        Some(Next::Jump(to))
    } else {
        Some(Next::Onward)
    }
}

// The rule, the registers and the memory are passed one by one. A struct of the three could hold the fact of the memory's
// size, and would need two clauses at each method in its place: it keeps its rule, and its reference to the memory.

/// Carries out one instruction, wherever it stands; nothing comes of one that is stuck.
pub(crate) fn carry_out(
    rule: Rule<'_>,
    instruction: Instruction<usize>,
    registers: &mut Registers,
    memory: &mut [u8],
) -> Option<Next>
    requires there { HasBuffer rule.table.now instruction }
    requires memory { length memory.old ≡ total_size rule.table.now }
    ensures { (k : ℕ) → stepped k result registers.new.words memory.new ≡ step_of rule.entry.table.now k (Instructs instruction) registers.old.words memory.old }
{
    match instruction {
        Instruction::Mov { target, source } => mov(registers, target, source),
        Instruction::Alu {
            operation,
            target,
            operand,
        } => alu(registers, operation, target, operand),
        Instruction::Load {
            width,
            target,
            buffer,
            index,
        } => load(rule, registers, memory, width, target, buffer, index),
        Instruction::Store {
            width,
            buffer,
            index,
            source,
        } => store(rule, registers, memory, width, buffer, index, source),
        Instruction::Jump { to } => Some(Next::Jump(to)),
        Instruction::Branch {
            condition,
            left,
            right,
            to,
        } => branch(registers, condition, left, right, to),
        Instruction::Ret => registers.get(0).map(Next::Return),
    }
}
