ghost use Rattle.std.specs.Prelude.{◌≡◌, Some, None};
ghost use Rattle.rule.specs.declared.record.Item.TheVariants.{Instruction as Instructs};
ghost use Rattle.rule.specs.declared.instruction.Instruction.TheVariants as instruction;
ghost use Rattle.rule.specs.Instructions.{relation_of};
ghost use Rattle.step.specs.Rows.{cell, amount, unchanged, patched, goes_on, shown};
ghost use Rattle.step.specs.Transfer.{alu_cause, index_cause, judged, opposite as opposite_of, mirrored, side_of, is_same, patch_to, branch_side, jump_to, transfer};

use super::before::Before;
use super::cause::Cause;
use super::judge::{judge_access, judge_divisor, judge_shift};
use super::mark::Mark;
use super::outcome::{Change, Jump, Outcome, Patch};
use super::report::Report;
use domain::Domain;
use machine::size_of;
use rule::{Condition, Instruction, Item, Operand, Record};
use words::{Operation, Relation, Width};

// ── whether there is a report ──

fn alu_cause<D: Domain>(operation: Operation, b: D) -> Option<Cause>
    ensures { result ≡ alu_cause D.Domain operation b }
{
    match operation {
        Operation::Div => judge_divisor(b.facts()),
        Operation::Shl | Operation::Shr => judge_shift(b.facts()),
        Operation::Add
        | Operation::Sub
        | Operation::Mul
        | Operation::And
        | Operation::Or
        | Operation::Xor => None,
    }
}

fn index_cause<D: Domain>(table: &[Record], buffer: usize, width: Width, index: D) -> Option<Cause>
    ensures { result ≡ index_cause D.Domain table.now buffer width index }
{
    judge_access(index.facts(), width, size_of(table, buffer))
}

/// At most one report of an instruction: the first cause that holds of it.
fn judge<D: Domain>(
    table: &[Record],
    line: usize,
    instruction: Instruction<usize>,
    before: Before<'_, D>,
) -> Option<Report>
    ensures { result ≡ judged D.Domain table.now line (Instructs instruction) before.entry.row.now before.entry.mark }
{
    let other = match instruction {
        Instruction::Alu {
            operation,
            operand,
            ..
        } => {
            let cause = alu_cause(operation, before.amount(operand));
            before.doubt(line, operand, cause)
        }
        Instruction::Load {
            width,
            buffer,
            index,
            ..
        }
        | Instruction::Store {
            width,
            buffer,
            index,
            ..
        } => {
            let cause = index_cause(table, buffer, width, before.amount(index));
            before.doubt(line, index, cause)
        }
        _ => None,
    };
    before.report(line, instruction, other)
}

// ── what goes on ──

impl<D: Domain> Change<D> {
    /// One register changes.
    fn one(register: u8, value: D) -> Change<D>
        ensures { result ≡ patched register value }
    {
        Change {
            first: Some(Patch { register, value }),
            second: None,
        }
    }

    fn none() -> Change<D>
        ensures { result ≡ unchanged }
    {
        Change {
            first: None,
            second: None,
        }
    }
}

fn go_on<D: Domain>(report: Option<Report>, change: Change<D>) -> Outcome<D>
    ensures { result ≡ goes_on report change }
{
    Outcome {
        report,
        next: Some(change),
        jump: None,
        answer: None,
    }
}

/// After a report the target holds any.
fn choose<D: Domain>(report: Option<Report>, value: D) -> D
    ensures { result ≡ shown report value D.Domain.every }
{
    match report {
        Some(_) => D::any(),
        None => value,
    }
}

// The two tables of relations are matches, each arm a line: what they have in common is their shape alone.

fn opposite(relation: Relation) -> Relation
    ensures { result ≡ opposite_of relation }
{
    match relation {
        Relation::Equal => Relation::Unequal,
        Relation::Unequal => Relation::Equal,
        Relation::Less => Relation::GreaterOrEqual,
        Relation::LessOrEqual => Relation::Greater,
        Relation::Greater => Relation::LessOrEqual,
        Relation::GreaterOrEqual => Relation::Less,
    }
}

fn mirror(relation: Relation) -> Relation
    ensures { result ≡ mirrored relation }
{
    match relation {
        Relation::Equal => Relation::Equal,
        Relation::Unequal => Relation::Unequal,
        Relation::Less => Relation::Greater,
        Relation::LessOrEqual => Relation::GreaterOrEqual,
        Relation::Greater => Relation::Less,
        Relation::GreaterOrEqual => Relation::LessOrEqual,
    }
}

fn is_same(left: u8, right: Operand) -> bool
    ensures { result ≡ is_same left right }
{
    match right {
        Operand::Register(k) => left == k,
        Operand::Constant(_) => false,
    }
}

fn patch_to<D: Domain>(operand: Operand, value: D) -> Option<Patch<D>>
    ensures { result ≡ patch_to operand value }
{
    match operand {
        Operand::Register(register) => Some(Patch { register, value }),
        Operand::Constant(_) => None,
    }
}

/// Both operands narrowed from their values at the entry; none where either is closed.
fn side<D: Domain>(
    relation: Relation,
    left: u8,
    right: Operand,
    before: Before<'_, D>,
) -> Option<Change<D>>
    ensures { result ≡ side_of D.Domain relation left right before.entry.row.now }
{
    let a = before.cell(left);
    let b = before.amount(right);
    let value = a.narrow(relation, b)?;
    let other = b.narrow(mirror(relation), a)?;
    Some(Change {
        first: Some(Patch {
            register: left,
            value,
        }),
        second: patch_to(right, other),
    })
}

/// A side of a branch: narrowed, unless there is a report or a register is compared with itself.
fn branch_side<D: Domain>(
    report: Option<Report>,
    relation: Relation,
    left: u8,
    right: Operand,
    before: Before<'_, D>,
) -> Option<Change<D>>
    ensures { result ≡ branch_side D.Domain report relation left right before.entry.row.now }
{
    match report {
        Some(_) => Some(Change::none()),
        None if is_same(left, right) => Some(Change::none()),
        None => side(relation, left, right, before),
    }
}

fn branch<D: Domain>(
    report: Option<Report>,
    condition: Condition,
    left: u8,
    right: Operand,
    to: usize,
    before: Before<'_, D>,
) -> Outcome<D>
    ensures { result ≡ record { report = report; next = branch_side D.Domain report (opposite_of (relation_of condition)) left right before.entry.row.now; jump = jump_to to (branch_side D.Domain report (relation_of condition) left right before.entry.row.now); answer = None } }
{
    let relation = Relation::from(condition);
    Outcome {
        report,
        next: branch_side(report, opposite(relation), left, right, before),
        jump: branch_side(report, relation, left, right, before).map(|change| Jump { to, change }),
        answer: None,
    }
}

/// What goes on nowhere, but for what is given.
fn stop<D: Domain>(report: Option<Report>, jump: Option<Jump<D>>, answer: Option<D>) -> Outcome<D>
    ensures { result ≡ record { report = report; next = None; jump = jump; answer = answer } }
{
    Outcome {
        report,
        next: None,
        jump,
        answer,
    }
}

fn ret<D: Domain>(report: Option<Report>, before: Before<'_, D>) -> Outcome<D>
    ensures { result ≡ record { report = report; next = None; jump = None; answer = shown report (Some (cell D.Domain before.entry.row.now 0)) None } }
{
    match report {
        Some(_) => stop(report, None, None),
        None => stop(report, None, Some(before.cell(0))),
    }
}

/// What an instruction makes of what is known before it.
fn carry_out<D: Domain>(
    table: &[Record],
    line: usize,
    instruction: Instruction<usize>,
    before: Before<'_, D>,
) -> Outcome<D>
    ensures { result ≡ transfer D.Domain table.now line (Instructs instruction) before.entry.row.now before.entry.mark }
{
    let report = judge(table, line, instruction, before);
    match instruction {
        Instruction::Mov { target, source } => {
            let value = before.amount(source);
            go_on(report, Change::one(target, choose(report, value)))
        }
        Instruction::Alu {
            operation,
            target,
            operand,
        } => {
            let value = D::of(operation, before.cell(target), before.amount(operand));
            go_on(report, Change::one(target, choose(report, value)))
        }
        Instruction::Load { width, target, .. } => go_on(
            report,
            Change::one(target, D::low(width)),
        ),
        Instruction::Store { .. } => go_on(report, Change::none()),
        Instruction::Jump { to } => {
            let change = Change::none();
            stop(report, Some(Jump { to, change }), None)
        }
        Instruction::Branch {
            condition,
            left,
            right,
            to,
        } => branch(report, condition, left, right, to, before),
        Instruction::Ret => ret(report, before),
    }
}

/// What the instruction makes of its row and mark. What is no instruction leads nowhere.
pub fn carry<D: Domain>(
    table: &[Record],
    line: usize,
    item: Item,
    row: &[D],
    mark: Mark,
) -> Outcome<D>
    ensures { result ≡ transfer D.Domain table.now line item row.now mark }
{
    match item {
        Item::Instruction(instruction) => {
            carry_out(table, line, instruction, Before { row, mark })
        }
        Item::Buffer { .. } | Item::Blank => stop(None, None, None),
    }
}
