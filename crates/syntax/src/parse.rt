ghost use Rattle.std.specs.Prelude.{◌≡◌, ◌∷◌, Err};
ghost use Rattle.lexer.specs.Lines.{piece_of, pieces_of};
ghost use Rattle.syntax.specs.declared.fault.LineFault.TheVariants.{Form};
ghost use Rattle.syntax.specs.Spelled.{said, instruction as spelled_instruction, statement as spelled_statement, LabelFrom};
ghost use Rattle.syntax.specs.Statements.{one, two, three, mov_of, alu_of, load_of, store_of, jump_of, branch_of, known_of, statement_of};
ghost use Rattle.syntax.specs.Words.{mnemonic_in};

use super::fault::LineFault;
use super::fields::{is_alone, one_more, three_more, two_more};
use super::mnemonic::{Mnemonic, mnemonic_in};
use super::operand::{operand, register};
use super::statement::Statement;
use lexer::{Filled, Name};
use rule::{Condition, Instruction};
use words::{Operation, Width};

/// `mov a b`
fn mov<'a>(line: Filled<'a>) -> Result<Instruction<Name<'a>>, LineFault>
    ensures { said spelled_instruction result ≡ two mov_of (Err (Form line.entry.first.place)) (pieces_of line.entry.rest) }
{
    let (a, b) = two_more(line)?;
    let target = register(a)?;
    let source = operand(b)?;
    Ok(Instruction::Mov { target, source })
}

/// `add a b` and its like
fn alu<'a>(operation: Operation, line: Filled<'a>) -> Result<Instruction<Name<'a>>, LineFault>
    ensures { said spelled_instruction result ≡ two (alu_of operation) (Err (Form line.entry.first.place)) (pieces_of line.entry.rest) }
{
    let (a, b) = two_more(line)?;
    let target = register(a)?;
    let operand = operand(b)?;
    Ok(Instruction::Alu {
        operation,
        target,
        operand,
    })
}

/// `ld8 a buf i` and its like
fn load<'a>(width: Width, line: Filled<'a>) -> Result<Instruction<Name<'a>>, LineFault>
    ensures { said spelled_instruction result ≡ three (load_of width) (Err (Form line.entry.first.place)) (pieces_of line.entry.rest) }
{
    let (a, buf, i) = three_more(line)?;
    let target = register(a)?;
    let buffer = buf.name()?;
    let index = operand(i)?;
    Ok(Instruction::Load {
        width,
        target,
        buffer,
        index,
    })
}

/// `st8 buf i a` and its like
fn store<'a>(width: Width, line: Filled<'a>) -> Result<Instruction<Name<'a>>, LineFault>
    ensures { said spelled_instruction result ≡ three (store_of width) (Err (Form line.entry.first.place)) (pieces_of line.entry.rest) }
{
    let (buf, i, a) = three_more(line)?;
    let buffer = buf.name()?;
    let index = operand(i)?;
    let source = register(a)?;
    Ok(Instruction::Store {
        width,
        buffer,
        index,
        source,
    })
}

/// `jmp L`
fn jump<'a>(line: Filled<'a>) -> Result<Instruction<Name<'a>>, LineFault>
    ensures { said spelled_instruction result ≡ one jump_of (Err (Form line.entry.first.place)) (pieces_of line.entry.rest) }
{
    let label = one_more(line)?;
    let to = label.name()?;
    Ok(Instruction::Jump { to })
}

/// `jeq a b L` and its like
fn branch<'a>(condition: Condition, line: Filled<'a>) -> Result<Instruction<Name<'a>>, LineFault>
    ensures { said spelled_instruction result ≡ three (branch_of condition) (Err (Form line.entry.first.place)) (pieces_of line.entry.rest) }
{
    let (a, b, label) = three_more(line)?;
    let left = register(a)?;
    let right = operand(b)?;
    let to = label.name()?;
    Ok(Instruction::Branch {
        condition,
        left,
        right,
        to,
    })
}

fn instruction<'a>(line: Filled<'a>) -> Result<Instruction<Name<'a>>, LineFault>
    ensures { said spelled_instruction result ≡ known_of line.entry.first.place (mnemonic_in line.entry.first.text.now) (pieces_of line.entry.rest) }
{
    let form = LineFault::Form(line.first.place);
    match mnemonic_in(line.first.text).ok_or(form)? {
        Mnemonic::Mov => mov(line),
        Mnemonic::Alu(operation) => alu(operation, line),
        Mnemonic::Load(width) => load(width, line),
        Mnemonic::Store(width) => store(width, line),
        Mnemonic::Jump => jump(line),
        Mnemonic::Branch(condition) => branch(condition, line),
        Mnemonic::Ret if is_alone(line) => Ok(Instruction::Ret),
        Mnemonic::Ret => Err(form),
    }
}

/// What a line says after the line `code`.
pub fn parse_statement<'a>(line: Filled<'a>) -> Result<Statement<Name<'a>>, LineFault>
    ensures value { said spelled_statement result ≡ statement_of (piece_of line.entry.first) (pieces_of line.entry.rest) }
    ensures label { LabelFrom (piece_of line.entry.first) result }
{
    if is_alone(line) && line.first.ends_in_colon() {
        let name = line.first.without_last().name()?;
        return Ok(Statement::Label(name));
    }
    Ok(Statement::Instruction(instruction(line)?))
}
