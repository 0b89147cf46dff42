ghost use Rattle.std.specs.Prelude.{◌≡◌};
ghost use Rattle.lexer.specs.Lines.{piece_of};
ghost use Rattle.syntax.specs.Operands.{register_of, operand_of, mode_of};

use lexer::{Field, FieldFault};
use rule::{Mode, Operand};

pub(crate) fn register(field: Field) -> Result<u8, FieldFault>
    ensures { result ≡ register_of (piece_of field.entry) }
{
    field.register().ok_or(FieldFault::Kind(field.place))
}

/// A register, and else a constant.
pub(crate) fn operand(field: Field) -> Result<Operand, FieldFault>
    ensures { result ≡ operand_of (piece_of field.entry) }
{
    if let Some(number) = field.register() {
        return Ok(Operand::Register(number));
    }
    field
        .constant()
        .map(Operand::Constant)
        .ok_or(FieldFault::Kind(field.place))
}

pub(crate) fn mode(field: Field) -> Result<Mode, FieldFault>
    ensures { result ≡ mode_of (piece_of field.entry) }
{
    if field.is(b"ro") {
        Ok(Mode::ReadOnly)
    } else if field.is(b"rw") {
        Ok(Mode::ReadWrite)
    } else {
        Err(FieldFault::Kind(field.place))
    }
}
