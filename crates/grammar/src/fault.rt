ghost use Rattle.std.specs.Prelude.{◌≡◌};
ghost use Rattle.grammar.specs.declared.fault.ProgramFault.TheVariants.{Line as InLine};

use lexer::Place;
use syntax::LineFault;

/// Layer 4: what the text as a whole does not allow, or the fault of a line.
#[derive(Clone, Copy, PartialEq, Eq, Debug)]
pub enum ProgramFault {
    Line(LineFault),
    /// The text has more than 8192 bytes.
    TooLong,
    /// A buffer or a label is declared twice: at the second.
    Repeated(Place),
    /// No room for one more buffer or instruction.
    Full(Place),
    /// A buffer or a label that nothing declares.
    Unknown(Place),
    /// A jump to no later instruction.
    Backward(Place),
    /// A store into a read-only buffer.
    ReadOnly(Place),
    /// The text does not close with `ret` as its last instruction: how many bytes it has.
    Unclosed(usize),
}

impl From<LineFault> for ProgramFault {
    ghost from_gives = { λ e r. r ≡ InLine e };

    fn from(e: LineFault) -> ProgramFault {
        ProgramFault::Line(e)
    }
}
