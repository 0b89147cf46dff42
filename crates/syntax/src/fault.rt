ghost use Rattle.std.specs.Prelude.{◌≡◌};
ghost use Rattle.syntax.specs.declared.fault.LineFault.TheVariants.{Field as InField};

use lexer::{FieldFault, Place};

/// Layer 3: a line of the wrong form, or the fault of a field.
#[derive(Clone, Copy, PartialEq, Eq, Debug)]
pub enum LineFault {
    Field(FieldFault),
    /// The first filled line is not `name size mode`, or there is none.
    Heading(Place),
    /// A line of no known form or field count.
    Form(Place),
}

impl From<FieldFault> for LineFault {
    ghost from_gives = { λ e r. r ≡ InField e };

    fn from(e: FieldFault) -> LineFault {
        LineFault::Field(e)
    }
}
