ghost use Rattle.std.specs.Prelude.{◌≡◌};
ghost use Rattle.grammar.specs.Refusals.{refused, refusal_of};

use super::fault::ProgramFault;
use lexer::{FieldFault, Place};
use syntax::LineFault;

/// What a fault tells: the number of the refusal, the spot that it names, and the layer that found it. The fault itself
/// is an enum; these are the numbers that are printed of it.
#[derive(Clone, Copy, PartialEq, Eq, Debug)]
pub struct Refusal {
    pub number: u8,
    pub line: usize,
    pub place: usize,
    pub layer: u8,
}

impl Refusal {
    fn new(number: u8, layer: u8, spot: Place) -> Refusal
        ensures { result ≡ refused number layer spot }
    {
        Refusal {
            number,
            line: spot.line,
            place: spot.at,
            layer,
        }
    }
}

impl ProgramFault {
    pub fn refusal(self) -> Refusal
        ensures { result ≡ refusal_of self }
    {
        match self {
            ProgramFault::TooLong => Refusal::new(1, 4, Place { line: 0, at: 0 }),
            ProgramFault::Line(LineFault::Field(FieldFault::Character(fault))) => Refusal::new(
                2,
                1,
                fault.place,
            ),
            ProgramFault::Line(LineFault::Heading(place)) => Refusal::new(3, 3, place),
            ProgramFault::Line(LineFault::Form(place)) => Refusal::new(4, 3, place),
            ProgramFault::Line(LineFault::Field(FieldFault::Kind(place))) => Refusal::new(
                5, 2, place,
            ),
            ProgramFault::Repeated(place) => Refusal::new(6, 4, place),
            ProgramFault::Unknown(place) => Refusal::new(7, 4, place),
            ProgramFault::Full(place) => Refusal::new(8, 4, place),
            ProgramFault::Backward(place) => Refusal::new(9, 4, place),
            ProgramFault::ReadOnly(place) => Refusal::new(10, 4, place),
            ProgramFault::Unclosed(end) => Refusal::new(11, 4, Place { line: 0, at: end }),
        }
    }
}
