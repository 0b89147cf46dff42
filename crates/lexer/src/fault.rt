ghost use Rattle.std.specs.Prelude.{◌≡◌};
ghost use Rattle.lexer.specs.declared.fault.FieldFault.TheVariants.{Character};

use super::place::Place;

/// Layer 1: a byte that no text may hold.
#[derive(Clone, Copy, PartialEq, Eq, Debug)]
pub struct CharacterFault {
    pub place: Place,
}

/// Layer 2: a field of the wrong kind or beyond its limits, or the fault of a character.
#[derive(Clone, Copy, PartialEq, Eq, Debug)]
pub enum FieldFault {
    Character(CharacterFault),
    Kind(Place),
}

impl From<CharacterFault> for FieldFault {
    ghost from_gives = { λ e r. r ≡ Character e };

    fn from(e: CharacterFault) -> FieldFault {
        FieldFault::Character(e)
    }
}
