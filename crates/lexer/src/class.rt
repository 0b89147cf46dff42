ghost use Rattle.std.specs.Prelude.{◌≡◌};
ghost use Rattle.lexer.specs.Characters.{class_of, letter, name_byte, field_byte, digit};

/// The class of a character. Upper-case letters are foreign, as is all that no rule is written with but in comments.
#[derive(Clone, Copy, PartialEq, Eq, Debug)]
pub enum Class {
    Letter,
    Digit,
    Space,
    Mark,
    Foreign,
}

impl From<char> for Class {
    ghost from_gives = { λ c r. r ≡ class_of c };

    fn from(c: char) -> Class {
        match c {
            'a'..='z' => Class::Letter,
            '0'..='9' => Class::Digit,
            ' ' => Class::Space,
            '_' | '-' | ':' | '#' => Class::Mark,
            _ => Class::Foreign,
        }
    }
}

pub(crate) fn is_letter(b: u8) -> bool
    ensures { result ≡ letter b }
{
    matches!(Class::from(char::from(b)), Class::Letter)
}

/// May the byte stand in a name?
pub(crate) fn is_name_byte(b: u8) -> bool
    ensures { result ≡ name_byte b }
{
    match Class::from(char::from(b)) {
        Class::Letter | Class::Digit => true,
        Class::Mark => b == b'_',
        Class::Space | Class::Foreign => false,
    }
}

/// May the byte stand in a field, that is, does it neither end one nor begin a comment?
pub(crate) fn is_field_byte(b: u8) -> bool
    ensures { result ≡ field_byte b }
{
    match Class::from(char::from(b)) {
        Class::Space => false,
        Class::Mark => b != b'#',
        Class::Letter | Class::Digit | Class::Foreign => true,
    }
}
