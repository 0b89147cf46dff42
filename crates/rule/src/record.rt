ghost use Rattle.std.specs.Prelude.{◌≡◌};
ghost use Rattle.rule.specs.Records.{is_blank, is_buffer, size_in, writable_in};

use super::instruction::Instruction;

/// Whether a rule may store into a buffer.
#[derive(Clone, Copy, PartialEq, Eq, Debug)]
pub enum Mode {
    ReadOnly,
    ReadWrite,
}

/// What a record says.
#[derive(Clone, Copy, PartialEq, Eq, Debug)]
pub enum Item {
    /// Nothing: the record is not in use.
    Blank,
    Buffer { size: usize, mode: Mode },
    Instruction(Instruction<usize>),
}

impl Item {
    pub fn is_blank(self) -> bool
        ensures { result ≡ is_blank self }
    {
        matches!(self, Item::Blank)
    }

    pub fn is_buffer(self) -> bool
        ensures { result ≡ is_buffer self }
    {
        matches!(self, Item::Buffer { .. })
    }

    /// The size of a buffer, and else 0.
    pub fn size(self) -> usize
        ensures { result ≡ size_in self }
    {
        match self {
            Item::Buffer { size, .. } => size,
            Item::Blank | Item::Instruction(_) => 0,
        }
    }

    /// May a rule store into it? Into a buffer alone, if its mode lets it.
    pub fn is_writable(self) -> bool
        ensures { result ≡ writable_in self }
    {
        matches!(
            self,
            Item::Buffer {
                mode: Mode::ReadWrite,
                ..
            }
        )
    }
}

/// One line of a rule: its number in the text, from 1, and what it says.
#[derive(Clone, Copy, PartialEq, Eq, Debug)]
pub struct Record {
    pub line: usize,
    pub item: Item,
}

impl Record {
    /// A record that is not in use.
    pub const BLANK: Record = Record {
        line: 0,
        item: Item::Blank,
    };
}
