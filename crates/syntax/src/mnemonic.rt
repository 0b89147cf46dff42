ghost use Rattle.std.specs.Prelude.{◌≡◌};
ghost use Rattle.syntax.specs.Words.{word_of, first_with, mnemonic_in};

use rule::Condition;
use words::{Operation, Width};

/// The first word of an instruction.
#[derive(Clone, Copy, PartialEq, Eq, Debug)]
pub enum Mnemonic {
    Mov,
    Alu(Operation),
    Load(Width),
    Store(Width),
    Jump,
    Branch(Condition),
    Ret,
}

const ALL: [Mnemonic; 24] = [
    Mnemonic::Mov,
    Mnemonic::Alu(Operation::Add),
    Mnemonic::Alu(Operation::Sub),
    Mnemonic::Alu(Operation::Mul),
    Mnemonic::Alu(Operation::Div),
    Mnemonic::Alu(Operation::And),
    Mnemonic::Alu(Operation::Or),
    Mnemonic::Alu(Operation::Xor),
    Mnemonic::Alu(Operation::Shl),
    Mnemonic::Alu(Operation::Shr),
    Mnemonic::Load(Width::W8),
    Mnemonic::Load(Width::W16),
    Mnemonic::Load(Width::W32),
    Mnemonic::Load(Width::W64),
    Mnemonic::Store(Width::W8),
    Mnemonic::Store(Width::W16),
    Mnemonic::Store(Width::W32),
    Mnemonic::Store(Width::W64),
    Mnemonic::Jump,
    Mnemonic::Branch(Condition::Equal),
    Mnemonic::Branch(Condition::Unequal),
    Mnemonic::Branch(Condition::Less),
    Mnemonic::Branch(Condition::LessOrEqual),
    Mnemonic::Ret,
];

impl Mnemonic {
    /// The word as it is written.
    fn word(self) -> &'static [u8]
        ensures { result.now ≡ word_of self }
    {
        match self {
            Mnemonic::Mov => b"mov",
            Mnemonic::Alu(Operation::Add) => b"add",
            Mnemonic::Alu(Operation::Sub) => b"sub",
            Mnemonic::Alu(Operation::Mul) => b"mul",
            Mnemonic::Alu(Operation::Div) => b"div",
            Mnemonic::Alu(Operation::And) => b"and",
            Mnemonic::Alu(Operation::Or) => b"or",
            Mnemonic::Alu(Operation::Xor) => b"xor",
            Mnemonic::Alu(Operation::Shl) => b"shl",
            Mnemonic::Alu(Operation::Shr) => b"shr",
            Mnemonic::Load(Width::W8) => b"ld8",
            Mnemonic::Load(Width::W16) => b"ld16",
            Mnemonic::Load(Width::W32) => b"ld32",
            Mnemonic::Load(Width::W64) => b"ld64",
            Mnemonic::Store(Width::W8) => b"st8",
            Mnemonic::Store(Width::W16) => b"st16",
            Mnemonic::Store(Width::W32) => b"st32",
            Mnemonic::Store(Width::W64) => b"st64",
            Mnemonic::Jump => b"jmp",
            Mnemonic::Branch(Condition::Equal) => b"jeq",
            Mnemonic::Branch(Condition::Unequal) => b"jne",
            Mnemonic::Branch(Condition::Less) => b"jlt",
            Mnemonic::Branch(Condition::LessOrEqual) => b"jle",
            Mnemonic::Ret => b"ret",
        }
    }
}

// The words stand once, in `word`, and the list is what is searched. A match on the text would say them again.

/// The first of the mnemonics whose word the text is.
fn first_with(text: &[u8], all: &[Mnemonic]) -> Option<Mnemonic>
    ensures { result ≡ first_with text.now all.now }
{
    all.iter().find(|mnemonic| text == mnemonic.word()).copied()
}

/// The mnemonic whose word the text is.
pub fn mnemonic_in(text: &[u8]) -> Option<Mnemonic>
    ensures { result ≡ mnemonic_in text.now }
{
    first_with(text, &ALL)
}
