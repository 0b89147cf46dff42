use rule::{Instruction, Mode};

/// What a line says before the line `code` and at it. No `Option` of a buffer: `code` is a line of its own, and not the lack of
/// one. A name is kept as `N`: a part of the text.
#[derive(Clone, Copy, PartialEq, Eq, Debug)]
pub enum Header<N> {
    Code,
    Buffer { name: N, size: usize, mode: Mode },
}

/// What a line says after the line `code`.
#[derive(Clone, Copy, PartialEq, Eq, Debug)]
pub enum Statement<N> {
    Label(N),
    Instruction(Instruction<N>),
}
