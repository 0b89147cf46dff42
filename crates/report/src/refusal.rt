ghost use Rattle.std.specs.Prelude.{◌≡◌};
ghost use Rattle.report.specs.Refusals.{refusal_number};

/// Why nothing is printed.
#[derive(Clone, Copy, PartialEq, Eq, Debug)]
pub enum PrintRefusal {
    /// The output has less room than the text has bytes.
    TooShort,
}

impl PrintRefusal {
    /// The number by which the refusal is told.
    pub fn number(self) -> u8
        ensures { result ≡ refusal_number self }
    {
        match self {
            PrintRefusal::TooShort => 16,
        }
    }
}
