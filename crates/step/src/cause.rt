ghost use Rattle.std.specs.Prelude.{◌≡◌};
ghost use Rattle.step.specs.Causes.{cause_number};

/// Why an instruction is reported: what its row and mark do not show.
#[derive(Clone, Copy, PartialEq, Eq, Debug)]
pub enum Cause {
    /// A register that it reads may be unset.
    Unset,
    /// The divisor may be 0.
    Divisor,
    /// The shift may be by more than 63.
    Shift,
    /// The bytes may lie beyond the buffer's end.
    Beyond,
    /// The place may be no multiple of the width.
    Askew,
}

impl Cause {
    /// The number by which a report tells the cause.
    // By a match and no `as u8`: what is told stands beside its case, and the order of the cases tells nothing.
    pub fn number(self) -> u8
        ensures { result ≡ cause_number self }
    {
        match self {
            Cause::Unset => 1,
            Cause::Divisor => 2,
            Cause::Shift => 3,
            Cause::Beyond => 4,
            Cause::Askew => 5,
        }
    }
}
