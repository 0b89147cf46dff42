ghost use Rattle.std.specs.Prelude.{◌≡◌};
ghost use Rattle.checker.specs.Refusals.{check_number, pass_number, fill_number, run_number};

/// Why a check does not begin. The lists that were lent are then as they were.
#[derive(Clone, Copy, PartialEq, Eq, Debug)]
pub enum CheckRefusal {
    /// The table holds no rule: its records are none that a text could give, or out of order.
    NoRule,
    /// The lists have fewer than eight values, a mark and a report for each instruction.
    NoRoom,
}

// The numbers are what is told outside. They stand in matches and not at the variants, since two cases share 12.
impl CheckRefusal {
    pub fn number(self) -> u8
        ensures { result ≡ check_number self }
    {
        match self {
            CheckRefusal::NoRule | CheckRefusal::NoRoom => 12,
        }
    }
}

/// Why a draft is not passed. The table and the place are then as they were.
#[derive(Clone, Copy, PartialEq, Eq, Debug)]
pub enum PassRefusal {
    /// No check has accepted the draft.
    Unclean,
}

impl PassRefusal {
    pub fn number(self) -> u8
        ensures { result ≡ pass_number self }
    {
        match self {
            PassRefusal::Unclean => 13,
        }
    }
}

/// Why a fill is refused. The memory is then as it was.
#[derive(Clone, Copy, PartialEq, Eq, Debug)]
pub enum FillRefusal {
    /// The memory has not the size of all the rule's buffers.
    WrongMemory,
    /// The rule has no such buffer, or the bytes would go beyond its end.
    NoPlace,
}

impl FillRefusal {
    pub fn number(self) -> u8
        ensures { result ≡ fill_number self }
    {
        match self {
            FillRefusal::WrongMemory => 14,
            FillRefusal::NoPlace => 15,
        }
    }
}

/// Why a run is refused. The memory is then as it was.
#[derive(Clone, Copy, PartialEq, Eq, Debug)]
pub enum RunRefusal {
    /// The memory has not the size of all the rule's buffers.
    WrongMemory,
}

impl RunRefusal {
    pub fn number(self) -> u8
        ensures { result ≡ run_number self }
    {
        match self {
            RunRefusal::WrongMemory => 14,
        }
    }
}
