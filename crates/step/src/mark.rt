/// What is known of control before an instruction: whether it can come there, and which registers are then set.
// No `Option` of the registers: a mark that is lent has them whether it is reached or not, and a refused check keeps both.
#[derive(Clone, Copy, PartialEq, Eq, Debug)]
pub struct Mark {
    pub reached: bool,
    pub set: [bool; 8],
}

impl Mark {
    /// Control does not come there.
    pub const UNREACHED: Mark = Mark {
        reached: false,
        set: [false; 8],
    };

    /// The start: `r1` to `r4` are set.
    pub const START: Mark = Mark {
        reached: true,
        set: [false, true, true, true, true, false, false, false],
    };
}
