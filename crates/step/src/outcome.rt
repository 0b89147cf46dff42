use super::report::Report;

/// A register that is set, and what is known of it.
#[derive(Clone, Copy, PartialEq, Eq, Debug)]
pub struct Patch<D> {
    pub register: u8,
    pub value: D,
}

/// How the row after an instruction differs from the row before it: in at most two registers.
#[derive(Clone, Copy, PartialEq, Eq, Debug)]
pub struct Change<D> {
    pub first: Option<Patch<D>>,
    pub second: Option<Patch<D>>,
}

/// What a jump takes along, and where to.
#[derive(Clone, Copy, PartialEq, Eq, Debug)]
pub struct Jump<D> {
    pub to: usize,
    pub change: Change<D>,
}

/// What an instruction makes of its row: a report, what goes on to the next instruction, what goes elsewhere by a jump,
/// and what it returns.
#[derive(Clone, Copy, PartialEq, Eq, Debug)]
pub struct Outcome<D> {
    pub report: Option<Report>,
    pub next: Option<Change<D>>,
    pub jump: Option<Jump<D>>,
    pub answer: Option<D>,
}
