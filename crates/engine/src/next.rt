/// Where a step leads: on to the next instruction, to another one, or out of the rule with a word.
#[derive(Clone, Copy, PartialEq, Eq, Debug)]
pub enum Next {
    Onward,
    Jump(usize),
    Return(u64),
}
