/// What a run answers: the word returned, and how many steps it took, the one that returned it among them.
#[derive(Clone, Copy, PartialEq, Eq, Debug)]
pub struct Ran {
    pub answer: u64,
    pub steps: usize,
}
