/// What a check has found so far: how many reports, and the join of what is returned.
#[derive(Clone, Copy, PartialEq, Eq, Debug)]
pub struct Tally<D> {
    pub count: usize,
    pub answer: Option<D>,
}
