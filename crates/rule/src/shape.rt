/// How many buffers and instructions a rule has.
#[derive(Clone, Copy, PartialEq, Eq, Debug)]
pub struct Shape {
    pub buffers: usize,
    pub instructions: usize,
}
