/// Where something stands in a text: its line from 1, and its byte from 0.
#[derive(Clone, Copy, PartialEq, Eq, Debug)]
pub struct Place {
    pub line: usize,
    pub at: usize,
}
