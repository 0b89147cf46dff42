/// One thing to do with a passed rule and its memory.
#[derive(Clone, Copy, PartialEq, Eq, Debug)]
pub enum Call<'a> {
    Fill {
        buffer: usize,
        offset: usize,
        bytes: &'a [u8],
    },
    Run {
        words: [u64; 4],
    },
}
