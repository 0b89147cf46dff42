/// How many bytes the text of a rule may have.
pub const MOST_BYTES: usize = 8192;

/// How many buffers a rule may have.
pub const MOST_BUFFERS: usize = 8;

/// How many instructions a rule may have.
pub const MOST_INSTRUCTIONS: usize = 96;

/// How many records the largest rule takes: its buffers and its instructions.
pub const MOST_RECORDS: usize = MOST_BUFFERS + MOST_INSTRUCTIONS;
