ghost use Rattle.std.specs.Prelude.{◌≡◌, ◌+◌, ◌≤◌, length};
ghost use Rattle.words.specs.Widths.{bytes_of};
ghost use Rattle.machine.specs.Memory.{word_of, bytes_in, part, written};

use words::Width;

/// The word at a place in the memory, its lowest byte first.
pub(crate) fn load(memory: &[u8], at: usize, width: Width) -> u64
    requires { at + bytes_of width ≤ length memory.now }
    ensures { result ≡ word_of (part memory.now at (bytes_of width)) }
{
    let count = width.bytes();
    let mut word = [0; 8];
    word[..count].copy_from_slice(&memory[at..at + count]);
    u64::from_le_bytes(word)
}

/// Puts the low bytes of a word at a place in the memory, the lowest first.
pub(crate) fn store(memory: &mut [u8], at: usize, width: Width, word: u64)
    requires { at + bytes_of width ≤ length memory.old }
    ensures { memory.new ≡ written memory.old at (bytes_in (bytes_of width) word) }
{
    let count = width.bytes();
    let bytes = word.to_le_bytes();
    memory[at..at + count].copy_from_slice(&bytes[..count]);
}
