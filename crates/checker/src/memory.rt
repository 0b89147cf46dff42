ghost use Rattle.std.specs.Prelude.{◌≡◌, MatchResult};
ghost use Rattle.machine.specs.Memory.{total_size};
ghost use Rattle.checker.specs.Memories.{Shows, is_sized, fill_answer, filled, Answered, Declined, run_memory};

use super::passed::Passed;
use super::refusal::{FillRefusal, RunRefusal};
use engine::Ran;
use machine::size_of;

impl Passed<'_> {
    /// How many bytes the rule's buffers have together: the size that its memory must have.
    pub fn memory_size(&self) -> usize
        ensures { result ≡ total_size self.now.rule.table.now }
    {
        self.rule.total_size()
    }

    /// Has the memory the size of all the rule's buffers?
    fn is_sized(&self, memory: &[u8]) -> bool
        ensures { result ≡ is_sized self.now.rule.table.now memory.now }
    {
        memory.len() == self.memory_size()
    }

    /// The bytes of a buffer in the rule's memory; nothing where the memory has another size or the rule no such buffer.
    pub fn buffer<'m>(&self, memory: &'m [u8], buffer: usize) -> Option<&'m [u8]>
        ensures { Shows self.now.rule.table.now memory.now buffer result }
    {
        if !self.is_sized(memory) || buffer >= self.rule.shape().buffers {
            return None;
        }
        let start = self.rule.start_of(buffer);
        let end = start + size_of(self.rule.table(), buffer);
        Some(&memory[start..end])
    }

    /// Writes bytes at an offset of a buffer, counted from 0; into a read-only one too.
    pub fn fill(
        &self,
        memory: &mut [u8],
        buffer: usize,
        offset: usize,
        bytes: &[u8],
    ) -> Result<(), FillRefusal>
        ensures answer { result ≡ fill_answer self.now.rule.table.now memory.old buffer offset bytes.now }
        ensures memory { memory.new ≡ filled self.now.rule.table.now memory.old buffer offset bytes.now }
    {
        if !self.is_sized(memory) {
            return Err(FillRefusal::WrongMemory);
        }
        engine::fill(self.rule, memory, buffer, offset, bytes).ok_or(FillRefusal::NoPlace)
    }

    /// Runs the rule from four words, in `r1` to `r4`. What it stores stays in the memory.
    pub fn run(&self, words: [u64; 4], memory: &mut [u8]) -> Result<Ran, RunRefusal>
        ensures answer { MatchResult result
            (λ ran. Answered self.now.rule.table.now words memory.old ran memory.new)
            (λ _. Declined self.now.rule.table.now memory.old memory.new) }
        ensures memory { memory.new ≡ run_memory self.now.rule.table.now words memory.old }
    {
        if !self.is_sized(memory) {
            return Err(RunRefusal::WrongMemory);
        }
        Ok(engine::run(self.rule, words, memory))
    }
}
