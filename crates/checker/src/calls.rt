ghost use Rattle.std.specs.Prelude.{◌≡◌};
ghost use Rattle.checker.specs.Calls.{after_call, after_calls, refused_one, refused_of, AsBooked};

use super::call::Call;
use super::passed::Passed;

impl Passed<'_> {
    /// Carries out one call, and answers how many were refused: none or one.
    fn call(&self, call: Call<'_>, memory: &mut [u8]) -> usize
        ensures refused { result ≡ refused_one self.now.rule.table.now call.entry memory.old }
        ensures memory { memory.new ≡ after_call self.now.rule.table.now call.entry memory.old }
    {
        let refused = match call {
            Call::Fill {
                buffer,
                offset,
                bytes,
            } => self.fill(memory, buffer, offset, bytes).is_err(),
            Call::Run { words } => self.run(words, memory).is_err(),
        };
        usize::from(refused)
    }

    /// Carries out fills and runs in the order given, on one memory, and answers how many were refused. Each byte of a
    /// read-only buffer is afterwards as the last fill that was not refused wrote it, or as it was lent.
    pub fn carry_out(&self, calls: &[Call<'_>], memory: &mut [u8]) -> usize
        ensures refused { result ≡ refused_of self.now.rule.table.now calls.now memory.old }
        ensures memory { memory.new ≡ after_calls self.now.rule.table.now calls.now memory.old }
        ensures booked { AsBooked self.now.rule.table.now calls.now memory.old memory.new }
    {
        let mut refused = 0;
        for call in calls {
            refused += self.call(*call, memory);
        }
        refused
    }
}
