ghost use Rattle.std.specs.Prelude.{◌≡◌, Some, length, slice_set};
ghost use Rattle.engine.specs.Steps.{register_of, fetched, first_registers, FourWords};

use rule::Operand;

/// The registers, each with its word once it is set.
#[derive(Clone, Copy)]
pub(crate) struct Registers {
    words: [Option<u64>; 8],
    ghost eight: { length words ≡ 8 },
}

impl Registers {
    /// At the start `r1` to `r4` have the four words, and no other register is set.
    pub(crate) fn start(words: [u64; 4]) -> Registers
        ensures value { result.words ≡ first_registers words }
        ensures words { FourWords words }
    {
        let [first, second, third, fourth] = words.map(Some);
        Registers {
            words: [None, first, second, third, fourth, None, None, None],
        }
    }

    /// The word of a register; nothing where it is not set or there is no such register.
    pub(crate) fn get(&self, k: u8) -> Option<u64>
        ensures { result ≡ register_of self.now.words k }
    {
        self.words.get(usize::from(k)).copied().flatten()
    }

    /// The word that an operand stands for.
    pub(crate) fn value(&self, operand: Operand) -> Option<u64>
        ensures { result ≡ fetched self.now.words operand }
    {
        match operand {
            Operand::Register(k) => self.get(k),
            Operand::Constant(word) => Some(word),
        }
    }

    /// Sets a register; nothing changes where there is no such register.
    pub(crate) fn set(&mut self, k: u8, word: u64)
        ensures { self.new.words ≡ slice_set self.old.words k (Some word) }
    {
        // By its index. `get_mut` was tried: of a write through what it lends a proof knows no element.
        let k = usize::from(k);
        if k < self.words.len() {
            self.words[k] = Some(word);
        }
    }
}
