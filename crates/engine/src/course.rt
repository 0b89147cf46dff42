ghost use Rattle.std.specs.Prelude.{◌≡◌, length, Some};
ghost use Rattle.machine.specs.Machine.{NeverStuck};
ghost use Rattle.machine.specs.Memory.{total_size, Finishes, Free};
ghost use Rattle.machine.specs.Tables.{code_length};
ghost use Rattle.engine.specs.Steps.{run_from, run_of, ended, end};

use super::next::Next;
use super::ran::Ran;
use super::registers::Registers;
use super::step::carry_out;
use machine::Rule;
use rule::Item;

/// Goes on from the first instruction until the rule returns. Nothing comes of a rule that gets stuck.
fn drive(rule: Rule<'_>, mut registers: Registers, memory: &mut [u8]) -> Option<Ran>
    requires { length memory.old ≡ total_size rule.table.now }
    ensures { ended result memory.new ≡ run_from rule.entry.table.now (code_length rule.entry.table.now) 0 0 registers.words memory.old }
{
    let code = rule.code();
    let mut at = 0;
    // the loop counts the steps, which are answered; where control is, each instruction says
    for steps in 0..code.len() {
        // A rule has nothing else there, and the proof needs no word of that: what is no instruction is stuck.
        let Item::Instruction(instruction) = code[at].item else {
            return None;
        };
        match carry_out(rule, instruction, &mut registers, memory)? {
            Next::Onward => at += 1,
            Next::Jump(to) => at = to,
            Next::Return(answer) => {
                return Some(Ran {
                    answer,
                    steps: steps + 1,
                });
            }
        }
    }
    None
}

/// Runs a rule from four words on its memory. Public only because crates divide the machine: the rule is one that never
/// gets stuck, and the memory has its size.
pub fn run(rule: Rule<'_>, words: [u64; 4], memory: &mut [u8]) -> Ran
    requires safe { NeverStuck rule.table.now }
    requires memory { length memory.old ≡ total_size rule.table.now }
    ensures value { run_of rule.entry.table.now words memory.old ≡ Some (end result memory.new) }
    ensures finishes { Finishes rule.entry.table.now words memory.old result.answer result.steps memory.new }
    ensures free { Free rule.entry.table.now words result.answer result.steps }
{
    drive(rule, Registers::start(words), memory).unwrap()
}
