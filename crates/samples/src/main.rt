//! Answers sample rules and compares each answer with the output that is expected of it.
//! `names` lists the samples: NAME stands for the rule NAME.rule and its output NAME.out.
#![tactic(auto)]

ghost use Rattle.std.specs.Prelude.{◌≡◌, true};
ghost use Rattle.answer.specs.Answers.{answer_text};

use answer::{LONGEST, answer};
use std::{fs, io};

/// True only where a text is answered as expected, to the byte.
fn is_answered(text: &[u8], expected: &[u8]) -> bool
    ensures { result ≡ true → answer_text text.now ≡ expected.now }
{
    let mut output = [0u8; LONGEST];
    match answer(text, &mut output) {
        Ok(count) => &output[..count] == expected,
        // no answer is longer than the output
        Err(_) => false,
    }
}

/// Whether the sample of this name comes out as it should.
fn passes(rt: &HostRuntime, name: &str) -> io::Result<bool> {
    let heap = rt.alloc();
    let text = fs::read(rt, format!(in heap; "{name}.rule")?)?;
    let expected = fs::read_to_string(rt, format!(in heap; "{name}.out")?)?;
    Ok(is_answered(text.as_slice(), expected.as_bytes()))
}

fn main(rt: HostRuntime) -> io::Result<()> {
    let names = fs::read_to_string(&rt, "names")?;
    let mut count = 0u64;
    let mut differing = 0u64;
    // printed as they are found, so no chain: it could not answer an error of the output
    for name in names.as_str().lines() {
        count += 1;
        if !passes(&rt, name)? {
            differing += 1;
            println!(rt; "differs: {name}")?;
        }
    }
    println!(rt; "{count} samples, {differing} differ")
}
