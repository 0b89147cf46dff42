use super::expect::{OLD_WORD, Told, all_tell, answer_text};
use domain::Domain;
use product::Standard;
use rule::MOST_INSTRUCTIONS;
use std::alloc::{AllocError, Global};
use std::test::Fail;

/// Eight buffers, as large as they may be. The code begins in line 11.
const HEADS: &str = "name size mode
b0 1024 ro
b1 1024 ro
b2 1024 ro
b3 1024 ro
b4 1024 ro
b5 1024 ro
b6 1024 ro
b7 1024 ro
code
";

/// 96 instructions: `mov r0 0`, then 47 jumps that each pass over a `mov`, then `ret`.
fn zigzag(heap: Global) -> Result<String, AllocError> {
    let mut text = String::from_str(heap, "name size mode\ncode\nmov r0 0\n")?;
    for k in 1..48 {
        let turn = format!(in heap; "jlt r1 r2 l{k}\nmov r0 {k}\nl{k}:\n")?;
        text.push_str(turn.as_str())?;
    }
    text.push_str("ret\n")?;
    Ok(text)
}

/// Loads of every width from the last places of every buffer.
fn last_loads(heap: Global) -> Result<String, AllocError> {
    let mut text = String::from_str(heap, HEADS)?;
    for b in 0..8 {
        let loads = format!(in heap;
            "ld8 r0 b{b} 1023\nld16 r0 b{b} 1022\nld32 r0 b{b} 1020\nld64 r0 b{b} 1016\n"
        )?;
        text.push_str(loads.as_str())?;
    }
    text.push_str("ret\n")?;
    Ok(text)
}

// `r0` is one of 0 to 47 in the end: the 47 joins have come to the `ret` when it is visited
#[test]
fn a_jump_in_every_second_place(rt: HostRuntime) -> Result<(), Fail> {
    let text = zigzag(rt.alloc())?;
    all_tell(&rt, text.as_str(), &[])?;
    match answer_text(
        &rt,
        text.as_str(),
        &[],
        &mut [Standard::only(OLD_WORD); 8 * MOST_INSTRUCTIONS],
    )? {
        Some(answer) => {
            assert!(rt; answer.has(0) && answer.has(47) && !answer.has(48));
            Ok(())
        },
        None => Err(Fail::new("no answer")),
    }
}

#[test]
fn the_last_places_of_the_largest_buffers(rt: HostRuntime) -> Result<(), Fail> {
    all_tell(&rt, last_loads(rt.alloc())?.as_str(), &[])
}

#[test]
fn one_place_past_the_last(rt: HostRuntime) -> Result<(), Fail> {
    let text = format!(in rt.alloc();
        "{HEADS}ld8 r0 b7 1024\nld16 r0 b7 1023\nld32 r0 b7 1021\nld64 r0 b7 1017\nret\n"
    )?;
    let beyond = [
        Told { line: 11, cause: 4 },
        Told { line: 12, cause: 4 },
        Told { line: 13, cause: 4 },
        Told { line: 14, cause: 4 },
    ];
    all_tell(&rt, text.as_str(), &beyond)
}

#[test]
fn one_place_before_the_last(rt: HostRuntime) -> Result<(), Fail> {
    let text = format!(in rt.alloc();
        "{HEADS}ld8 r0 b7 1022\nld16 r0 b7 1021\nld32 r0 b7 1019\nld64 r0 b7 1015\nret\n"
    )?;
    let askew = [
        Told { line: 12, cause: 5 },
        Told { line: 13, cause: 5 },
        Told { line: 14, cause: 5 },
    ];
    all_tell(&rt, text.as_str(), &askew)
}
