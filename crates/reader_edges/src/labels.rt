use super::build::coded;
use super::expect::{accepted, refused};
use grammar::Refusal;
use std::alloc::{AllocError, Global};
use std::test::Fail;

/// The labels a00 to o99, 1,500 of them with five bytes of text each.
fn many_labels(heap: Global) -> Result<String, AllocError> {
    let mut text = String::new(heap);
    for letter in "abcdefghijklmno".chars() {
        for number in 0..100u8 {
            text.push_str(format!(in heap; "{letter}{number:02}:\n")?.as_str())?;
        }
    }
    Ok(text)
}

#[test]
fn a_label_after_the_last_instruction_leaves_the_rule_open(rt: HostRuntime) -> Result<(), Fail> {
    refused(
        &rt,
        coded(rt.alloc(), "ret\nend:\n")?.as_str(),
        Refusal {
            number: 11,
            line: 0,
            place: 29,
            layer: 4,
        },
    )
}

#[test]
fn a_jump_past_the_last_instruction_leads_nowhere(rt: HostRuntime) -> Result<(), Fail> {
    refused(
        &rt,
        coded(rt.alloc(), "jmp end\nret\nend:\n")?.as_str(),
        Refusal {
            number: 9,
            line: 3,
            place: 24,
            layer: 4,
        },
    )
}

// a jump to itself leads to no later instruction either
#[test]
fn a_jump_to_the_next_instruction_is_the_shortest(rt: HostRuntime) -> Result<(), Fail> {
    let heap = rt.alloc();
    accepted(&rt, coded(heap, "jmp end\nend:\nret\n")?.as_str(), 0, 2)?;
    refused(
        &rt,
        coded(heap, "end:\njmp end\nret\n")?.as_str(),
        Refusal {
            number: 9,
            line: 4,
            place: 29,
            layer: 4,
        },
    )
}

#[test]
fn many_labels_may_stand_before_one_instruction(rt: HostRuntime) -> Result<(), Fail> {
    let heap = rt.alloc();
    let labels = many_labels(heap)?;
    assert_eq!(rt; labels.len(), 7500);
    let code = format!(in heap; "jmp o99\n{labels}ret\n")?;
    accepted(&rt, coded(heap, code.as_str())?.as_str(), 0, 2)
}

#[test]
fn the_last_of_many_labels_may_not_stand_twice(rt: HostRuntime) -> Result<(), Fail> {
    let heap = rt.alloc();
    let labels = many_labels(heap)?;
    let code = format!(in heap; "{labels}o99:\nret\n")?;
    refused(
        &rt,
        coded(heap, code.as_str())?.as_str(),
        Refusal {
            number: 6,
            line: 1503,
            place: 7520,
            layer: 4,
        },
    )
}
