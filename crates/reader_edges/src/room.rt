use super::build::{buffered, coded, moves};
use super::expect::{OLD, accepted, read_into, refused, refused_into};
use grammar::Refusal;
use std::test::Fail;

/// Three records: at line 2 and byte 15, line 4 and byte 27, line 5 and byte 36.
const THREE: &str = "name size mode\nb 8 rw\ncode\nmov r0 0\nret\n";

/// No room for the line that begins here.
fn full(line: usize, place: usize) -> Refusal {
    Refusal {
        number: 8,
        line,
        place,
        layer: 4,
    }
}

#[test]
fn an_empty_table_has_no_room_for_a_buffer(rt: HostRuntime) -> Result<(), Fail> {
    refused_into(&rt, &mut [], THREE, full(2, 15))
}

#[test]
fn an_empty_table_has_no_room_for_an_instruction(rt: HostRuntime) -> Result<(), Fail> {
    refused_into(&rt, &mut [], "name size mode\ncode\nret\n", full(3, 20))
}

// with nothing to write down the table is long enough, and the rule lacks its instructions
#[test]
fn an_empty_table_has_room_for_nothing(rt: HostRuntime) -> Result<(), Fail> {
    refused_into(
        &rt,
        &mut [],
        "name size mode\ncode\n",
        Refusal {
            number: 11,
            line: 0,
            place: 20,
            layer: 4,
        },
    )
}

#[test]
fn a_table_may_be_too_short_for_the_instructions(rt: HostRuntime) -> Result<(), Fail> {
    refused_into(&rt, &mut [OLD; 1], THREE, full(4, 27))?;
    refused_into(&rt, &mut [OLD; 2], THREE, full(5, 36))
}

#[test]
fn a_table_may_have_just_enough_records(rt: HostRuntime) -> Result<(), Fail> {
    read_into(&rt, &mut [OLD; 1], "name size mode\ncode\nret\n", 0, 1)?;
    read_into(&rt, &mut [OLD; 3], THREE, 1, 2)
}

#[test]
fn a_longer_table_is_blank_after_the_rule(rt: HostRuntime) -> Result<(), Fail> {
    read_into(&rt, &mut [OLD; 4], THREE, 1, 2)?;
    read_into(&rt, &mut [OLD; 200], THREE, 1, 2)
}

#[test]
fn eight_buffers_and_no_ninth(rt: HostRuntime) -> Result<(), Fail> {
    let heap = rt.alloc();
    accepted(&rt, buffered(heap, 8, "ret\n")?.as_str(), 8, 1)?;
    // 15 and eight times 8 bytes before it
    refused(&rt, buffered(heap, 9, "ret\n")?.as_str(), full(10, 79))
}

#[test]
fn ninety_six_instructions_and_no_more(rt: HostRuntime) -> Result<(), Fail> {
    let heap = rt.alloc();
    let most = moves(heap, 95)?;
    accepted(&rt, coded(heap, most.as_str())?.as_str(), 0, 96)?;
    // 20 and 96 times 9 bytes before it
    let more = moves(heap, 96)?;
    refused(&rt, coded(heap, more.as_str())?.as_str(), full(99, 884))
}

#[test]
fn the_largest_rule_takes_104_records(rt: HostRuntime) -> Result<(), Fail> {
    let heap = rt.alloc();
    let text = buffered(heap, 8, moves(heap, 95)?.as_str())?;
    read_into(&rt, &mut [OLD; 104], text.as_str(), 8, 96)?;
    // 84 and 95 times 9 bytes before it
    refused_into(&rt, &mut [OLD; 103], text.as_str(), full(106, 939))
}
