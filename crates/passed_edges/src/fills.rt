use super::rules::pass;
use checker::{Call, Passed};
use rule::Record;
use std::process::Abort;
use std::test::Fail;

/// Two buffers, the first read-only; the rule stores its first word into the second.
const TWO: &str = "name size mode\ntab 4 ro\nout 2 rw\ncode\nld8 r0 tab 3\nst16 out 0 r1\nret\n";

/// A fill, and the number of its refusal, or 0. The numbers are what is tested.
struct Try {
    buffer: usize,
    offset: usize,
    count: usize,
    number: u8,
}

const TRIES: [Try; 11] = [
    Try {
        buffer: 0,
        offset: 0,
        count: 4,
        number: 0,
    },
    Try {
        buffer: 1,
        offset: 0,
        count: 2,
        number: 0,
    },
    Try {
        buffer: 0,
        offset: 4,
        count: 0,
        number: 0,
    },
    Try {
        buffer: 0,
        offset: 5,
        count: 0,
        number: 15,
    },
    Try {
        buffer: 0,
        offset: 0,
        count: 5,
        number: 15,
    },
    Try {
        buffer: 0,
        offset: 1,
        count: 4,
        number: 15,
    },
    Try {
        buffer: 1,
        offset: 1,
        count: 1,
        number: 0,
    },
    Try {
        buffer: 1,
        offset: 2,
        count: 1,
        number: 15,
    },
    Try {
        buffer: 2,
        offset: 0,
        count: 0,
        number: 15,
    },
    Try {
        buffer: 0,
        offset: 18446744073709551615,
        count: 1,
        number: 15,
    },
    Try {
        buffer: 18446744073709551615,
        offset: 0,
        count: 1,
        number: 15,
    },
];

/// The memory after a try on one of zeros: nines where its bytes went.
fn expected(tried: &Try) -> [u8; 6] {
    let mut memory = [0u8; 6];
    if tried.number == 0 {
        let start = if tried.buffer == 0 {
            tried.offset
        } else {
            tried.offset.saturating_add(4)
        };
        for (at, byte) in memory.iter_mut().enumerate() {
            if start <= at && at - start < tried.count {
                *byte = 9;
            }
        }
    }
    memory
}

#[test]
fn a_fill_writes_where_it_fits_and_nowhere_else(rt: HostRuntime) -> Result<(), Fail> {
    let mut table = [Record::BLANK; 8];
    let mut rule = Passed::built_in();
    assert_eq!(rt; pass(TWO, &mut table, &mut rule)?, 0);
    for tried in &TRIES {
        let mut memory = [0u8; 6];
        let number = match rule.fill(
            &mut memory,
            tried.buffer,
            tried.offset,
            [9u8; 5].get(..tried.count).unwrap_or(&[]),
        ) {
            Ok(()) => 0,
            Err(refusal) => refusal.number(),
        };
        assert_eq!(rt; number, tried.number);
        assert_eq!(rt; memory, expected(tried));
    }
    Ok(())
}

/// Nothing is filled into this memory, for its size, whatever the place.
fn refused(rt: &impl Abort, rule: &Passed<'_>, memory: &mut [u8]) -> Result<(), Fail> {
    match rule.fill(memory, 9, 9, &[1]) {
        Ok(()) => return Err(Fail::new("it was filled")),
        Err(refusal) => assert_eq!(rt; refusal.number(), 14),
    }
    assert!(rt; rule.buffer(memory, 0).is_none());
    Ok(())
}

#[test]
fn a_memory_of_another_size_is_told_before_the_place(rt: HostRuntime) -> Result<(), Fail> {
    let mut table = [Record::BLANK; 8];
    let mut rule = Passed::built_in();
    assert_eq!(rt; pass(TWO, &mut table, &mut rule)?, 0);
    let mut short = [3u8; 5];
    let mut long = [3u8; 7];
    refused(&rt, &rule, &mut short)?;
    refused(&rt, &rule, &mut long)?;
    assert_eq!(rt; short, [3; 5], "kept");
    assert_eq!(rt; long, [3; 7], "kept");
    Ok(())
}

#[test]
fn read_only_bytes_are_as_the_last_accepted_fill_wrote_them(rt: HostRuntime) -> Result<(), Fail> {
    let mut table = [Record::BLANK; 8];
    let mut rule = Passed::built_in();
    assert_eq!(rt; pass(TWO, &mut table, &mut rule)?, 0);
    let mut memory = [1u8, 2, 3, 4, 5, 6];
    let calls = [
        Call::Fill {
            buffer: 0,
            offset: 1,
            bytes: &[20, 30],
        },
        Call::Run {
            words: [0x4241, 0, 0, 0],
        },
        Call::Fill {
            buffer: 0,
            offset: 3,
            bytes: &[40, 50],
        },
        Call::Fill {
            buffer: 0,
            offset: 2,
            bytes: &[33],
        },
        Call::Fill {
            buffer: 7,
            offset: 0,
            bytes: &[],
        },
    ];
    assert_eq!(rt; rule.carry_out(&calls, &mut memory), 2, "refused");
    assert_eq!(rt; memory, [1, 20, 33, 4, 0x41, 0x42]);
    let mut short = [1u8; 5];
    assert_eq!(rt;
        rule.carry_out(&calls, &mut short),
        5,
        "refused for the memory's size"
    );
    assert_eq!(rt; short, [1; 5]);
    match rule.buffer(&memory, 1) {
        Some(out) => {
            assert_eq!(rt; out, &[0x41, 0x42][..]);
            Ok(())
        },
        None => Err(Fail::new("no such buffer")),
    }
}
