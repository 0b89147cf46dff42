use super::expect::{Told, all_tell};
use std::test::Fail;

/// A rule with its reports.
struct Case {
    text: &'static str,
    told: &'static [Told],
}

/// In each the code begins in line 5.
static CASES: [Case; 9] = [
    // an index below the size, known from its bits
    Case {
        text: "name size mode\ntab 64 ro\nout 8 rw\ncode\nand r1 63\nld8 r0 tab r1\nand r2 7\nst8 out r2 r0\nret\n",
        told: &[],
    },
    // the same, known from a jump
    Case {
        text: "name size mode\ntab 64 ro\nout 8 rw\ncode\nmov r0 0\njlt r1 64 in\nret\nin:\nld8 r0 tab r1\nret\n",
        told: &[],
    },
    // eight bytes at 0, 8 and so on up to 56
    Case {
        text: "name size mode\ntab 64 ro\nout 8 rw\ncode\nand r1 56\nld64 r0 tab r1\nret\n",
        told: &[],
    },
    Case {
        text: "name size mode\ntab 64 ro\nout 8 rw\ncode\nmov r0 r5\nret\n",
        told: &[Told { line: 5, cause: 1 }],
    },
    Case {
        text: "name size mode\ntab 64 ro\nout 8 rw\ncode\nmov r0 1\ndiv r0 r1\nret\n",
        told: &[Told { line: 6, cause: 2 }],
    },
    Case {
        text: "name size mode\ntab 64 ro\nout 8 rw\ncode\nmov r0 1\nshl r0 r1\nret\n",
        told: &[Told { line: 6, cause: 3 }],
    },
    Case {
        text: "name size mode\ntab 64 ro\nout 8 rw\ncode\nand r1 63\nld8 r0 tab r1\nst8 out r2 r0\nret\n",
        told: &[Told { line: 7, cause: 4 }],
    },
    // at most 31, so within the buffer, and perhaps no multiple of eight
    Case {
        text: "name size mode\ntab 64 ro\nout 8 rw\ncode\nand r1 31\nld64 r0 tab r1\nret\n",
        told: &[Told { line: 6, cause: 5 }],
    },
    // an instruction tells its first cause, and the next one is checked all the same
    Case {
        text: "name size mode\ntab 64 ro\nout 8 rw\ncode\nld64 r0 tab r1\ndiv r0 r2\nret\n",
        told: &[Told { line: 5, cause: 4 }, Told { line: 6, cause: 2 }],
    },
];

#[test]
fn three_products_tell_the_same(rt: HostRuntime) -> Result<(), Fail> {
    for case in CASES.iter() {
        all_tell(&rt, case.text, case.told)?;
    }
    Ok(())
}
