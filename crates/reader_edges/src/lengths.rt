use super::build::repeated;
use super::expect::{accepted, refused};
use grammar::Refusal;
use std::alloc::{AllocError, Global};
use std::test::Fail;

/// A rule of 34 bytes, of which the last starts a comment, and this many bytes of that comment.
fn commented(heap: Global, comment: usize) -> Result<String, AllocError> {
    let filling = repeated(heap, "~", comment)?;
    format!(in heap; "name size mode\ncode\nmov r0 0\nret\n#{filling}")
}

#[test]
fn an_empty_text_has_no_heading(rt: HostRuntime) -> Result<(), Fail> {
    refused(
        &rt,
        "",
        Refusal {
            number: 3,
            line: 0,
            place: 0,
            layer: 3,
        },
    )
}

#[test]
fn comments_and_blanks_are_no_heading(rt: HostRuntime) -> Result<(), Fail> {
    refused(
        &rt,
        "# one\n   \n\n  # two",
        Refusal {
            number: 3,
            line: 0,
            place: 18,
            layer: 3,
        },
    )
}

#[test]
fn a_text_may_have_8192_bytes(rt: HostRuntime) -> Result<(), Fail> {
    let text = commented(rt.alloc(), 8158)?;
    assert_eq!(rt; text.len(), 8192);
    accepted(&rt, text.as_str(), 0, 2)
}

#[test]
fn a_text_may_not_have_8193_bytes(rt: HostRuntime) -> Result<(), Fail> {
    let text = commented(rt.alloc(), 8159)?;
    assert_eq!(rt; text.len(), 8193);
    refused(
        &rt,
        text.as_str(),
        Refusal {
            number: 1,
            line: 0,
            place: 0,
            layer: 4,
        },
    )
}

// the length comes before what the bytes are
#[test]
fn a_long_text_of_foreign_bytes_is_too_long(rt: HostRuntime) -> Result<(), Fail> {
    let text = repeated(rt.alloc(), "\t", 8193)?;
    refused(
        &rt,
        text.as_str(),
        Refusal {
            number: 1,
            line: 0,
            place: 0,
            layer: 4,
        },
    )
}
