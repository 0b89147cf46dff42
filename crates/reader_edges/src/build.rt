//! The texts that are too long to write out.
use std::alloc::{AllocError, Global};

/// The piece n times in a row.
pub(crate) fn repeated(heap: Global, piece: &str, n: usize) -> Result<String, AllocError> {
    let mut text = String::new(heap);
    for _ in 0..n {
        text.push_str(piece)?;
    }
    Ok(text)
}

/// A rule without buffers: its code begins in line 3, at byte 20.
pub(crate) fn coded(heap: Global, code: &str) -> Result<String, AllocError> {
    format!(in heap; "name size mode\ncode\n{code}")
}

/// A rule with the buffers b0, b1 and so on, one byte each: eight bytes of text for each below ten, from byte 15 on.
pub(crate) fn buffered(heap: Global, buffers: usize, code: &str) -> Result<String, AllocError> {
    let mut text = String::from_str(heap, "name size mode\n")?;
    for i in 0..buffers {
        text.push_str(format!(in heap; "b{i} 1 ro\n")?.as_str())?;
    }
    text.push_str("code\n")?;
    text.push_str(code)?;
    Ok(text)
}

/// Code of n instructions and then `ret`: nine bytes each, and four.
pub(crate) fn moves(heap: Global, n: usize) -> Result<String, AllocError> {
    let mut code = repeated(heap, "mov r0 0\n", n)?;
    code.push_str("ret\n")?;
    Ok(code)
}
