ghost use Rattle.std.specs.Prelude.{◌≡◌, ◌+◌, ◌≤◌, IfSome};
ghost use Rattle.machine.specs.Memory.{total_size};
ghost use Rattle.engine.specs.Fills.{placed};

use machine::{Rule, size_of};

/// Where so many bytes at an offset of a buffer lie in the memory; nothing where the rule has no such buffer or they do
/// not lie in it.
pub(crate) fn place(rule: Rule<'_>, buffer: usize, offset: usize, count: usize) -> Option<usize>
    ensures value { result ≡ placed rule.entry.table.now buffer offset count }
    ensures inside { IfSome result (λ at. at + count ≤ total_size rule.entry.table.now) }
{
    let end = offset.checked_add(count)?;
    if buffer < rule.shape().buffers && end <= size_of(rule.table(), buffer) {
        Some(rule.start_of(buffer) + offset)
    } else {
        None
    }
}
