ghost use Rattle.std.specs.Prelude.{◌≡◌, ◌^◌, ◌<◌};
ghost use Rattle.machine.specs.Memory.{sizes_of};
ghost use Rattle.machine.specs.Tables.{size_at};

use rule::Record;

/// The size of a buffer, or 0 where the table has no such buffer.
pub fn size_of(table: &[Record], buffer: usize) -> usize
    ensures { result ≡ size_at table.now buffer }
{
    table.get(buffer).map_or(0, |record| record.item.size())
}

/// The sizes of all the buffers among the records, together.
pub(crate) fn sizes_of(records: &[Record]) -> usize
    requires { sizes_of records.now < 2 ^ 64 }
    ensures { result ≡ sizes_of records.now }
{
    records.iter().map(|line| line.item.size()).sum()
}
