//! The tables of the site: one file for each read-only buffer of the rule, with its bytes as decimal numbers.
use checker::{Call, Passed};
use std::alloc::Global;
use std::fs;

/// The buffer that the rule has for what it finds, behind those of the tables.
pub(crate) const FOUND: usize = 3;

/// A table: its name, which is that of its file, the number of its buffer, and its bytes.
#[derive(Drop)]
struct Table {
    name: &'static str,
    buffer: usize,
    bytes: Vec<u8>,
}

#[derive(Drop)]
pub(crate) struct Site {
    tables: [Table; 3],
}

/// The bytes that a text gives: decimal numbers between spaces, and comments from `#` on.
fn bytes_of(heap: Global, text: &str) -> anyhow::Result<Vec<u8>> {
    let mut bytes = Vec::new(heap);
    for line in text.lines() {
        let numbers = line.split_once('#').map_or(line, |(numbers, _)| numbers);
        for number in numbers.split_whitespace() {
            bytes.push(number.parse::<u8>()?)?;
        }
    }
    Ok(bytes)
}

impl Table {
    fn read(rt: &HostRuntime, name: &'static str, buffer: usize) -> anyhow::Result<Table> {
        let text = fs::read_to_string(rt, name)?;
        let bytes = bytes_of(rt.alloc(), text.as_str())?;
        Ok(Table {
            name,
            buffer,
            bytes,
        })
    }

    /// The fill of the whole buffer.
    fn fill(&self) -> Call<'_> {
        Call::Fill {
            buffer: self.buffer,
            offset: 0,
            bytes: self.bytes.as_slice(),
        }
    }

    /// Says whether the memory still has the table as it was filled.
    fn show(&self, rt: &HostRuntime, rule: &Passed<'_>, memory: &[u8]) -> anyhow::Result<()> {
        let kept = rule
            .buffer(memory, self.buffer)
            .is_some_and(|bytes| bytes == self.bytes.as_slice());
        let state = if kept { "as filled" } else { "ALTERED" };
        let name = self.name;
        println!(rt; "{name} {state}")?;
        Ok(())
    }
}

impl Site {
    pub(crate) fn read(rt: &HostRuntime) -> anyhow::Result<Site> {
        Ok(Site {
            tables: [
                Table::read(rt, "routes", 0)?,
                Table::read(rt, "signals", 1)?,
                Table::read(rt, "points", 2)?,
            ],
        })
    }

    /// Fills the read-only buffers of the rule, and answers how many fills were refused.
    pub(crate) fn fill(&self, rule: &Passed<'_>, memory: &mut [u8]) -> usize {
        let [routes, signals, points] = &self.tables;
        rule.carry_out(&[routes.fill(), signals.fill(), points.fill()], memory)
    }

    /// Says of each table whether the memory still has it as it was filled.
    pub(crate) fn show(
        &self,
        rt: &HostRuntime,
        rule: &Passed<'_>,
        memory: &[u8],
    ) -> anyhow::Result<()> {
        for table in &self.tables {
            table.show(rt, rule, memory)?;
        }
        Ok(())
    }
}
