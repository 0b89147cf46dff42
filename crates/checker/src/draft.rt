ghost use Rattle.std.specs.Prelude.{◌≡◌, None, Some};
ghost use Rattle.checker.specs.declared.passed.Passed.{Passed};

use super::passed::Passed;
use rule::Record;

/// A table of records, held for reading, that may be checked. Once a check has reported nothing it is clean, and has the
/// rule that it can be turned into.
#[derive(Drop)]
pub struct Draft<'a> {
    pub(crate) table: &'a [Record],
    pub(crate) clean: Option<Passed<'a>>,
    ghost same: { (p : Passed) → clean ≡ Some p → p.rule.table.now ≡ table.now },
}

impl<'a> Draft<'a> {
    /// A draft of any table, not clean yet.
    pub fn of(table: &'a [Record]) -> Draft<'a>
        ensures { (result.table.now ≡ table.now) × (result.clean ≡ None) }
    {
        Draft { table, clean: None }
    }
}
