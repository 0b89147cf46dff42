ghost use Rattle.std.specs.Prelude.{◌≡◌, true};
ghost use Rattle.machine.specs.Machine.{NeverStuck};
ghost use Rattle.machine.specs.Valid.{table_ok};

use machine::Rule;

/// A rule that may run: it never gets stuck. Only a passed rule can be run, and only a passed rule's memory filled.
#[derive(Drop)]
pub struct Passed<'a> {
    pub(crate) rule: Rule<'a>,
    ghost valid: { table_ok rule.table.now ≡ true },
    ghost safe: { NeverStuck rule.table.now },
}
