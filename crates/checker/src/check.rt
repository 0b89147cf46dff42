ghost use Rattle.std.specs.Prelude.{◌≡◌, ◌*◌, ◌≤◌, ◌&&◌, ◌||◌, true, MatchResult, nat_le};
ghost use Rattle.std.specs.Option.{is_some};
ghost use Rattle.machine.specs.Valid.{table_ok};
ghost use Rattle.walk.specs.Walk.{sheet};
ghost use Rattle.checker.specs.Verdicts.{Checked, Refused, accepts};

use super::draft::Draft;
use super::passed::Passed;
use super::refusal::CheckRefusal;
use domain::Domain;
use machine::Rule;
use step::{Mark, Report};
use walk::{Tally, sweep};

/// Have the lists room for so many instructions? Eight values, a mark and a report for each.
fn has_room(instructions: usize, rows: usize, marks: usize, reports: usize) -> bool
    requires { instructions ≤ 96 }
    ensures { result ≡ (nat_le (8 * instructions) rows && (nat_le instructions marks && nat_le instructions reports)) }
{
    8 * instructions <= rows && (instructions <= marks && instructions <= reports)
}

/// The check of a rule, where the lists have room for it.
fn judge<D: Domain>(
    rule: Rule<'_>,
    rows: &mut [D],
    marks: &mut [Mark],
    reports: &mut [Report],
) -> Result<Tally<D>, CheckRefusal>
    requires { table_ok rule.table.now ≡ true }
    ensures { MatchResult result
        (λ t. Checked D.Domain rule.entry.table.now rows.old marks.old reports.old (sheet rows.new marks.new reports.new t.count t.answer))
        (λ e. Refused rule.entry.table.now rows.old rows.new marks.old marks.new reports.old reports.new e) }
{
    if !has_room(
        rule.shape().instructions,
        rows.len(),
        marks.len(),
        reports.len(),
    ) {
        return Err(CheckRefusal::NoRoom);
    }
    Ok(sweep(rule, rows, marks, reports))
}

impl<'a> Draft<'a> {
    /// Checks the draft over a domain. A draft that a check accepts, which is one that reports nothing, is clean from
    /// then on.
    pub fn check<D: Domain>(
        &mut self,
        rows: &mut [D],
        marks: &mut [Mark],
        reports: &mut [Report],
    ) -> Result<Tally<D>, CheckRefusal>
        ensures found { MatchResult result
            (λ t. Checked D.Domain self.old.table.now rows.old marks.old reports.old (sheet rows.new marks.new reports.new t.count t.answer))
            (λ e. Refused self.old.table.now rows.old rows.new marks.old marks.new reports.old reports.new e) }
        ensures table { self.new.table.now ≡ self.old.table.now }
        ensures clean { is_some self.new.clean ≡ (is_some self.old.clean || accepts result) }
    {
        let rule = Rule::of(self.table).ok_or(CheckRefusal::NoRule)?;
        let tally = judge(rule, rows, marks, reports)?;
        if tally.count == 0 {
            self.clean = Some(Passed { rule });
        }
        Ok(tally)
    }
}
