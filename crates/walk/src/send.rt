ghost use Rattle.std.specs.Prelude.{◌≡◌, ◌+◌, ◌*◌, ◌<◌, ◌≤◌, length, if◌then◌else◌};
ghost use Rattle.step.specs.Changes.{patch_value, patch_set, changed_value, changed_set, change_of, place_of};
ghost use Rattle.step.specs.Rows.{is_set};
ghost use Rattle.walk.specs.Walk.{meets, arrived_mark, sent_rows, sent_all, sent_marks, Present};

use domain::Domain;
use std::array;
use step::{Change, Jump, Mark, Patch};

// What a patch makes of a value, and of a mark's bit: two functions, since each says its own word where the patch is of the
// register.

fn patch_value<D: Domain>(patch: Option<Patch<D>>, register: usize, value: D) -> D
    ensures { result ≡ patch_value patch register value }
{
    match patch {
        Some(patch) if register == usize::from(patch.register) => patch.value,
        _ => value,
    }
}

fn patch_set<D: Domain>(patch: Option<Patch<D>>, register: usize, set: bool) -> bool
    ensures { result ≡ patch_set patch register set }
{
    match patch {
        Some(patch) if register == usize::from(patch.register) => true,
        _ => set,
    }
}

/// The register's value after the change.
fn changed_value<D: Domain>(change: Change<D>, register: usize, value: D) -> D
    ensures { result ≡ changed_value change register value }
{
    let value = patch_value(change.first, register, value);
    patch_value(change.second, register, value)
}

fn changed_set<D: Domain>(change: Change<D>, register: usize, set: bool) -> bool
    ensures { result ≡ changed_set change register set }
{
    let set = patch_set(change.first, register, set);
    patch_set(change.second, register, set)
}

fn is_set(mark: Mark, register: usize) -> bool
    ensures { result ≡ is_set mark register }
{
    mark.set.get(register).copied().unwrap_or(false)
}

fn meet(old: Mark, set: bool, register: usize) -> bool
    ensures { result ≡ meets old set register }
{
    if old.reached {
        is_set(old, register) & set
    } else {
        set
    }
}

fn arrive<D: Domain>(set: bool, reached: bool, was: D, comes: D) -> D
    ensures { result ≡ (if set then (if reached then D.Domain.joined was comes else comes) else D.Domain.every) }
{
    if !set {
        D::any()
    } else if reached {
        was.join(comes)
    } else {
        comes
    }
}

/// The mark where a change from another instruction comes to one.
fn arrive_mark<D: Domain>(old: Mark, from: Mark, change: Change<D>) -> Mark
    ensures { result ≡ arrived_mark old from change }
{
    Mark {
        reached: true,
        set: array::from_fn(|k| meet(old, changed_set(change, k, is_set(from, k)), k)),
    }
}

/// Eight values of one instruction's row, changed, come to another's: copied where that is new, joined where it is not.
/// Both rows stand in one list, so a place among the eight is counted for both.
fn send_row<D: Domain>(
    rows: &mut [D],
    from: usize,
    to: usize,
    old: Mark,
    new: Mark,
    change: Change<D>,
)
    requires later { from < to }
    requires within { 8 * to + 8 ≤ length rows.old }
    ensures { rows.new ≡ sent_rows D.Domain from to old new change rows.old 8 }
{
    for (k, set) in new.set.iter().enumerate() {
        let comes = changed_value(change, k, rows[8 * from + k]);
        rows[8 * to + k] = arrive(*set, old.reached, rows[8 * to + k], comes);
    }
}

/// A change, if there is one, comes from an instruction to a later one.
pub(crate) fn send<D: Domain>(
    rows: &mut [D],
    marks: &mut [Mark],
    from: usize,
    to: usize,
    change: Option<Change<D>>,
)
    requires { Present change ((from < to) × (8 * to + 8 ≤ length rows.old) × (to < length marks.old)) }
    ensures rows { rows.new ≡ sent_all D.Domain from to change rows.old marks.old }
    ensures marks { marks.new ≡ sent_marks from to change marks.old }
{
    if let Some(change) = change {
        let old = marks[to];
        let new = arrive_mark(old, marks[from], change);
        marks[to] = new;
        send_row(rows, from, to, old, new, change);
    }
}

/// A jump, if there is one, takes its change to a later instruction.
pub(crate) fn leap<D: Domain>(
    rows: &mut [D],
    marks: &mut [Mark],
    from: usize,
    jump: Option<Jump<D>>,
)
    requires { Present (change_of jump) ((from < place_of jump) × (8 * place_of jump + 8 ≤ length rows.old) × (place_of jump < length marks.old)) }
    ensures rows { rows.new ≡ sent_all D.Domain from (place_of jump) (change_of jump) rows.old marks.old }
    ensures marks { marks.new ≡ sent_marks from (place_of jump) (change_of jump) marks.old }
{
    if let Some(Jump { to, change }) = jump {
        send(rows, marks, from, to, Some(change));
    }
}
