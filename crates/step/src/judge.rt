ghost use Rattle.std.specs.Prelude.{◌≡◌};
ghost use Rattle.step.specs.Needs.{divisor_cause, shift_cause, access_cause};

use super::cause::Cause;
use domain::Facts;
use words::Width;

/// A divisor has to be shown above 0: by a bit that is known to be set, or by its least.
pub(crate) fn judge_divisor(facts: Facts) -> Option<Cause>
    ensures { result ≡ divisor_cause facts }
{
    if facts.bits.known() != 0 || facts.range.least() > 0 {
        None
    } else {
        Some(Cause::Divisor)
    }
}

pub(crate) fn judge_shift(facts: Facts) -> Option<Cause>
    ensures { result ≡ shift_cause facts }
{
    (facts.range.most() > 63).then_some(Cause::Shift)
}

/// An index, by its facts, the width and the buffer's size alone. The sum does not wrap.
pub(crate) fn judge_access(facts: Facts, width: Width, size: usize) -> Option<Cause>
    ensures { result ≡ access_cause facts width size }
{
    let bytes = width.bytes();
    if u128::from(facts.range.most()) + bytes as u128 > size as u128 {
        Some(Cause::Beyond)
    } else if facts.bits.known() % bytes as u64 != 0 || facts.bits.unknown() % bytes as u64 != 0 {
        Some(Cause::Askew)
    } else {
        None
    }
}
