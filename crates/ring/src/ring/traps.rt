// What is noted of a trap.
ghost use Rattle.std.specs.Prelude.{◌≡◌};
ghost use Rattle.ring.specs.Movements.{overflow_counted, underflow_counted};

use crate::counts::Counts;
use policies::policy::SpillPolicy;

// Tells the policy of an overflow of `k` windows, and counts it.
pub(super) fn note_overflow<P: SpillPolicy>(policy: &mut P, counts: &mut Counts, k: u32)
    ensures tells_the_policy_once { policy.new ≡ P.SpillPolicy.after_overflow policy.old }
    ensures counts_the_overflow { counts.new ≡ overflow_counted k counts.old }
{
    policy.overflowed();
    counts.overflows = counts.overflows.saturating_add(1);
    counts.spilled = counts.spilled.saturating_add(u64::from(k));
}

// Tells the policy of an underflow of `k` windows, and counts it.
pub(super) fn note_underflow<P: SpillPolicy>(policy: &mut P, counts: &mut Counts, k: u32)
    ensures tells_the_policy_once { policy.new ≡ P.SpillPolicy.after_underflow policy.old }
    ensures counts_the_underflow { counts.new ≡ underflow_counted k counts.old }
{
    policy.underflowed();
    counts.underflows = counts.underflows.saturating_add(1);
    counts.filled = counts.filled.saturating_add(u64::from(k));
}
