// Whole numbers: rounding as proved code; in specs/ the laws of ℤ that the kit lacks, polynomial identities by computation,
// bounds by computation for what must fit 64 bits, and the laws of rounding.
#![tactic(auto)]

ghost use Rattle.std.specs.Prelude.{◌≡◌, ◌+◌, ◌*◌, ◌/◌, ◌≤◌};
ghost use Rattle.model.specs.Numbers;
ghost use Rattle.integers.specs.Ranges.{between};
ghost use Rattle.integers.specs.Rounding.{Roundable, most_dividend, most_divisor};

// The nearest whole number to t/d, halves up: one division gives quotient and remainder.
fn nearest(t: u64, d: u64) -> u64
    requires { (t ≤ most_dividend) × (1 ≤ d) × (d ≤ most_divisor) }
    ensures { result ≡ (2 * t + d) / (2 * d) }
{
    let q = t / d;
    if 2 * (t % d) < d { q } else { q + 1 }
}

// 01's rnd(a/b): the nearest whole number. The size is rounded and the sign put back, so that halves go away from zero for both
// signs. It rules out, for instance: halves toward zero; halves up, which differs for a negative half.
#[tactic(auto, using(crate::specs::Rounding::rnd_negative, crate::specs::Rounding::rnd_nonnegative))]
pub fn rnd(a: i64, b: i64) -> i64
    requires { Roundable a b }
    ensures { result ≡ Numbers.rnd a b }
{
    let q = nearest(a.unsigned_abs(), b as u64);
    if a < 0 { -(q as i64) } else { q as i64 }
}

// The least and the greatest number allowed. No std::ops::RangeInclusive: that is an iterator and no Copy, and contracts read these fields.
#[derive(Clone, Copy, PartialEq, Eq, Debug)]
pub struct Range {
    pub least: i64,
    pub most: i64,
}

impl Range {
    // Whether a number is within the range, its ends included. It rules out, for instance: an end excluded; the lower end untested.
    #[tactic(auto, unfolding(model::specs::Numbers::within))]
    pub fn contains(self, x: i64) -> bool
        ensures { result ≡ Numbers.within (between self) x }
    {
        self.least <= x && x <= self.most
    }
}
