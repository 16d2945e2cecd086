// The calls that answer with one number: total depth, and four times total energy. Both go through the cells once, and their sums
// fit 64 bits, since a state that passes the tests has 4,096 cells at most.
#![tactic(auto)]

ghost use Rattle.std.specs.Prelude.{◌≡◌, ◌<◌, ◌≤◌, length};
ghost use Rattle.model.specs.Numbers.{Within, total, gravity_limits, depth_limits, bottom_limits, velocity_limits};
ghost use Rattle.model.specs.State.{FieldWithin, lent_state};
ghost use Rattle.model.specs.Totals.{energy_at, energy4};
ghost use Rattle.model.specs.Promises.{TotalDepthPromise, TotalEnergyPromise};
ghost use Rattle.scheme.specs.Ready.{ReadsAt, StateReady};
ghost use Rattle.scheme_totals.specs.Energy.{kinetic_at, potential_at};

use model::{Lent, Refusal};

// ---- depth

// The sum of the depths. No `sum()`: the library has no law that each partial sum of signed numbers fits, which the loop's invariant gives; that
// law would be longer than this loop. It rules out, for instance: the last cell left out; the first one twice.
pub fn sum_depths(h: &[i64]) -> i64
    requires { FieldWithin depth_limits (length h.now) h.now × (length h.now ≤ 4096) }
    ensures { result ≡ total h.now }
{
    let mut sum = 0;
    for &depth in h {
        sum += depth;
    }
    sum
}

// The total depth of a state. Refusals: 1, 2, 3, 4, 5.
// It rules out, for instance: a total that leaves a cell out; the total of a state that is to be refused.
pub fn total_depth(s: &Lent) -> Result<i64, Refusal>
    ensures { TotalDepthPromise (lent_state s.now) result }
{
    tests::test_state(s)?;
    Ok(sum_depths(s.h))
}

// ---- energy

// Four times the kinetic energy at an edge of cell k, from the velocity x there and the depths of the cells k and l beside it: no struct of
// these, as for `scheme::flux_at`.
fn kinetic_at(h: &[i64], x: &[i64], k: usize, l: usize) -> i64
    requires { ReadsAt velocity_limits x.now k
        × ReadsAt depth_limits h.now l
        × ReadsAt depth_limits h.now k }
    ensures { result ≡ kinetic_at h.now x.now k l }
{
    let speed = x[k];
    (h[l] + h[k]) * (speed * speed)
}

// Four times the potential energy of cell k.
fn potential_at(g: i64, h: &[i64], b: &[i64], k: usize) -> i64
    requires { Within gravity_limits g × ReadsAt depth_limits h.now k × ReadsAt bottom_limits b.now k }
    ensures { result ≡ potential_at g h.now b.now k }
{
    2 * g * h[k] * (h[k] + 2 * b[k])
}

// Four times the energy of cell (i, j), with that of its west and south edges. Nothing is asked of the barriers, which do not enter. (The bounds of
// i and j stand here as at `scheme::shares_at`.)
fn energy_at(s: &Lent, i: usize, j: usize) -> i64
    requires { StateReady (lent_state s.now) × (i < s.now.p.w) × (j < s.now.p.n) }
    ensures { result ≡ energy_at (lent_state s.now) i j }
{
    let a = grid::around(s.p, i, j);
    let west = kinetic_at(s.h, s.u, a.here, a.west);
    let south = kinetic_at(s.h, s.v, a.here, a.south);
    west + south + potential_at(s.p.g, s.h, s.b, a.here)
}

// The sum over the cells, by rows and columns. No `sum()`, as above; and a closure for each loop would have to be told what the two know of i
// and j.
fn sum_energy(s: &Lent) -> i64
    requires { StateReady (lent_state s.now) }
    ensures { result ≡ energy4 (lent_state s.now) }
{
    let mut sum = 0;
    for j in 0..s.p.n {
        for i in 0..s.p.w {
            sum += energy_at(s, i, j);
        }
    }
    sum
}

// Four times the total energy of a state. Refusals: 1, 2, 3, 4, 5. No function over the sum makes both totals: each is the tests and the sum.
// It rules out, for instance: the depth to the east of a cell for the one to its west; the bottom counted once.
pub fn total_energy(s: &Lent) -> Result<i64, Refusal>
    ensures { TotalEnergyPromise (lent_state s.now) result }
{
    tests::test_state(s)?;
    Ok(sum_energy(s))
}
