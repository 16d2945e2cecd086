// The run and the step, which is a run of one: the tests, two passes a step, and the work space cleared.
//
// The inflow and the work space go beside the state, one by one: each function below lends on another part of the work space. That the caller's
// slices stay (`SameSlices`) is a clause of each: it is of before and after, which no invariant of `LentMut` sees. Three promise what a run comes
// to (`ran`): they differ in what they work in.
#![tactic(auto)]

ghost use Rattle.std.specs.Prelude.{◌≡◌, false, List, ℕ, ◌*◌, ◌≤◌, ℤ, pos, length, replicate};
ghost use Rattle.std.specs.Prelude.{Some};
ghost use Rattle.model.specs.Grid.{filled};
ghost use Rattle.model.specs.State.{Side, WithinLimits, corners, state_of, lent_state, state_at, SameSlices};
ghost use Rattle.model.specs.Tests.{first_found};
ghost use Rattle.model.specs.Step.{run_from, run_test, leaves_all, work_left};
ghost use Rattle.model.specs.Promises.{answer_of, StepPromise, RunPromise};
ghost use Rattle.model.specs.Claims.{StepTaken};
ghost use Rattle.step_two_pass.specs.Outcomes.{StepReady};
ghost use Rattle.step_run.specs.Beside.{beside_tests};

use model::{Field, Lent, LentMut, Parameters, Refusal, RunError, StepError};

// ---- the work space

// Clears the numbers that a step of m cells uses: 8 for each. (The work space may be longer.)
fn clear_used(m: usize, work: &mut [i64])
    requires { 8 * m ≤ length work.old }
    ensures { work.new ≡ filled (8 * m) (replicate (8 * m) (pos 0)) work.old }
{
    work[..8 * m].fill(0);
}

// Whether a refusal leaves the work space as it was: 1 and 2 do, and 7 and 8, which no step has; all others clear it.
fn leaves_all(refusal: Refusal) -> bool
    ensures { result ≡ leaves_all refusal }
{
    matches!(
        refusal,
        Refusal::Grid | Refusal::Lengths | Refusal::Record { .. } | Refusal::Destination
    )
}

// What a refused call leaves in the work space.
#[tactic(auto, unfolding(model::specs::Step::work_left))]
fn clear_after(refusal: Refusal, p: Parameters, work: &mut [i64])
    requires { leaves_all refusal ≡ false → 8 * (p.w * p.n) ≤ length work.old }
    ensures { (h b u v : List ℤ) (barriers : List ℕ)
        → work.new ≡ work_left (Some refusal) (state_of p h b u v barriers) work.old }
{
    if !leaves_all(refusal) {
        clear_used(p.w * p.n, work);
    }
}

// ---- the run

// Tests 1 to 5 of a run: those of a state, its length after 1, the work space after 2, the inflow after the state's own fields. (Its own list in
// the model, as those of `tests` are, in that order.)
#[tactic(auto, unfolding(model::specs::Step::run_test))]
fn test_run(s: &Lent, inflow: &[i64], steps: u64, room: usize) -> Result<(), Refusal>
    ensures { result ≡ answer_of (run_test (lent_state s.now) inflow.now steps room) }
{
    tests::test_grid(s.p)?;
    tests::test_run_length(steps)?;
    let m = s.p.w * s.p.n;
    tests::test_lengths(s, m)?;
    tests::test_length(m, inflow.len())?;
    tests::test_work(m, room)?;
    tests::test_constants(s.p)?;
    tests::test_fields(s)?;
    tests::test_field(s.p, &inflow, Field::Inflow)?;
    tests::test_edges(s.p, &s.u, &s.v, s.barriers)
}

// Steps with the same inflow, until there are so many or the next one is refused with 6. The passes of each make their results in first and
// second, and work their potential vorticity out into q.
fn run_steps(
    s: &mut LentMut<'_>,
    inflow: &[i64],
    steps: u64,
    q: &mut [i64],
    first: &mut LentMut<'_>,
    second: &mut LentMut<'_>,
) -> Result<u64, RunError>
    requires { StepReady (state_at s.old) inflow.now (length q.old) (state_at first.old) (state_at second.old) }
    ensures ran { let ran = run_from steps 0 (state_at s.old) inflow.now in
        (result ≡ ran.answer) × (state_at s.new ≡ ran.state) }
    ensures slices { SameSlices s.old s.new }
{
    for done in 0..steps {
        if let Err(breach) = step_two_pass::two_pass(s, inflow, q, first, second) {
            return Err(RunError::Stopped {
                steps: done,
                breach,
            });
        }
    }
    Ok(steps)
}

// The same in the work space, which is cut once: h, u and v of the one result, and of the other. Two parts are left over.
fn run_in_parts(
    s: &mut LentMut<'_>,
    inflow: &[i64],
    steps: u64,
    q: &mut [i64],
    work: &mut [i64],
) -> Result<u64, RunError>
    requires { let t = state_at s.old in
        StepTaken t inflow.now (length work.old) × (corners t ≤ length q.old) }
    ensures ran { let ran = run_from steps 0 (state_at s.old) inflow.now in
        (result ≡ ran.answer) × (state_at s.new ≡ ran.state) }
    ensures slices { SameSlices s.old s.new }
{
    let m = s.p.w * s.p.n;
    let (h, rest) = work.split_at_mut(m);
    let (u, rest) = rest.split_at_mut(m);
    let (v, rest) = rest.split_at_mut(m);
    let mut first = LentMut {
        p: s.p,
        h,
        b: s.b,
        u,
        v,
        barriers: s.barriers,
    };
    let (h, rest) = rest.split_at_mut(m);
    let (u, rest) = rest.split_at_mut(m);
    let (v, _) = rest.split_at_mut(m);
    let mut second = LentMut {
        p: s.p,
        h,
        b: s.b,
        u,
        v,
        barriers: s.barriers,
    };
    run_steps(s, inflow, steps, q, &mut first, &mut second)
}

// The same with room for the potential vorticity, which is the run's own: the corners of a thin basin do not fit what is free in the work
// space. An array is made of zeros, so that a small grid takes a small one: those of basins up to 4 by 4, up to 16 by 16 and up to 64 by 64.
// (A function generic over the array's size would be called three times too, once for each size.)
fn run_in_room(
    s: &mut LentMut<'_>,
    inflow: &[i64],
    steps: u64,
    work: &mut [i64],
) -> Result<u64, RunError>
    requires { StepTaken (state_at s.old) inflow.now (length work.old) }
    ensures ran { let ran = run_from steps 0 (state_at s.old) inflow.now in
        (result ≡ ran.answer) × (state_at s.new ≡ ran.state) }
    ensures slices { SameSlices s.old s.new }
{
    let corners = grid::corner_count(s.p);
    if corners <= 25 {
        return run_in_parts(s, inflow, steps, &mut [0; 25], work);
    }
    if corners <= 289 {
        return run_in_parts(s, inflow, steps, &mut [0; 289], work);
    }
    run_in_parts(s, inflow, steps, &mut [0; 4225], work)
}

// What a run comes to, by the answer of its tests. (A refusal clears the work space too, so `?` would not do.)
fn run_tested(
    tested: Result<(), Refusal>,
    s: &mut LentMut<'_>,
    inflow: &[i64],
    steps: u64,
    work: &mut [i64],
) -> Result<u64, RunError>
    requires { tested ≡ answer_of (run_test (state_at s.old) inflow.now steps (length work.old)) }
    ensures promise { RunPromise (state_at s.old) inflow.now steps work.old result (state_at s.new) work.new }
    ensures slices { SameSlices s.old s.new }
{
    match tested {
        Ok(()) => {
            let m = s.p.w * s.p.n;
            let answer = run_in_room(s, inflow, steps, &mut work[..8 * m]);
            clear_used(m, work);
            answer
        }
        Err(refusal) => {
            clear_after(refusal, s.p, work);
            Err(RunError::Refused(refusal))
        }
    }
}

// A run of so many steps with the same inflow: h, u and v become those of the state after the steps done. Refusals: 1, 2, 3, 4, 5,
// and 6 beside the number of steps done. It rules out, for instance: steps told that were never taken; a stop before step one.
pub fn run(
    s: &mut LentMut<'_>,
    inflow: &[i64],
    steps: u64,
    work: &mut [i64],
) -> Result<u64, RunError>
    ensures promise { RunPromise (state_at s.old) inflow.now steps work.old result (state_at s.new) work.new }
    ensures slices { SameSlices s.old s.new }
{
    let tested = test_run(&s.lent(), inflow, steps, work.len());
    run_tested(tested, s, inflow, steps, work)
}

// ---- the step

// A step, which is a run of one: h, u and v become those of the next state. Refusals: 1, 2, 3, 4, 5, 6. (`run`, `step` and `step_within` are
// three calls: each has an answer or tests of its own, and the rest is `run_tested`.)
// It rules out, for instance: pass 1 returned; a refusal that leaves pass 1's state behind; the work space not cleared.
pub fn step(s: &mut LentMut<'_>, inflow: &[i64], work: &mut [i64]) -> Result<(), StepError>
    ensures promise { StepPromise (state_at s.old) inflow.now work.old result (state_at s.new) work.new }
    ensures slices { SameSlices s.old s.new }
{
    run(s, inflow, 1, work)?;
    Ok(())
}

// ---- a step of a state that is known to be within the limits

// What is left to test of a step then: the inflow and the work space.
fn test_beside(p: Parameters, inflow: &[i64], room: usize) -> Result<(), Refusal>
    requires { Side p.w × Side p.n }
    ensures { result ≡ answer_of (first_found (beside_tests (p.w * p.n) inflow.now room)) }
{
    let m = p.w * p.n;
    tests::test_length(m, inflow.len())?;
    tests::test_work(m, room)?;
    tests::test_field(p, &inflow, Field::Inflow)
}

// The same step, where the state is within the limits, as a record that was read is: none of its fields is tested again. It rules out, for
// instance: an inflow above its bound taken; a work space that is too short.
pub fn step_within(s: &mut LentMut<'_>, inflow: &[i64], work: &mut [i64]) -> Result<(), StepError>
    requires { WithinLimits (state_at s.old) }
    ensures promise { StepPromise (state_at s.old) inflow.now work.old result (state_at s.new) work.new }
    ensures slices { SameSlices s.old s.new }
{
    let tested = test_beside(s.p, inflow, work.len());
    run_tested(tested, s, inflow, 1, work)?;
    Ok(())
}
