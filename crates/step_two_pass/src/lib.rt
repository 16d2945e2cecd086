// A step of a state that passed its tests: two passes, and the scan of each for refusal 6. The lent state is the base of both, and stays as it
// is until pass 2 has kept the bounds: the results of both passes are made in states whose slices are parts of the work space.
#![tactic(auto)]

ghost use Rattle.std.specs.Prelude.{◌≡◌, [], ◌∷◌, length};
ghost use Rattle.model.specs.State.{lent_state, state_at, written, SameSlices};
ghost use Rattle.model.specs.Tests.{first_found};
ghost use Rattle.model.specs.Step.{leaves, two_pass};
ghost use Rattle.step_two_pass.specs.Outcomes.{bounds_by, field_test, Sized, Room, Stepped, StepReady};

use model::{Breach, Field, Lent, LentMut};

// ---- refusal 6

// Whether a field of a pass's result keeps its bounds; else the first cell that is outside. It rules out, for instance: a cell told of another
// field; the other pass told. (A `map_or` would take its two arms too, the second as a closure. The pass is a number: see `model::Breach`.)
fn test_bounds(pass: u8, f: &[i64], field: Field) -> Result<(), Breach>
    ensures { let l = f.now in
        result ≡ bounds_by pass (first_found (field_test field (length l) l ∷ [])) }
{
    match tests::first_outside(&f, tests::row_of(field).limits) {
        Some(cell) => Err(Breach { pass, field, cell }),
        None => Ok(()),
    }
}

// Whether the result of a pass keeps its bounds: h, then u, then v, lowest cell.
fn test_result(pass: u8, s: &Lent) -> Result<(), Breach>
    requires { Sized (lent_state s.now) }
    ensures { result ≡ bounds_by pass (leaves (lent_state s.now)) }
{
    test_bounds(pass, s.h, Field::Depth)?;
    test_bounds(pass, s.u, Field::VelocityU)?;
    test_bounds(pass, s.v, Field::VelocityV)
}

// ---- a step of a state that passed the tests: what it comes to is that the state lent is the next one, or else what leaves a bound

// The depths and velocities of the result, into the state that is stepped.
fn take_state(made: &Lent, s: &mut LentMut<'_>)
    requires { Room (state_at s.old) (lent_state made.now) × Sized (state_at s.old) }
    ensures { let t = lent_state made.now in
        s.new ≡ written s.old t.h t.u t.v }
{
    grid::copy(made.h, s.h);
    grid::copy(made.u, s.u);
    grid::copy(made.v, s.v);
}

// The two passes, each with a potential vorticity of its own in q, into the states first and second. All of pass 1 is tested before pass 2. It
// rules out, for instance: pass 1 returned; a place left by pass 2 told as one of pass 1; a step that has left a bound and keeps what pass 1 made.
pub fn two_pass(
    s: &mut LentMut<'_>,
    inflow: &[i64],
    q: &mut [i64],
    first: &mut LentMut<'_>,
    second: &mut LentMut<'_>,
) -> Result<(), Breach>
    requires { StepReady (state_at s.old) inflow.now (length q.old) (state_at first.old) (state_at second.old) }
    ensures steps { let t = state_at s.old in
        Stepped t (two_pass t inflow.now) result (state_at s.new) }
    ensures first { Room (state_at s.old) (state_at first.new) }
    ensures second { Room (state_at s.old) (state_at second.new) }
    ensures slices { SameSlices s.old s.new }
{
    step_pass::pass(&s.lent(), &s.lent(), inflow, q, first.h, first.u, first.v);
    test_result(1, &first.lent())?;
    step_pass::pass(
        &first.lent(),
        &s.lent(),
        inflow,
        q,
        second.h,
        second.u,
        second.v,
    );
    test_result(2, &second.lent())?;
    take_state(&second.lent(), s);
    Ok(())
}
