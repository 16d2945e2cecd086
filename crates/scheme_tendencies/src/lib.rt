// The calls that fill lent fields: potential vorticity, and tendencies. They go by rows and columns, without a division for an index,
// and work each corner and each cell out once; the tendencies do the last cell of a row or column once more where the grid wraps through
// an open edge.
//
// The three destinations go on one by one, as C lends them: a struct of them would be made in each call, to be taken apart in each row. What is
// asked of s, q and j, and of what a row hands on (`HandedNorth`, which is of all three), stands in the contracts, as at `scheme::shares_at`.
#![tactic(auto)]

ghost use Rattle.std.specs.Prelude.{◌≡◌, [], ◌∷◌, ◌+◌, ◌*◌, ◌<◌, ◌≤◌, neg_ℤ, length};
ghost use Rattle.model.specs.Grid.{filled};
ghost use Rattle.model.specs.State.{cells, lent_state};
ghost use Rattle.model.specs.Scheme.{D, vorticity, tendency_u, tendency_v, h_tendencies, u_tendencies, v_tendencies};
ghost use Rattle.model.specs.Promises.{answer_of, tendencies_test, VorticityPromise, TendenciesPromise};
ghost use Rattle.grid.specs.WritingLoops.{RowWriting};
ghost use Rattle.scheme.specs.Ready.{TendenciesReady, walled};
ghost use Rattle.scheme.specs.Handing.{HandedNorth};
ghost use Rattle.scheme_tendencies.specs.CallLaws.{Room};

use grid::Edge;
use model::{Lent, Refusal};
use scheme::CellTendencies;

// ---- potential vorticity

// The potential vorticity of a state, at every corner, into the first places of d. Refusals: 1, 2, 3, 4, 5, 8.
// It rules out, for instance: a destination of w·n places taken in a basin; a destination that is not tested.
pub fn potential_vorticity(s: &Lent, d: &mut [i64]) -> Result<(), Refusal>
    ensures { VorticityPromise (lent_state s.now) d.old result d.new }
{
    tests::test_state(s)?;
    tests::test_room(grid::corner_count(s.p), d.len())?;
    scheme::fill_vorticity(s, d);
    Ok(())
}

// ---- tendencies

// The tendencies of row j, as if there were no barriers. `handed` has what this row needs of the row to the south, and then what the next
// one needs of this row. By i: four slices, which zipped would have to be cut to the row first, and the column besides.
fn fill_row(
    s: &Lent,
    q: &[i64],
    j: usize,
    handed: &mut [i64],
    dh: &mut [i64],
    du: &mut [i64],
    dv: &mut [i64],
)
    requires { let t = walled s.now in
        TendenciesReady t q.now
        × (j < t.n)
        × HandedNorth t q.now j handed.old
        × Room (cells t) dh.old du.old dv.old }
    ensures { let t = walled s.now in
        let q₀ = q.now in
        RowWriting t.w t.n (λ i j. neg_ℤ (D t i j)) 0 j dh.old t.w dh.new
        × RowWriting t.w t.n (tendency_u t q₀) 0 j du.old t.w du.new
        × RowWriting t.w t.n (tendency_v t q₀) 0 j dv.old t.w dv.new
        × HandedNorth t q₀ (j + 1) handed.new }
{
    let mut from_west = scheme::from_west(s, q, 0, j);
    for i in 0..s.p.w {
        let CellTendencies {
            depth,
            u,
            v,
            east,
            north,
        } = scheme::tendencies_at(s, q, i, j, from_west, handed[i]);
        let k = j * s.p.w + i;
        dh[k] = depth;
        du[k] = u;
        dv[k] = v;
        handed[i] = north;
        from_west = east;
    }
}

// Fills the first w·n places of dh with -D, of du with Tu and of dv with Tv, as if there were no barriers. (`step_pass::fill_velocity` hands
// rows on in the same way, but what a row stores is made otherwise; one function for both would take that as a closure with all the slices.)
fn fill_walled(s: &Lent, q: &[i64], dh: &mut [i64], du: &mut [i64], dv: &mut [i64])
    requires { let t = walled s.now in
        TendenciesReady t q.now
        × Room (cells t) dh.old du.old dv.old }
    ensures { let t = walled s.now in
        let q₀ = q.now in
        (dh.new ≡ filled (cells t) (h_tendencies t) dh.old)
        × (du.new ≡ filled (cells t) (u_tendencies t q₀) du.old)
        × (dv.new ≡ filled (cells t) (v_tendencies t q₀) dv.old) }
{
    // copied first, as in `scheme::fill_vorticity`
    let s = *s;
    // a row has 64 cells at most, and there is no heap
    let mut handed = [0; 64];
    scheme::hand_north(&s, q, &mut handed);
    for j in 0..s.p.n {
        fill_row(&s, q, j, &mut handed, dh, du, dv);
    }
}

// The same with barriers.
fn fill_tendencies(s: &Lent, q: &[i64], dh: &mut [i64], du: &mut [i64], dv: &mut [i64])
    requires { let t = lent_state s.now in
        TendenciesReady t q.now
        × (length t.barriers ≡ cells t)
        × Room (cells t) dh.old du.old dv.old }
    ensures { let t = lent_state s.now in
        let q₀ = q.now in
        (dh.new ≡ filled (cells t) (h_tendencies t) dh.old)
        × (du.new ≡ filled (cells t) (u_tendencies t q₀) du.old)
        × (dv.new ≡ filled (cells t) (v_tendencies t q₀) dv.old) }
{
    fill_walled(s, q, dh, du, dv);
    grid::clear_barred(du, 0, s.barriers, Edge::West);
    grid::clear_barred(dv, 0, s.barriers, Edge::South);
}

// Tests 1 to 5, then 8, of a state, a potential vorticity and three destinations, by their lengths: those of the tendency call, and of the
// probe of a grid. It rules out, for instance: 8 told before 4; the third destination untested.
#[tactic(auto, unfolding(model::specs::Promises::tendencies_test))]
pub fn test_tendencies(s: &Lent, q: &[i64], dh: usize, du: usize, dv: usize) -> Result<(), Refusal>
    ensures { result ≡ answer_of (tendencies_test (lent_state s.now) q.now dh du dv) }
{
    tests::test_vorticity(s, q)?;
    tests::test_rooms(s.p.w * s.p.n, dh, du, dv)
}

// The tendencies of a state with a lent potential vorticity q: -D, Tu and Tv, into the first w·n places of dh, du and dv.
// Refusals: 1, 2, 3, 4, 5, 8. It rules out, for instance: β's share from the edge's own cell; 8 told before 4; always refusing.
pub fn tendencies(
    s: &Lent,
    q: &[i64],
    dh: &mut [i64],
    du: &mut [i64],
    dv: &mut [i64],
) -> Result<(), Refusal>
    ensures { TendenciesPromise (lent_state s.now) q.now dh.old du.old
        dv.old result dh.new du.new dv.new }
{
    test_tendencies(s, q, dh.len(), du.len(), dv.len())?;
    fill_tendencies(s, q, dh, du, dv);
    Ok(())
}
