// The probes (02, U3): -D, Tu and Tv in double precision, of a cell or of a grid, and whether they are exact or near.
//
// Each operation is rounded once, in the order of 01's formulas: products first, sums from left to right. So nothing here goes by shares,
// as the whole numbers of `scheme` do: shares are another grouping, and would give other doubles.
//
// `corners_at`, `weights_of`, `flux_at`, `convergence`, `bernoulli_at`, `edge_tendency` and `from_south` have twins of whole numbers in `scheme`.
// Doubles round, in a given order, and whole numbers are proved to fit: one generic function would have to say of each sum that it fits there and
// what it rounds to here, so it would be no plainer than both. Three share no sum: what they make differs, as `scheme` says.
#![tactic(auto)]

ghost use Rattle.std.specs.Prelude.{◌≡◌, cond, List, ◌*◌, ◌<◌, ℤ, pos, length, get_or};
ghost use Rattle.model.specs.Numbers.{Within, gravity_limits};
ghost use Rattle.model.specs.Grid.{filled};
ghost use Rattle.model.specs.State.{cells, lent_state};
ghost use Rattle.model.specs.Refusals.{value_tests};
ghost use Rattle.model.specs.declared.Refusal.TheVariants.{Value};
ghost use Rattle.tests.specs.Links.{answers};
ghost use Rattle.model.specs.Doubles.{narrow_fields, double, tendency_h, tendency_u, tendency_v, h_doubles, u_doubles, v_doubles, narrow};
ghost use Rattle.model.specs.Promises.{answer_of, precision_of, probe_test, ProbePromise, ProbeGridPromise};
ghost use Rattle.grid.specs.Corners.{Below4};
ghost use Rattle.scheme.specs.Ready.{TendenciesReady};
ghost use Rattle.scheme_tendencies.specs.CallLaws.{Room};
ghost use Rattle.scheme_probe.specs.Held.{HoldsAt, Holds};
ghost use Rattle.scheme_probe.specs.Cells.{Ready, CornersWithin, weighted_by, flux_at, bernoulli_at, IsCell};
ghost use Rattle.scheme_probe.specs.Cells.{Gives, AreCells, AreDoubles, convergence_of, momentum_u, momentum_v};
ghost use Rattle.scheme_probe.specs.Rows.{RowFromSouth};

use grid::{Corners, Edge, Stencil};
use model::{Field, Lent, Precision, ProbeAnswer, Refusal};
use scheme::Weights;

// ---- a cell

// A field's number at an index, as a double: it is held whole. (`HoldsAt` is asked where a number is read, as `ReadsAt` in `scheme`.)
fn double_at(f: &[i64], k: usize) -> f64
    requires { HoldsAt f.now k }
    ensures { result ≡ double (get_or f.now k (pos 0)) }
{
    f[k] as f64
}

// A potential vorticity at the corners of a cell, by their indices.
fn corners_at(q: &[i64], k: Corners<usize>) -> Corners<f64>
    requires { Holds (length q.now) q.now × Below4 (length q.now) k }
    ensures { (result.ne ≡ double (get_or q.now k.ne (pos 0)))
        × (result.nw ≡ double (get_or q.now k.nw (pos 0)))
        × (result.sw ≡ double (get_or q.now k.sw (pos 0)))
        × (result.se ≡ double (get_or q.now k.se (pos 0))) }
{
    Corners {
        ne: double_at(q, k.ne),
        nw: double_at(q, k.nw),
        sw: double_at(q, k.sw),
        se: double_at(q, k.se),
    }
}

// 01's P, M, E and F of a cell as sums of corners, as in `scheme::weights_of` (02, U4). Each is its row of 01's table, worked out in doubles,
// bit by bit: where corners are whole numbers within their bounds, a sum of them rounds nothing, and neither it nor a row is ever -0.0. It
// rules out, for instance: F turned; P and M swapped.
fn weights_of(c: Corners<f64>) -> Weights<f64>
    requires { CornersWithin c }
    ensures { (result.p ≡ weighted_by 0 c)
        × (result.m ≡ weighted_by 1 c)
        × (result.e ≡ weighted_by 2 c)
        × (result.f ≡ weighted_by 3 c) }
{
    let Corners { ne, nw, sw, se } = c;
    let all = ne + nw + sw + se;
    Weights {
        p: all + ne + sw,
        m: all + nw + se,
        e: (ne + nw) - (sw + se),
        f: (nw + sw) - (ne + se),
    }
}

// The mass flux through an edge, from the velocity x there and the depths of the cells k and l beside it. (No struct of these, as for
// `scheme::flux_at`.)
fn flux_at(x: &[i64], h: &[i64], k: usize, l: usize) -> f64
    requires { HoldsAt x.now k × HoldsAt h.now l × HoldsAt h.now k }
    ensures { result ≡ flux_at x.now h.now k l }
{
    double_at(x, k) * (double_at(h, l) + double_at(h, k))
}

// 01's B of a cell.
fn bernoulli_at(s: &Lent, a: Stencil) -> f64
    requires { let t = lent_state s.now in
        Within gravity_limits t.G
        × HoldsAt t.h a.here
        × HoldsAt t.b a.here
        × HoldsAt t.u a.here
        × HoldsAt t.u a.east
        × HoldsAt t.v a.here
        × HoldsAt t.v a.north }
    ensures { result ≡ bernoulli_at (lent_state s.now) a.here a.east a.north }
{
    let west = double_at(s.u, a.here);
    let east = double_at(s.u, a.east);
    let south = double_at(s.v, a.here);
    let north = double_at(s.v, a.north);
    let level = double_at(s.h, a.here) + double_at(s.b, a.here);
    west * west + east * east + south * south + north * north + 4.0 * s.p.g as f64 * level
}

// What a cell has in the tendencies of its edges: 01's P, M, E and F, its mass fluxes through its four edges, and B. (Four fluxes of its own and no
// generic `scheme::Fluxes`: the formulas below read `own.north`, which is shorter than `own.fluxes.north`.)
#[derive(Clone, Copy)]
pub struct Cell {
    pub weights: Weights<f64>,
    pub west: f64,
    pub east: f64,
    pub south: f64,
    pub north: f64,
    pub bernoulli: f64,
}

// That of cell (i, j). (What is asked of s, q, i and j stands in each contract of this crate, for the reason at `scheme::shares_at`.)
fn cell_at(s: &Lent, q: &[i64], i: usize, j: usize) -> Cell
    requires { TendenciesReady (lent_state s.now) q.now × (i < s.now.p.w) × (j < s.now.p.n) }
    ensures { IsCell (lent_state s.now) q.now i j result }
{
    let a = grid::around(s.p, i, j);
    let k = grid::cell_corners(s.p, i, j);
    Cell {
        weights: weights_of(corners_at(q, k)),
        west: flux_at(s.u, s.h, a.here, a.west),
        east: flux_at(s.u, s.h, a.east, a.here),
        south: flux_at(s.v, s.h, a.here, a.south),
        north: flux_at(s.v, s.h, a.north, a.here),
        bernoulli: bernoulli_at(s, a),
    }
}

// What a cell has in Tv at its north edge: its products with P, M and F, and B. A product rounds once, so that it is the same double
// wherever it is worked out.
#[derive(Clone, Copy)]
pub struct Given {
    pub p: f64,
    pub m: f64,
    pub f: f64,
    pub bernoulli: f64,
}

fn to_north(own: Cell) -> Given
    ensures { Gives own result }
{
    Given {
        p: own.weights.p * own.west,
        m: own.weights.m * own.east,
        f: own.weights.f * own.south,
        bernoulli: own.bernoulli,
    }
}

// ---- tendencies

// 01's -D: the negation of the sum, so that still water gives -0.0.
fn convergence(own: Cell) -> f64
    ensures { result ≡ convergence_of own }
{
    -(own.east - own.west + own.north - own.south)
}

// 01's Tu at a cell's west edge, and Tv at its south edge, from the cell and what is beyond that edge. They rule out, for instance: a
// product of the other cell's weight; two terms swapped, which rounds differently.
#[tactic(auto, using(crate::specs::Held::scale))]
fn momentum_u(own: Cell, west: Cell) -> f64
    ensures { result ≡ momentum_u own west }
{
    own.weights.p * own.north
        + west.weights.m * west.north
        + west.weights.p * west.south
        + own.weights.m * own.south
        - own.weights.e * own.east
        + west.weights.e * west.west
        - 786432.0 * (own.bernoulli - west.bernoulli)
}

#[tactic(auto, using(crate::specs::Held::scale))]
fn momentum_v(own: Cell, south: Given) -> f64
    ensures { result ≡ momentum_v own south }
{
    -(own.weights.p * own.east)
        - own.weights.m * own.west
        - south.p
        - south.m
        - own.weights.f * own.north
        + south.f
        - 786432.0 * (own.bernoulli - south.bernoulli)
}

// The tendency at an edge: on a closed one it is +0.0.
#[tactic(auto, using(crate::specs::Held::none))]
fn edge_tendency(closed: bool, t: f64) -> f64
    ensures { result ≡ cond closed (double (pos 0)) t }
{
    if closed { 0.0 } else { t }
}

// A cell's three doubles.
#[derive(Clone, Copy)]
pub struct Doubles {
    pub h: f64,
    pub u: f64,
    pub v: f64,
}

// Those of cell (i, j) of a state, from the cell, the one to its west and what the one to its south gives.
fn doubles_of(s: &Lent, i: usize, j: usize, own: Cell, west: Cell, south: Given) -> Doubles
    requires { let t = lent_state s.now in
        (length t.barriers ≡ cells t) × (i < t.w) × (j < t.n) }
    ensures { let t = lent_state s.now in
        (q : List ℤ) → AreCells t q i j own west south → AreDoubles t q i j result }
{
    let barrier = s.barriers[j * s.p.w + i];
    let closed_west = grid::is_closed(s.p, barrier, Edge::West, i, j);
    let closed_south = grid::is_closed(s.p, barrier, Edge::South, i, j);
    Doubles {
        h: convergence(own),
        u: edge_tendency(closed_west, momentum_u(own, west)),
        v: edge_tendency(closed_south, momentum_v(own, south)),
    }
}

// Those of cell (i, j) of a state.
fn doubles_at(s: &Lent, q: &[i64], i: usize, j: usize) -> Doubles
    requires { Ready (lent_state s.now) q.now × (i < s.now.p.w) × (j < s.now.p.n) }
    ensures { AreDoubles (lent_state s.now) q.now i j result }
{
    let own = cell_at(s, q, i, j);
    let west = cell_at(s, q, grid::previous(s.p.w, i), j);
    let south = to_north(cell_at(s, q, i, grid::previous(s.p.n, j)));
    doubles_of(s, i, j, own, west, south)
}

// What row j needs of the row to its south, in the first w places: a row has 64 cells at most, and there is no heap. Nothing is needed through a
// wall. So the row has zeros there, which nobody reads, and is no `Option`, of which each cell would ask what it knows by its edge.
fn from_south(s: &Lent, q: &[i64], j: usize) -> [Given; 64]
    requires { TendenciesReady (lent_state s.now) q.now × (j < s.now.p.n) }
    ensures { RowFromSouth (lent_state s.now) q.now j result }
{
    let nothing = Given {
        p: 0.0,
        m: 0.0,
        f: 0.0,
        bernoulli: 0.0,
    };
    let mut row = [nothing; 64];
    if grid::is_walled(s.p, Edge::South, j) {
        return row;
    }
    let south = grid::previous(s.p.n, j);
    for (i, given) in row[..s.p.w].iter_mut().enumerate() {
        *given = to_north(cell_at(s, q, i, south));
    }
    row
}

// Fills the first w·n places of dh with -D, of du with Tu and of dv with Tv. Each cell is handed on to the east, and what it gives to the north;
// only the last column and, where the grid wraps, the last row are worked out once more, for column 0 and row 0. By index: i and j are a cell's
// coordinates, which `cell_at` takes, and k is its index in three slices; iterators over all of them would be no plainer. (The three go on one by
// one, as in `scheme_tendencies`.)
fn fill(s: &Lent, q: &[i64], dh: &mut [f64], du: &mut [f64], dv: &mut [f64])
    requires { let t = lent_state s.now in
        Ready t q.now
        × Room (cells t) dh.old du.old dv.old }
    ensures { let t = lent_state s.now in
        let q₀ = q.now in
        (dh.new ≡ filled (cells t) (h_doubles t) dh.old)
        × (du.new ≡ filled (cells t) (u_doubles t q₀) du.old)
        × (dv.new ≡ filled (cells t) (v_doubles t q₀) dv.old) }
{
    let mut below = from_south(s, q, 0);
    for j in 0..s.p.n {
        let mut west = cell_at(s, q, grid::previous(s.p.w, 0), j);
        for i in 0..s.p.w {
            let own = cell_at(s, q, i, j);
            let south = below[i];
            below[i] = to_north(own);
            let d = doubles_of(s, i, j, own, west, south);
            let k = j * s.p.w + i;
            dh[k] = d.h;
            du[k] = d.u;
            dv[k] = d.v;
            west = own;
        }
    }
}

// ---- narrow

// The tests of h, b, u, v and q by 02's narrow bounds. The walks of `tests` and `record_tests` over fields ask something else of each, and of
// other fields: five lines say it as plainly as a walk that takes both.
fn test_narrow(s: &Lent, q: &[i64]) -> Result<(), Refusal>
    requires { TendenciesReady (lent_state s.now) q.now }
    ensures { result ≡ answers (value_tests Value (narrow_fields (lent_state s.now) q.now)) }
{
    tests::test_narrow(s.p, s.h, Field::Depth)?;
    tests::test_narrow(s.p, s.b, Field::Bottom)?;
    tests::test_narrow(s.p, s.u, Field::VelocityU)?;
    tests::test_narrow(s.p, s.v, Field::VelocityV)?;
    tests::test_narrow(s.p, q, Field::Vorticity)
}

// Exact where every h, b, u, v and q is within 02's narrow bounds. The barriers do not enter. It rules out, for instance: one of the five
// left out; one cell looked at.
fn precision_of(s: &Lent, q: &[i64]) -> Precision
    requires { TendenciesReady (lent_state s.now) q.now }
    ensures { result ≡ precision_of (narrow (lent_state s.now) q.now) }
{
    match test_narrow(s, q) {
        Ok(()) => Precision::Exact,
        Err(_) => Precision::Near,
    }
}

// ---- the calls

// Tests 1 to 5, then 10, of a probed cell. `scheme_tendencies::test_tendencies` has 8 of three rooms as its last: what both share is
// `tests::test_vorticity`. It rules out, for instance: 10 told before 5; the cell w·n taken.
#[tactic(auto, unfolding(model::specs::Promises::probe_test))]
fn test_probe(s: &Lent, q: &[i64], cell: usize) -> Result<(), Refusal>
    ensures { result ≡ answer_of (probe_test (lent_state s.now) q.now cell) }
{
    tests::test_vorticity(s, q)?;
    tests::test_cell(s.p.w * s.p.n, cell)
}

// The probe of a cell by its index: -D, Tu and Tv of a state with a lent potential vorticity q, as doubles. They are exact where the whole
// grid is narrow. Refusals: 1, 2, 3, 4, 5, 10. It rules out, for instance: narrow judged at the probed cell alone; the cell w·n accepted;
// 10 told before 5. It answers no `Result`, since 01 names the form of this answer: three cases of one enum.
pub fn probe(s: &Lent, q: &[i64], cell: usize) -> ProbeAnswer
    ensures { ProbePromise (lent_state s.now) q.now cell result }
{
    if let Err(refusal) = test_probe(s, q, cell) {
        return ProbeAnswer::Refused(refusal);
    }
    let d = doubles_at(s, q, cell % s.p.w, cell / s.p.w);
    match precision_of(s, q) {
        Precision::Exact => ProbeAnswer::Exact(d.h, d.u, d.v),
        Precision::Near => ProbeAnswer::Near(d.h, d.u, d.v),
    }
}

// The same of every cell, into the first w·n places of dh, du and dv. Refusals: 1, 2, 3, 4, 5, 8. It rules out, for instance: near told as
// exact; a closed edge's double that is not 0; 8 told before 4. Beside `scheme_tendencies::tendencies`, whose tests it makes, it fills with
// other numbers and answers their precision: one function for both would take the filling and the answer, and be no plainer.
pub fn probe_grid(
    s: &Lent,
    q: &[i64],
    dh: &mut [f64],
    du: &mut [f64],
    dv: &mut [f64],
) -> Result<Precision, Refusal>
    ensures { ProbeGridPromise (lent_state s.now) q.now dh.old du.old
        dv.old result dh.new du.new dv.new }
{
    scheme_tendencies::test_tendencies(s, q, dh.len(), du.len(), dv.len())?;
    fill(s, q, dh, du, dv);
    Ok(precision_of(s, q))
}
