// The scheme of Arakawa and Lamb (1981) at a cell, in whole numbers: potential vorticity, weights, fluxes, Bernoulli function,
// tendencies; and what a pass makes of them, flows and velocities.
//
// A tendency sums what the two cells beside an edge give to it. So a cell is worked out once: its weights, fluxes and Bernoulli value
// give a share to each of its four edges, and whoever fills a field hands on those of the cell to the west and of the cell to the
// south. A cell where a row or a column ends is worked out once more, for the cell where it begins, if the edge between them is open.
// The functions here serve the calls of the crates above, and require what those have tested.
//
// `corners_at`, `weights_of`, `flux_at`, `convergence`, `bernoulli_at`, `edge_tendency` and `from_south` have namesakes in `scheme_probe`. They are
// not generic over the numbers: whole numbers are proved to fit here, and doubles round in a given order there, so that the two would share neither
// a contract nor a proof. Three share no sum, and differ in what they make: `corners_at` whole numbers here and doubles there, `edge_tendency` the
// sum of two shares here and one number there, `from_south` one share here and a row of products there.
//
// A function asks of a slice what it reads there (`ReadsAt`), and of G, c or R that it is within its limits where it enters, and no more: a caller
// has these of the whole field and of the parameters, and a type of each would be made anew at each read.
#![tactic(auto)]

ghost use Rattle.std.specs.Prelude.{◌≡◌, true, false, cond, List, [], ◌*◌, ◌≤◌, ◌<◌, eqb, length, get_or};
ghost use Rattle.std.specs.Prelude.{ℤ, pos, neg_ℤ, ◌+ℤ◌, ◌-ℤ◌, ◌*ℤ◌, ◌≤ℤ◌};
ghost use Rattle.model.specs.Numbers.{rnd, bernoulli_scale, tendency_scale, vorticity_scale};
ghost use Rattle.model.specs.Numbers.{Within, gravity_limits, coriolis_limits, ratio_limits, depth_limits, bottom_limits, velocity_limits};
ghost use Rattle.model.specs.Grid.{filled};
ghost use Rattle.model.specs.State.{FieldWithin, state_of, lent_state, with_flow, corner_columns, corner_rows, corners};
ghost use Rattle.model.specs.Weights.{weight_at};
ghost use Rattle.model.specs.Scheme.{vorticity_at, vorticity};
ghost use Rattle.model.specs.Step.{X, Y};
ghost use Rattle.integers.specs.Bounds.{Abs};
ghost use Rattle.grid.specs.Corners.{Corner, on_a_wall};
ghost use Rattle.grid.specs.WritingLoops.{RowWriting};
ghost use Rattle.scheme.specs.Ready.{ReadsAt, VorticityReady, FlowReady, Flow, TendenciesReady, walled};
ghost use Rattle.scheme.specs.Shares.{most_flux, most_bernoulli, most_share, most_tendency, weighted_by, CornersWithin, squares_at, flux_at};
ghost use Rattle.scheme.specs.Shares.{geopotential_at, west_share, east_share, south_share, north_share, Fit, IsShares, AreShares};
ghost use Rattle.scheme.specs.Shares.{AreTendencies};
ghost use Rattle.scheme.specs.Handing.{FromWest, FromSouth, HandedNorth};

use grid::{Corners, Edge, Stencil};
use model::Lent;

// The scales of the model (Numbers.antt): of Tu and Tv, of the Bernoulli function in them, and of potential vorticity.
const TENDENCY_SCALE: i64 = 3145728;

const BERNOULLI_SCALE: i64 = 786432;

const VORTICITY_SCALE: i64 = 262144;

// ---- potential vorticity

// The depth of the four cells around a corner: 01's H. On a wall a cell inside comes more than once.
fn depth_around(h: &[i64], a: Corners<usize>) -> i64
    requires { ReadsAt depth_limits h.now a.ne
        × ReadsAt depth_limits h.now a.nw
        × ReadsAt depth_limits h.now a.se
        × ReadsAt depth_limits h.now a.sw }
    ensures { let depth = h.now in
        result ≡ get_or depth a.ne (pos 0) +ℤ get_or depth a.nw (pos 0) +ℤ get_or depth a.se (pos 0) +ℤ get_or depth a.sw (pos 0) }
{
    let Corners { ne, nw, sw, se } = a;
    h[ne] + h[nw] + h[se] + h[sw]
}

// The absolute vorticity at a corner, times spacing: 01's Z. On a wall it is c.
fn absolute_vorticity(wall: bool, c: i64, u: &[i64], v: &[i64], a: Corners<usize>) -> i64
    requires { Within coriolis_limits c
        × ReadsAt velocity_limits v.now a.ne
        × ReadsAt velocity_limits v.now a.nw
        × ReadsAt velocity_limits u.now a.se
        × ReadsAt velocity_limits u.now a.ne }
    ensures { let west = u.now in
        let south = v.now in
        result ≡ cond wall c
        (c +ℤ get_or south a.ne (pos 0) -ℤ get_or south a.nw (pos 0) +ℤ get_or west a.se (pos 0) -ℤ get_or west a.ne (pos 0)) }
{
    if wall {
        return c;
    }
    let Corners { ne, nw, se, .. } = a;
    c + v[ne] - v[nw] + u[se] - u[ne]
}

// Potential vorticity from these two: 01's q.
fn vorticity_of(z: i64, depth: i64) -> i64
    requires { Abs z 30000 × Abs depth 400000 × (pos 1 ≤ℤ depth) }
    ensures { result ≡ rnd (vorticity_scale *ℤ z) depth }
{
    integers::rnd(VORTICITY_SCALE * z, depth)
}

// The potential vorticity at corner (x, y). `VorticityReady` is asked here and in the two loops, and is no fact of `Lent`, which is whatever a
// caller lends. Nothing is asked of the bottom and of the barriers, which do not enter. It rules out, for
// instance: a depth across a wall; velocities at a wall; the difference of v taken backwards.
fn vorticity_at(s: &Lent, x: usize, y: usize) -> i64
    requires { VorticityReady (lent_state s.now) × Corner s.now.p.kind s.now.p.w s.now.p.n x y }
    ensures { result ≡ vorticity_at (lent_state s.now) x y }
{
    let a = grid::cells_around(s.p, x, y);
    let wall = grid::is_on_wall(s.p, x, y);
    let z = absolute_vorticity(wall, s.p.c, s.u, s.v, a);
    let depth = depth_around(s.h, a);
    vorticity_of(z, depth)
}

// The same at a corner on a wall, where velocities do not enter. (`vorticity_at` would ask for the wall again, which the caller knows.)
fn wall_vorticity_at(s: &Lent, x: usize, y: usize) -> i64
    requires { let p = s.now.p in
        Corner p.kind p.w p.n x y
        × (on_a_wall p.kind p.w p.n x y ≡ true)
        × Within coriolis_limits p.c
        × FieldWithin depth_limits (p.w * p.n) s.now.h.now }
    ensures { (u v : List ℤ) → result ≡ vorticity_at (with_flow (lent_state s.now) s.now.h.now u v) x y }
{
    let a = grid::cells_around(s.p, x, y);
    let depth = depth_around(s.h, a);
    vorticity_of(s.p.c, depth)
}

// The potential vorticity of corner row y. Where rows end at walls, the last corner is worked out after the loop, so that no turn of the loop
// asks for the wall in the east. By x, which is an argument of `vorticity_at`: `iter_mut` and `enumerate` over the row would name it too.
fn vorticity_row(s: &Lent, y: usize, d: &mut [i64])
    requires { let t = lent_state s.now in
        VorticityReady t
        × (y < corner_rows t)
        × (corners t ≤ length d.old) }
    ensures { let t = lent_state s.now in
        RowWriting (corner_columns t) (corner_rows t) (vorticity_at t) 0 y d.old (corner_columns t) d.new }
{
    let columns = grid::corner_columns(s.p);
    for x in 0..s.p.w {
        let k = y * columns + x;
        d[k] = vorticity_at(s, x, y);
    }
    if s.p.w < columns {
        let last = y * columns + s.p.w;
        d[last] = wall_vorticity_at(s, s.p.w, y);
    }
}

// Fills the first places of d with the potential vorticity at every corner. The potential vorticity call and a pass share this loop. It rules
// out, for instance: the corners of row n left out; corner (y, x) for (x, y). (Loops over rows in the crates above lend other slices to another
// step: one loop for all would take that as a closure, in no fewer words.)
pub fn fill_vorticity(s: &Lent, d: &mut [i64])
    requires { VorticityReady (lent_state s.now) × (corners (lent_state s.now) ≤ length d.old) }
    ensures { let t = lent_state s.now in
        d.new ≡ filled (corners t) (vorticity t) d.old }
{
    // copied first: read through the reference, the compiler loads it again at each corner, a third as long again
    let s = *s;
    let rows = grid::corner_rows(s.p);
    for y in 0..rows {
        vorticity_row(&s, y, d);
    }
}

// ---- weights

// 01's corner weights, which are the paper's times 24: rows P, M, E, F over a cell's corners ne, nw, sw, se. The table and `weight_at`, by the
// model's numbers of rows and corners, stay as 01 asks for them, since they are the measure (DECISIONS, 73).
const WEIGHTS: [[i64; 4]; 4] = [[2, 1, 2, 1], [1, 2, 1, 2], [1, 1, -1, -1], [-1, 1, 1, -1]];

// The weight of a row at a corner: the model's table. It rules out, for instance: P and M swapped; E without its signs.
fn weight_at(row: usize, corner: usize) -> i64
    requires { (row < 4) × (corner < 4) }
    ensures { result ≡ weight_at row corner }
{
    WEIGHTS[row][corner]
}

// A potential vorticity at the corners of a cell, by their indices.
fn corners_at(q: &[i64], k: Corners<usize>) -> Corners<i64>
    requires { (k.ne < length q.now)
        × (k.nw < length q.now)
        × (k.sw < length q.now)
        × (k.se < length q.now) }
    ensures { (result.ne ≡ get_or q.now k.ne (pos 0))
        × (result.nw ≡ get_or q.now k.nw (pos 0))
        × (result.sw ≡ get_or q.now k.sw (pos 0))
        × (result.se ≡ get_or q.now k.se (pos 0)) }
{
    let Corners { ne, nw, sw, se } = k;
    Corners {
        ne: q[ne],
        nw: q[nw],
        sw: q[sw],
        se: q[se],
    }
}

// A row's weights over the corners. No tendency calls it: it is 01's table as the measure of `weights_of`, whose contract says that each
// sum of corners is such a row. `CornersWithin` is no fact of `Corners`, which has indices too. It rules out, for instance: a corner left out;
// the weights of another row.
pub fn weighted(row: usize, c: Corners<i64>) -> i64
    requires { (row < 4) × CornersWithin c }
    ensures { result ≡ weighted_by row c }
{
    let ne = weight_at(row, 0);
    let nw = weight_at(row, 1);
    let sw = weight_at(row, 2);
    let se = weight_at(row, 3);
    ne * c.ne + nw * c.nw + sw * c.sw + se * c.se
}

// 01's P, M, E and F of a cell.
#[derive(Clone, Copy)]
pub struct Weights<T> {
    pub p: T,
    pub m: T,
    pub e: T,
    pub f: T,
}

// As sums of corners (02, U4): P is all four and ne and sw, M all four and nw and se, E north less south, F west less east. It rules out,
// for instance: nw for sw in P; E or F turned.
fn weights_of(c: Corners<i64>) -> Weights<i64>
    requires { CornersWithin c }
    ensures { (result.p ≡ weighted_by 0 c)
        × (result.m ≡ weighted_by 1 c)
        × (result.e ≡ weighted_by 2 c)
        × (result.f ≡ weighted_by 3 c) }
{
    let Corners { ne, nw, sw, se } = c;
    let all = ne + nw + sw + se;
    Weights {
        p: all + ne + sw,
        m: all + nw + se,
        e: (ne + nw) - (sw + se),
        f: (nw + sw) - (ne + se),
    }
}

// ---- fluxes

// The mass flux through an edge, from the velocity x there and the depths of the cells k and l beside it. No struct of these four: each call
// would build it to have it taken apart at once.
fn flux_at(x: &[i64], h: &[i64], k: usize, l: usize) -> i64
    requires { ReadsAt velocity_limits x.now k
        × ReadsAt depth_limits h.now l
        × ReadsAt depth_limits h.now k }
    ensures { result ≡ flux_at x.now h.now k l }
{
    x[k] * (h[l] + h[k])
}

// The mass fluxes through the four edges of a cell: 01's U and V, here and at the next cell.
#[derive(Clone, Copy)]
pub struct Fluxes {
    pub west: i64,
    pub east: i64,
    pub south: i64,
    pub north: i64,
}

// The functions that read around a cell do not go by w and n: the cells are counted by the length of h.
fn fluxes_at(s: &Lent, a: Stencil) -> Fluxes
    requires { Flow (length s.now.h.now) (lent_state s.now) a }
    ensures { let t = lent_state s.now in
        (result.west ≡ flux_at t.u t.h a.here a.west)
        × (result.east ≡ flux_at t.u t.h a.east a.here)
        × (result.south ≡ flux_at t.v t.h a.here a.south)
        × (result.north ≡ flux_at t.v t.h a.north a.here) }
{
    Fluxes {
        west: flux_at(s.u, s.h, a.here, a.west),
        east: flux_at(s.u, s.h, a.east, a.here),
        south: flux_at(s.v, s.h, a.here, a.south),
        north: flux_at(s.v, s.h, a.north, a.here),
    }
}

// What flows into a cell: 01's -D.
fn convergence(f: Fluxes) -> i64
    requires { Abs f.west most_flux
        × Abs f.east most_flux
        × Abs f.south most_flux
        × Abs f.north most_flux }
    ensures { result ≡ neg_ℤ (f.east -ℤ f.west +ℤ f.north -ℤ f.south) }
{
    -(f.east - f.west + f.north - f.south)
}

// ---- Bernoulli function

// The squares of the velocities at two opposite edges of a cell.
fn squares(x: &[i64], k: usize, l: usize) -> i64
    requires { ReadsAt velocity_limits x.now k × ReadsAt velocity_limits x.now l }
    ensures { result ≡ squares_at x.now k l }
{
    let one = x[k];
    let other = x[l];
    one * one + other * other
}

// Gravity times the level of a cell, times 4: the second part of 01's B.
fn geopotential(g: i64, h: &[i64], b: &[i64], k: usize) -> i64
    requires { Within gravity_limits g × ReadsAt depth_limits h.now k × ReadsAt bottom_limits b.now k }
    ensures { result ≡ geopotential_at g h.now b.now k }
{
    4 * g * (h[k] + b[k])
}

// 01's B of a cell.
fn bernoulli_at(s: &Lent, a: Stencil) -> i64
    requires { let t = lent_state s.now in
        Within gravity_limits t.G
        × Flow (length t.h) t a
        × FieldWithin bottom_limits (length t.h) t.b }
    ensures { let t = lent_state s.now in
        result ≡ squares_at t.u a.here a.east +ℤ squares_at t.v a.here a.north +ℤ geopotential_at t.G t.h t.b a.here }
{
    squares(s.u, a.here, a.east)
        + squares(s.v, a.here, a.north)
        + geopotential(s.p.g, s.h, s.b, a.here)
}

// ---- shares

// What the shares of a cell are made of: its weights, its fluxes, and `head`, its Bernoulli value, scaled as the tendencies are. They are
// small enough that the shares fit.
#[derive(Clone, Copy)]
struct Factors {
    weights: Weights<i64>,
    fluxes: Fluxes,
    head: i64,
    ghost fit: { Fit weights fluxes head },
}

// What the cell gives to the tendency of each of its edges.
impl Factors {
    fn west_share(self) -> i64
        ensures { result ≡ west_share self.weights self.fluxes self.head }
    {
        let Factors {
            weights: w,
            fluxes: f,
            head,
        } = self;
        w.p * f.north + w.m * f.south - w.e * f.east - head
    }

    fn east_share(self) -> i64
        ensures { result ≡ east_share self.weights self.fluxes self.head }
    {
        let Factors {
            weights: w,
            fluxes: f,
            head,
        } = self;
        w.m * f.north + w.p * f.south + w.e * f.west + head
    }

    fn south_share(self) -> i64
        ensures { result ≡ south_share self.weights self.fluxes self.head }
    {
        let Factors {
            weights: w,
            fluxes: f,
            head,
        } = self;
        -(w.p * f.east) - w.m * f.west - w.f * f.north - head
    }

    fn north_share(self) -> i64
        ensures { result ≡ north_share self.weights self.fluxes self.head }
    {
        let Factors {
            weights: w,
            fluxes: f,
            head,
        } = self;
        -(w.p * f.west) - w.m * f.east + w.f * f.south + head
    }
}

// A cell's depth tendency (01: -D), and its shares.
#[derive(Clone, Copy)]
pub struct Shares {
    pub depth: i64,
    pub west: i64,
    pub east: i64,
    pub south: i64,
    pub north: i64,
}

fn shares_of(w: Weights<i64>, f: Fluxes, bernoulli: i64) -> Shares
    requires { Fit w f (bernoulli_scale *ℤ bernoulli) × Abs bernoulli most_bernoulli }
    ensures { AreShares w f (bernoulli_scale *ℤ bernoulli) result }
{
    let cell = Factors {
        weights: w,
        fluxes: f,
        head: BERNOULLI_SCALE * bernoulli,
    };
    Shares {
        depth: convergence(f),
        west: cell.west_share(),
        east: cell.east_share(),
        south: cell.south_share(),
        north: cell.north_share(),
    }
}

// The same of cell (i, j). `TendenciesReady` of s and q stands here and in the contracts below, and in no struct of the two: the bounds of i and j,
// which are arguments beside it, would stay in each of them. It rules out, for instance: two corners swapped; a flux with one depth twice. Besides,
// it is of a state without its barriers here, and of the whole state in `scheme_probe`: it would be two structs.
pub fn shares_at(s: &Lent, q: &[i64], i: usize, j: usize) -> Shares
    requires { TendenciesReady (walled s.now) q.now × (i < s.now.p.w) × (j < s.now.p.n) }
    ensures { IsShares (walled s.now) q.now i j result }
{
    let a = grid::around(s.p, i, j);
    let k = grid::cell_corners(s.p, i, j);
    let weights = weights_of(corners_at(q, k));
    let fluxes = fluxes_at(s, a);
    let bernoulli = bernoulli_at(s, a);
    shares_of(weights, fluxes, bernoulli)
}

// The tendency at an edge, from the shares of the cells beside it; on a closed edge it is 0, and nothing is asked of the other share. (No `Option`
// of that share in place of `closed`: the caller would make it, to have it taken apart here.)
fn edge_tendency(closed: bool, own: i64, other: i64) -> i64
    requires { Abs own most_share × (closed ≡ false → Abs other most_share) }
    ensures { result ≡ cond closed (pos 0) (own +ℤ other) }
{
    if closed { 0 } else { own + other }
}

// The share of the cell beyond an edge: on a side of one place that is the cell itself, and nothing was handed on.
fn other_share(side: usize, own: i64, handed: i64) -> i64
    ensures { result ≡ cond (eqb side 1) own handed }
{
    if side == 1 { own } else { handed }
}

// ---- tendencies

// The tendencies that a cell holds: of its depth (01: -D), at its west edge (Tu) and at its south edge (Tv). And what it hands on: its
// shares for the cell to the east and for the cell to the north.
#[derive(Clone, Copy)]
pub struct CellTendencies {
    pub depth: i64,
    pub u: i64,
    pub v: i64,
    pub east: i64,
    pub north: i64,
}

// The tendencies of cell (i, j), from what the cells to its west and south have handed on, as far as it needs that. Walls close edges here,
// and barriers do not: whoever fills a field puts 0 on the edges that barriers close (`grid::clear_barred`), so that the loop over all cells
// has no test of a byte in it. It rules out, for instance: the mask forgotten; the edge's own share twice.
pub fn tendencies_at(
    s: &Lent,
    q: &[i64],
    i: usize,
    j: usize,
    west: i64,
    south: i64,
) -> CellTendencies
    requires { let t = walled s.now in
        TendenciesReady t q.now
        × (i < t.w)
        × (j < t.n)
        × FromWest t q.now i j west
        × FromSouth t q.now i j south }
    ensures { AreTendencies (walled s.now) q.now i j result }
{
    let wall_west = grid::is_walled(s.p, Edge::West, i);
    let wall_south = grid::is_walled(s.p, Edge::South, j);
    let own = shares_at(s, q, i, j);
    let from_west = other_share(s.p.w, own.east, west);
    let from_south = other_share(s.p.n, own.north, south);
    CellTendencies {
        depth: own.depth,
        u: edge_tendency(wall_west, own.west, from_west),
        v: edge_tendency(wall_south, own.south, from_south),
        east: own.east,
        north: own.north,
    }
}

// What cell (i, j) needs of the cell to its west, and of the cell to its south, for a loop that begins with it. That cell is worked out
// only where its share is used; elsewhere they answer 0, which nobody reads, and no Option, of which each cell of the loop would ask once more
// what it knows by its edge. They are two, as `FromWest` and `FromSouth` are: over `Edge` each arm would be one of them whole. They rule out, for
// instance: the share for another edge; nothing handed through an open edge.
pub fn from_west(s: &Lent, q: &[i64], i: usize, j: usize) -> i64
    requires { TendenciesReady (walled s.now) q.now × (i < s.now.p.w) × (j < s.now.p.n) }
    ensures { FromWest (walled s.now) q.now i j result }
{
    if s.p.w == 1 || grid::is_walled(s.p, Edge::West, i) {
        return 0;
    }
    let west = grid::previous(s.p.w, i);
    let beyond = shares_at(s, q, west, j);
    beyond.east
}

pub fn from_south(s: &Lent, q: &[i64], i: usize, j: usize) -> i64
    requires { TendenciesReady (walled s.now) q.now × (i < s.now.p.w) × (j < s.now.p.n) }
    ensures { FromSouth (walled s.now) q.now i j result }
{
    if s.p.n == 1 || grid::is_walled(s.p, Edge::South, j) {
        return 0;
    }
    let south = grid::previous(s.p.n, j);
    let beyond = shares_at(s, q, i, south);
    beyond.north
}

// What row 0 needs of the row to its south, which is the last one: no row of the loop comes before it. It rules out, for instance: what
// row 0 itself gives; the shares for the east. By i, which is the column that is asked for: `iter_mut` and `enumerate` over the first w places
// would name it too.
pub fn hand_north(s: &Lent, q: &[i64], handed: &mut [i64])
    requires { TendenciesReady (walled s.now) q.now × (s.now.p.w ≤ length handed.old) }
    ensures { HandedNorth (walled s.now) q.now 0 handed.new }
{
    for i in 0..s.p.w {
        handed[i] = from_south(s, q, i, 0);
    }
}

// ---- flows

// The flow through an edge over the time step, rounded, from the velocity x there and the depths of the cells k and l beside it. (No struct of
// these, as for `flux_at`.)
fn flow_at(r: i64, x: &[i64], h: &[i64], k: usize, l: usize) -> i64
    requires { Within ratio_limits r
        × ReadsAt velocity_limits x.now k
        × ReadsAt depth_limits h.now l
        × ReadsAt depth_limits h.now k }
    ensures { result ≡ rnd (flux_at x.now h.now k l) (pos 2 *ℤ r) }
{
    integers::rnd(flux_at(x, h, k, l), 2 * r)
}

// The flows through a cell's west and south edge: 01's X and Y.
#[derive(Clone, Copy)]
pub struct CellFlows {
    pub x: i64,
    pub y: i64,
}

// The flows of cell (i, j). Nothing is asked of the bottom and of the barriers, which do not enter. It rules out, for instance: the
// depth of one cell twice; the flow from the north for the one from the south.
pub fn flows_at(s: &Lent, i: usize, j: usize) -> CellFlows
    requires { FlowReady (lent_state s.now) × (i < s.now.p.w) × (j < s.now.p.n) }
    ensures { (result.x ≡ X (lent_state s.now) i j) × (result.y ≡ Y (lent_state s.now) i j) }
{
    let a = grid::around(s.p, i, j);
    CellFlows {
        x: flow_at(s.p.r, s.u, s.h, a.here, a.west),
        y: flow_at(s.p.r, s.v, s.h, a.here, a.south),
    }
}

// ---- velocities

// A velocity after a pass: moved by a tendency there, over the time step. It rules out, for instance: divided by 2R as the flows are;
// the tendency subtracted.
pub fn moved_velocity(x: i64, t: i64, r: i64) -> i64
    requires { Within velocity_limits x × Abs t most_tendency × Within ratio_limits r }
    ensures { result ≡ x +ℤ rnd t (tendency_scale *ℤ r) }
{
    x + integers::rnd(t, TENDENCY_SCALE * r)
}
