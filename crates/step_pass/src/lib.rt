// A pass of the two-pass step: from a base state, with the tendencies of a given state, to a result. The given state and the base are lent
// to be read, the result's slices to be written. The potential vorticity of the given state, a number a corner, stands in a slice of its own.
#![tactic(auto)]

ghost use Rattle.std.specs.Prelude.{◌≡◌, ◌+◌, ◌*◌, ◌<◌, ◌≤◌, length};
ghost use Rattle.model.specs.Grid.{by_cell};
ghost use Rattle.model.specs.State.{cells, lent_state, with_flow};
ghost use Rattle.model.specs.Step;
ghost use Rattle.model.specs.Step.{X, Y, new_u, new_v};
ghost use Rattle.grid.specs.WritingLoops.{RowWriting};
ghost use Rattle.scheme.specs.Ready.{FlowReady, walled};
ghost use Rattle.scheme.specs.Handing.{HandedNorth};
ghost use Rattle.step_pass.specs.Spaces.{moving, depth_by, DepthReady, VelocityReady, PassReady};

use grid::Edge;
use model::{Lent, Parameters};
use scheme::{CellFlows, CellTendencies};

// The loops below go by rows and columns, as i and j are the coordinates from which the cells around are found. An iterator over the slices that
// are filled would have to count both beside it, and would be no plainer. That i and j are of the grid, and that a slice to fill has a number for
// each cell, is asked in the contracts: see `grid::cell_index`, and `pass` for the slices.

// ---- flows

// The flows X and Y of the given state, each rounded once for its edge. Nothing is asked of the bottom and of the barriers, which do not enter.
fn fill_flows(s: &Lent, x: &mut [i64], y: &mut [i64])
    requires { let t = lent_state s.now in
        FlowReady t
        × (length x.old ≡ cells t)
        × (length y.old ≡ cells t) }
    ensures { let t = lent_state s.now in
        (x.new ≡ by_cell t.w t.n (X t))
        × (y.new ≡ by_cell t.w t.n (Y t)) }
{
    // copied first, as in `scheme::fill_vorticity`
    let s = *s;
    for j in 0..s.p.n {
        for i in 0..s.p.w {
            let CellFlows { x: west, y: south } = scheme::flows_at(&s, i, j);
            let k = j * s.p.w + i;
            x[k] = west;
            y[k] = south;
        }
    }
}

// ---- depths

// The depth of cell (i, j) after the pass: the base's, h, less what flows out, and the inflow.
fn new_depth(
    p: Parameters,
    h: &[i64],
    x: &[i64],
    y: &[i64],
    inflow: &[i64],
    i: usize,
    j: usize,
) -> i64
    requires { DepthReady p h.now x.now y.now inflow.now × (i < p.w) × (j < p.n) }
    ensures { result ≡ depth_by p.w p.n h.now x.now y.now inflow.now i j }
{
    let here = grid::cell_index(p, i, j);
    let east = grid::cell_index(p, grid::next(p.w, i), j);
    let north = grid::cell_index(p, i, grid::next(p.n, j));
    let out_east = x[east] - x[here];
    let out = out_east + y[north] - y[here];
    h[here] - out + inflow[here]
}

// The depths after the pass, into d: of the base's depths h, the flows x and y, and the inflow.
fn fill_depth(p: Parameters, h: &[i64], x: &[i64], y: &[i64], inflow: &[i64], d: &mut [i64])
    requires { DepthReady p h.now x.now y.now inflow.now × (length d.old ≡ p.w * p.n) }
    ensures { d.new ≡ by_cell p.w p.n (depth_by p.w p.n h.now x.now y.now inflow.now) }
{
    for j in 0..p.n {
        for i in 0..p.w {
            let depth = new_depth(p, h, x, y, inflow, i, j);
            d[j * p.w + i] = depth;
        }
    }
}

// ---- velocities

// The velocities of row j after the pass, from the base's in base_u and base_v, with the potential vorticity q of the given state, as if there
// were no barriers. `handed` has what this row needs of the row to the south, and then what the next one needs of this row.
fn velocity_row(
    s: &Lent,
    q: &[i64],
    j: usize,
    base_u: &[i64],
    base_v: &[i64],
    handed: &mut [i64],
    u: &mut [i64],
    v: &mut [i64],
)
    requires { let t = walled s.now in
        VelocityReady t q.now base_u.now base_v.now
        × (j < t.n)
        × HandedNorth t q.now j handed.old
        × (length u.old ≡ cells t)
        × (length v.old ≡ cells t) }
    ensures { let t = walled s.now in
        let base = moving t base_u.now base_v.now in
        RowWriting t.w t.n (new_u t base q.now) 0 j u.old t.w u.new
        × RowWriting t.w t.n (new_v t base q.now) 0 j v.old t.w v.new
        × HandedNorth t q.now (j + 1) handed.new }
{
    let mut from_west = scheme::from_west(s, q, 0, j);
    for i in 0..s.p.w {
        let CellTendencies {
            depth: _,
            u: at_west,
            v: at_south,
            east,
            north,
        } = scheme::tendencies_at(s, q, i, j, from_west, handed[i]);
        let k = j * s.p.w + i;
        let new_u = scheme::moved_velocity(base_u[k], at_west, s.p.r);
        let new_v = scheme::moved_velocity(base_v[k], at_south, s.p.r);
        u[k] = new_u;
        v[k] = new_v;
        handed[i] = north;
        from_west = east;
    }
}

// The velocities after the pass, as if there were no barriers, into u and v. (The rows hand shares on as in `scheme_tendencies`, but what a row
// stores is made otherwise; one function for both would take that as a closure with all the slices.)
fn fill_velocity(s: &Lent, q: &[i64], base_u: &[i64], base_v: &[i64], u: &mut [i64], v: &mut [i64])
    requires { let t = walled s.now in
        VelocityReady t q.now base_u.now base_v.now
        × (length u.old ≡ cells t)
        × (length v.old ≡ cells t) }
    ensures { let t = walled s.now in
        let base = moving t base_u.now base_v.now in
        (u.new ≡ by_cell t.w t.n (new_u t base q.now))
        × (v.new ≡ by_cell t.w t.n (new_v t base q.now)) }
{
    // copied first, as in `scheme::fill_vorticity`
    let s = *s;
    // a row has 64 cells at most
    let mut handed = [0; 64];
    scheme::hand_north(&s, q, &mut handed);
    for j in 0..s.p.n {
        velocity_row(&s, q, j, base_u, base_v, &mut handed, u, v);
    }
}

// ---- the pass

// A pass from the base with the tendencies of the state s: the result's fields into h, u and v, of which u and v hold the flows X and Y first.
// The potential vorticity of s is worked out into q, by the loop of the potential vorticity call, and lent on as that call's q is. It rules out,
// for instance: the depths of the last result for the base's; the potential vorticity of another state. (Three slices, and no `LentMut`: of a
// struct behind a `&mut` the checker lets no field be read while another is lent.)
pub fn pass(
    s: &Lent,
    base: &Lent,
    inflow: &[i64],
    q: &mut [i64],
    h: &mut [i64],
    u: &mut [i64],
    v: &mut [i64],
)
    requires { PassReady (lent_state s.now) (lent_state base.now) inflow.now (length q.old) h.old u.old v.old }
    ensures { let b = lent_state base.now in
        with_flow b h.new u.new v.new ≡ Step.pass b (lent_state s.now) inflow.now }
{
    scheme::fill_vorticity(s, q);
    fill_flows(s, u, v);
    fill_depth(s.p, base.h, u, v, inflow, h);
    let corners = grid::corner_count(s.p);
    fill_velocity(s, &q[..corners], base.u, base.v, u, v);
    // a velocity on a closed edge is 0, and stays 0
    grid::clear_barred(u, 0, s.barriers, Edge::West);
    grid::clear_barred(v, 0, s.barriers, Edge::South);
}
