// The grid as proved code: the boundary, barriers, neighbours, cells and corners. In specs/ the shift law, sums over the torus by
// computation, and the laws of loops that fill and scan.
#![tactic(auto)]

ghost use Rattle.std.specs.Prelude.{◌≡◌, ℕ, ◌+◌, ◌*◌, ◌<◌, ◌≤◌, length, get_or};
ghost use Rattle.model.specs.Grid;
ghost use Rattle.model.specs.Grid.{corners_of, lower, upper};
ghost use Rattle.model.specs.State.{State, Side, boundary_of, wall_west, wall_south, barrier_at};
ghost use Rattle.grid.specs.Cells.{Cell};
ghost use Rattle.grid.specs.Stencils.{IsAround};
ghost use Rattle.grid.specs.Corners.{Corner, on_a_wall, AreCells, AreCorners};
ghost use Rattle.grid.specs.Barred.{bars, wall_on, closed_at, Cleared};

use model::{Boundary, Parameters};

// The boundary that a byte stands for: the one place that reads the byte. It rules out, for instance: kind 2 without its west wall; kind 3 taken
// for periodic. (A function and no `TryFrom`: an unknown byte is no error here but a case of its own, which `is_walled` matches.)
#[tactic(auto, unfolding(model::specs::State::boundary_of))]
pub fn boundary_of(kind: u8) -> Option<Boundary>
    ensures { result ≡ boundary_of kind }
{
    match kind {
        0 => Some(Boundary::Periodic),
        1 => Some(Boundary::Channel),
        2 => Some(Boundary::Basin),
        _ => None,
    }
}

// The byte of barriers (02: piers) of the cell with index k: 0 past the end of them, so that no byte means no barrier. It rules out, for
// instance: the byte of the cell before; a byte from 128 on taken as negative.
pub fn barrier_at(barriers: &[u8], k: usize) -> u8
    ensures { result ≡ get_or barriers.now k 0 }
{
    barriers.get(k).copied().unwrap_or(0)
}

// The highest byte, or 0 where there is none: no byte is above it, and it stands at some place (past the end there is 0). No byte ends the
// search, so that it is compiled to take many bytes at a time. It rules out, for instance: the last byte left out; 255 for any bytes.
pub fn highest(bytes: &[u8]) -> u8
    ensures { ((k : ℕ) → get_or bytes.now k 0 ≤ result)
        × ((k : ℕ) × (get_or bytes.now k 0 ≡ result)) }
{
    bytes.iter().copied().max().unwrap_or(0)
}

// An edge of a cell that has a velocity: u stands on the west edge, v on the south edge.
#[derive(Clone, Copy, PartialEq, Eq, Debug)]
pub enum Edge {
    West,
    South,
}

// Whether a byte of barriers closes this edge of its cell. It rules out, for instance: the two bits swapped; a west edge that is closed by
// 1 and not by 3.
pub fn is_barred(barrier: u8, edge: Edge) -> bool
    ensures { result ≡ bars edge barrier }
{
    match edge {
        Edge::West => barrier % 2 == 1,
        Edge::South => barrier / 2 % 2 == 1,
    }
}

// Whether a wall closes this edge of the cells at a place: for west edges the place is a column, for south edges a row. It rules out, for
// instance: the walls of an unknown kind; a basin without its west wall; a channel without its wall; the wall along the last row.
pub fn is_walled(p: Parameters, edge: Edge, place: usize) -> bool
    ensures { result ≡ wall_on edge p.kind place }
{
    // each case has its arm, so that none of another boundary could be forgotten
    match (edge, boundary_of(p.kind)) {
        (Edge::West, Some(Boundary::Basin)) => place == 0,
        (Edge::South, Some(Boundary::Channel | Boundary::Basin)) => place == 0,
        (Edge::West, Some(Boundary::Periodic | Boundary::Channel) | None) => false,
        (Edge::South, Some(Boundary::Periodic) | None) => false,
    }
}

// Whether this edge of cell (i, j) is closed, in a state of that kind with that byte of barriers: by a wall or by a barrier. Whoever looks
// for closed edges asks here. It rules out, for instance: a wall that a barrier opens; the other edge; the column taken for the row; a south
// wall along every row.
#[tactic(auto, unfolding(model::specs::State::closed_west, model::specs::State::closed_south))]
pub fn is_closed(p: Parameters, barrier: u8, edge: Edge, i: usize, j: usize) -> bool
    ensures { (s : State) → s.kind ≡ p.kind → barrier_at s i j ≡ barrier → result ≡ closed_at s edge i j }
{
    // each arm whole: to match for the place first and then to ask would be a line more
    match edge {
        Edge::West => is_walled(p, edge, i) || is_barred(barrier, edge),
        Edge::South => is_walled(p, edge, j) || is_barred(barrier, edge),
    }
}

// The next place on a side of w places, and the one before: both wrap, without a division. They rule out, for instance: the last place
// for the one before, always; no wrap at the last place.
pub fn next(w: usize, i: usize) -> usize
    requires { i < w }
    ensures { (result ≡ Grid.next w i) × (result < w) }
{
    if i + 1 == w { 0 } else { i + 1 }
}

pub fn previous(w: usize, i: usize) -> usize
    requires { i < w }
    ensures { (result ≡ Grid.previous w i) × (result < w) }
{
    if i == 0 { w - 1 } else { i - 1 }
}

// The index of cell (i, j). It rules out, for instance: rows and columns swapped; rows counted by n. (Column and row go beside the parameters as
// plain numbers: that they are of this grid, a struct of the two could not say.)
pub fn cell_index(p: Parameters, i: usize, j: usize) -> usize
    requires { Cell p.w p.n i j }
    ensures { (result ≡ j * p.w + i) × (result < p.w * p.n) }
{
    j * p.w + i
}

// The indices of a cell and of the cells around it, as far as the scheme reads them.
#[derive(Clone, Copy, PartialEq, Eq, Debug)]
pub struct Stencil {
    pub here: usize,
    pub east: usize,
    pub west: usize,
    pub north: usize,
    pub south: usize,
    pub northeast: usize,
    pub southwest: usize,
}

// The cells around cell (i, j). It rules out, for instance: the cell itself for its east neighbour; the south for the north.
pub fn around(p: Parameters, i: usize, j: usize) -> Stencil
    requires { Cell p.w p.n i j }
    ensures { IsAround p.w p.n i j result }
{
    let east = next(p.w, i);
    let west = previous(p.w, i);
    let north = next(p.n, j);
    let south = previous(p.n, j);
    Stencil {
        here: cell_index(p, i, j),
        east: cell_index(p, east, j),
        west: cell_index(p, west, j),
        north: cell_index(p, i, north),
        south: cell_index(p, i, south),
        northeast: cell_index(p, east, north),
        southwest: cell_index(p, west, south),
    }
}

// ---- corners (02, U5)

// How many corners a side of w places has, by whether walls end it. It rules out, for instance: as many as places where there are walls; one
// more where there are none.
pub fn corners_of(walled: bool, w: usize) -> usize
    requires { w ≤ 64 }
    ensures { result ≡ corners_of walled w }
{
    if walled { w + 1 } else { w }
}

// The columns and the rows of the grid of corners: two functions, as the model has two, since over `Edge` the columns would be asked for by
// the west edge, in no fewer words. They rule out, for instance: a channel with a column of corners more; a basin without one.
pub fn corner_columns(p: Parameters) -> usize
    requires { p.w ≤ 64 }
    ensures { result ≡ corners_of (wall_west (boundary_of p.kind) 0) p.w }
{
    corners_of(is_walled(p, Edge::West, 0), p.w)
}

pub fn corner_rows(p: Parameters) -> usize
    requires { p.n ≤ 64 }
    ensures { result ≡ corners_of (wall_south (boundary_of p.kind) 0) p.n }
{
    corners_of(is_walled(p, Edge::South, 0), p.n)
}

// How many corners the grid has. It rules out, for instance: as many as cells in a basin; a column counted for a row.
pub fn corner_count(p: Parameters) -> usize
    requires { Side p.w × Side p.n }
    ensures { (result ≡ corners_of (wall_west (boundary_of p.kind) 0) p.w * corners_of (wall_south (boundary_of p.kind) 0) p.n)
        × (result ≤ 4225) }
{
    corner_columns(p) * corner_rows(p)
}

// The two places beside corner x of a side of w places: at a wall both are the one inside. They rule out, for instance: the place across the wall;
// the corner's own number at the last wall. (Whether walls end a side goes beside its places, here, in `corners_of` and in `on_wall`. A struct of
// both would be built in four functions, for methods of a line or two.)
fn lower_place(walled: bool, w: usize, x: usize) -> usize
    requires { (1 ≤ w) × (x < corners_of walled w) }
    ensures { (result ≡ lower walled w x) × (result < w) }
{
    if x > 0 {
        x - 1
    } else if walled {
        0
    } else {
        w - 1
    }
}

fn upper_place(walled: bool, w: usize, x: usize) -> usize
    requires { (1 ≤ w) × (x < corners_of walled w) }
    ensures { (result ≡ upper walled w x) × (result < w) }
{
    if x == w { w - 1 } else { x }
}

// Whether corner x of a side of w places is on a wall.
fn on_wall(walled: bool, w: usize, x: usize) -> bool
    ensures { result ≡ Grid.on_wall walled w x }
{
    walled && (x == 0 || x == w)
}

// Whether corner (x, y) is on a wall. It rules out, for instance: the walls of row 0 and column 0 alone; a wall corner in a periodic grid.
pub fn is_on_wall(p: Parameters, x: usize, y: usize) -> bool
    ensures { result ≡ on_a_wall p.kind p.w p.n x y }
{
    on_wall(is_walled(p, Edge::West, 0), p.w, x) || on_wall(is_walled(p, Edge::South, 0), p.n, y)
}

// What stands at the corners of a cell, or in the cells around a corner: indices, or a potential vorticity.
#[derive(Clone, Copy, PartialEq, Eq, Debug)]
pub struct Corners<T> {
    pub ne: T,
    pub nw: T,
    pub sw: T,
    pub se: T,
}

// The cells around corner (x, y): on a wall the cells inside, each as often as 02 counts it. It rules out, for instance: a cell across the wall;
// the cells of row 0 for row n.
pub fn cells_around(p: Parameters, x: usize, y: usize) -> Corners<usize>
    requires { Corner p.kind p.w p.n x y }
    ensures { AreCells p.kind p.w p.n x y result }
{
    let wall_west = is_walled(p, Edge::West, 0);
    let wall_south = is_walled(p, Edge::South, 0);
    let east = upper_place(wall_west, p.w, x);
    let west = lower_place(wall_west, p.w, x);
    let north = upper_place(wall_south, p.n, y);
    let south = lower_place(wall_south, p.n, y);
    Corners {
        ne: cell_index(p, east, north),
        nw: cell_index(p, west, north),
        sw: cell_index(p, west, south),
        se: cell_index(p, east, south),
    }
}

// The corners of cell (i, j), in a grid of corners with so many columns and rows: they wrap where that grid does.
fn corners_around(columns: usize, rows: usize, i: usize, j: usize) -> Corners<usize>
    requires { (columns ≤ 65) × (rows ≤ 65) × (i < columns) × (j < rows) }
    ensures { AreCorners columns rows i j result }
{
    let east = next(columns, i);
    let south_row = j * columns;
    let north_row = next(rows, j) * columns;
    Corners {
        ne: north_row + east,
        nw: north_row + i,
        sw: south_row + i,
        se: south_row + east,
    }
}

// The same in a grid of that kind. It rules out, for instance: row 0's corners for the last row of a basin; an index by the columns of cells.
pub fn cell_corners(p: Parameters, i: usize, j: usize) -> Corners<usize>
    requires { Cell p.w p.n i j }
    ensures { AreCorners (corners_of (wall_west (boundary_of p.kind) 0) p.w) (corners_of (wall_south (boundary_of p.kind) 0) p.n) i j result }
{
    corners_around(corner_columns(p), corner_rows(p), i, j)
}

// ---- closed edges of a field

// Puts 0 on the edges that barriers close: f has, from `at` on, a number for this edge of each cell. (Both callers give 0 for `at`; what is
// promised of other places stays.) It rules out, for instance: a 0 on the other edge; the number of the cell before.
pub fn clear_barred(f: &mut [i64], at: usize, barriers: &[u8], edge: Edge)
    requires { at + length barriers.now ≤ length f.old }
    ensures { Cleared edge barriers.now at f.old f.new }
{
    if highest(barriers) == 0 {
        return;
    }
    // f by k, and not zipped: of a slice that an adapter of `iter_mut` goes over, a proof knows the length alone
    for (k, &barrier) in barriers.iter().enumerate() {
        if is_barred(barrier, edge) {
            f[at + k] = 0;
        }
    }
}

// Copies a slice over another of its length. It rules out, for instance: the first element at every place; the first place left as it was.
// (The library's `copy_from_slice` is C's `memmove` when built: what links `libbasin.a` would then have to bring that too, and here it need not.)
pub fn copy<T: Copy>(from: &[T], to: &mut [T])
    requires { length from.now ≡ length to.old }
    ensures { to.new ≡ from.now }
{
    // `to` by k, and not zipped: of a slice that an adapter of `iter_mut` goes over, a proof knows the length alone
    for (k, &x) in from.iter().enumerate() {
        to[k] = x;
    }
}
