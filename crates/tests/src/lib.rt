// 01's refusals 1 to 5 and 8, and 02's 9 and 10, each as a function that passes or answers its refusal. A call writes its tests one after the
// other, each with a `?`, in the order of its list in the model: the first that finds something ends it.
#![tactic(auto)]

ghost use Rattle.std.specs.Prelude.{◌≡◌, ◌&&◌, List, [], ◌∷◌, ◌++◌, map, ◌*◌, ◌≤◌, ◌<◌, leb, ℤ, pos, length, get_or};
ghost use Rattle.model.specs.Numbers.{longest_side};
ghost use Rattle.model.specs.Grid.{first_from};
ghost use Rattle.model.specs.State.{state_of, lent_state};
ghost use Rattle.model.specs.Fields.{field_number, limits_of, narrow_of};
ghost use Rattle.model.specs.Tests.{asks};
ghost use Rattle.model.specs.Refusals.{count_of, taken, fields_of, grid_known, grid_test, run_length_test, length_test, work_test};
ghost use Rattle.model.specs.Refusals.{constants_within, constants_test, time_test, value_test, value_tests, edge_tests, room_test, room_tests};
ghost use Rattle.model.specs.Refusals.{narrowed, cell_test, state_tests};
ghost use Rattle.model.specs.declared.Field.TheVariants.{Vorticity};
ghost use Rattle.model.specs.declared.Refusal.TheVariants.{Value};
ghost use Rattle.integers.specs.Ranges.{between};
ghost use Rattle.tests.specs.Sought.{bare, edges_of, outside_in, moving_at, bad_in, barriers_test, still_test};
ghost use Rattle.tests.specs.Links.{answers, own_lengths, outline_tests, FieldsLong};

use grid::Edge;
use integers::Range;
use model::{Field, Lent, Parameters, Refusal, Timestamp};

// ---- the fields

// What a field has beside its numbers: the number that names it in an answer, 01's bounds, and 02's narrow ones. The C interface names a
// field by that number, and this table is the one place that has it.
#[derive(Clone, Copy)]
pub struct FieldRow {
    pub number: u64,
    pub limits: Range,
    pub narrow: Range,
}

// A row by its number, the two ends of 01's bounds, and the two ends of the narrow ones.
fn row(number: u64, least: i64, most: i64, low: i64, high: i64) -> FieldRow
    ensures { (result.number ≡ number)
        × (result.limits.least ≡ least)
        × (result.limits.most ≡ most)
        × (result.narrow.least ≡ low)
        × (result.narrow.most ≡ high) }
{
    FieldRow {
        number,
        limits: Range { least, most },
        narrow: Range {
            least: low,
            most: high,
        },
    }
}

// The table of the fields; those for which 02 names no narrow bounds keep 01's. It rules out, for instance: a bound off by one; q's bounds
// for the inflow; two fields of one number; a narrow end excluded; b's narrow bound left at 01's.
#[tactic(auto, unfolding(model::specs::Numbers::depth_limits, model::specs::Numbers::bottom_limits, model::specs::Numbers::velocity_limits, model::specs::Numbers::vorticity_limits, model::specs::Numbers::inflow_limits, model::specs::Numbers::barrier_limits, model::specs::Numbers::narrow_depth_limits, model::specs::Numbers::narrow_bottom_limits, model::specs::Numbers::narrow_velocity_limits, model::specs::Numbers::narrow_vorticity_limits))]
pub fn row_of(field: Field) -> FieldRow
    ensures { (result.number ≡ field_number field)
        × (between result.limits ≡ limits_of field)
        × (between result.narrow ≡ narrow_of field) }
{
    match field {
        Field::Depth => row(0, 1000, 100000, 1000, 10000),
        Field::Bottom => row(1, 0, 100000, 0, 10000),
        Field::VelocityU => row(2, -5000, 5000, -500, 500),
        Field::VelocityV => row(3, -5000, 5000, -500, 500),
        Field::Vorticity => row(4, -2000000, 2000000, -1000000, 1000000),
        Field::Inflow => row(5, -1000, 1000, -1000, 1000),
        Field::Barriers => row(6, 0, 3, 0, 3),
    }
}

// ---- numbers

// Numbers that a scan goes over: those of a lent field, bytes of barriers, and the numbers that a record holds as bytes. Each impl reads them
// from where they are.
pub trait Numbers {
    ghost numbers: { Self → List ℤ };

    fn count(&self) -> usize
        ensures { result ≡ length (numbers self.now) };

    fn number_at(&self, k: usize) -> i64
        requires { k < length (numbers self.now) }
        ensures { result ≡ get_or (numbers self.now) k (pos 0) };
}

impl<'a> Numbers for &'a [i64] {
    ghost numbers = { λ f. f.now };

    fn count(&self) -> usize {
        self.len()
    }

    fn number_at(&self, k: usize) -> i64 {
        self[k]
    }
}

// Bytes as numbers: one from 128 on is no negative number.
#[derive(Clone, Copy)]
pub struct Bytes<'a> {
    pub bytes: &'a [u8],
}

impl<'a> Numbers for Bytes<'a> {
    ghost numbers = { λ b. map pos b.bytes.now };

    fn count(&self) -> usize {
        self.bytes.len()
    }

    fn number_at(&self, k: usize) -> i64 {
        i64::from(self.bytes[k])
    }
}

// ---- scans

// The first number that is outside a range: the loop ends there. It rules out, for instance: the last such number; the first one left out.
pub fn first_outside<N: Numbers>(f: &N, l: Range) -> Option<usize>
    ensures { let numbers = N.numbers f.now in
        result ≡ first_from (outside_in l numbers) (length numbers) 0 }
{
    // tried: `find` over the range proves, and takes nine instructions a number for six here, a fifth of a call that tests much
    for k in 0..f.count() {
        if !l.contains(f.number_at(k)) {
            return Some(k);
        }
    }
    None
}

// The first cell with a velocity on a closed edge, in index order: the loops end there. A barrier may stand anywhere, so they go over all cells. It
// rules out, for instance: the last such cell; a row told for a cell; the first row and column alone; the south wall along column 0; a velocity of
// 0 told; u's edge closed by the bit of v's. (p, the barriers and the edge go on one by one: a struct of them would be made for u and for v, to be
// read once each. That f has a number for each cell is asked here and in the two tests below, since `Numbers` knows no grid.)
pub fn first_moving<N: Numbers>(p: Parameters, f: &N, barriers: &[u8], edge: Edge) -> Option<usize>
    requires { length (N.numbers f.now) ≡ p.w * p.n }
    ensures { let moving = moving_at (edges_of p barriers.now) edge in
        result ≡ first_from (bad_in moving p.w (N.numbers f.now)) (p.w * p.n) 0 }
{
    // so that the products below fit
    let count = f.count();
    prove!(count == p.w * p.n);
    let mut found = None;
    // left by its label, the form that 01 names; the rows and columns tell which edges a wall closes
    'scan: for j in 0..p.n {
        for i in 0..p.w {
            let k = j * p.w + i;
            let barrier = grid::barrier_at(barriers, k);
            // few edges are closed, and no other number is looked at
            if grid::is_closed(p, barrier, edge, i, j) && f.number_at(k) != 0 {
                found = Some(k);
                break 'scan;
            }
        }
    }
    found
}

// ---- a test that asks
//
// Most tests that ask are one `ask`. Each is a function all the same, by its name in the model: a call's tests then read as the model's list.

// Something must hold. It rules out, for instance: a refusal where it holds; always refusing.
pub fn ask(holds: bool, own: Refusal) -> Result<(), Refusal>
    ensures { result ≡ answers (asks holds own ∷ []) }
{
    if holds { Ok(()) } else { Err(own) }
}

// ---- 1

// Whether a side has a known number of columns or rows. (Two comparisons, as the contract has them: a range's `contains` would be no shorter.)
fn is_side(w: usize) -> bool
    ensures { result ≡ (leb 1 w && leb w longest_side) }
{
    1 <= w && w <= 64
}

// Whether w, n and the boundary are known. It rules out, for instance: 65 columns; an unknown boundary taken for periodic.
#[tactic(auto, unfolding(model::specs::Refusals::grid_known))]
fn grid_known(p: Parameters) -> bool
    ensures { result ≡ grid_known p }
{
    is_side(p.w) && is_side(p.n) && grid::boundary_of(p.kind).is_some()
}

// Test 1 of a grid. It rules out, for instance: 65 columns taken; 2 told for a grid unknown.
pub fn test_grid(p: Parameters) -> Result<(), Refusal>
    ensures { result ≡ answers (grid_test p ∷ []) }
{
    ask(grid_known(p), Refusal::Grid)
}

// Test 1 of a run's length. It rules out, for instance: 10,000 steps refused; 10,001 taken.
pub fn test_run_length(steps: u64) -> Result<(), Refusal>
    ensures { result ≡ answers (run_length_test steps ∷ []) }
{
    ask(steps <= 10000, Refusal::Grid)
}

// ---- 2

// Test 2 of a field that must have m numbers, and of a work space for m cells, 8 numbers each. They rule out, for instance: a field of one
// number more taken; a work space of 8m numbers refused.
pub fn test_length(m: usize, count: usize) -> Result<(), Refusal>
    ensures { result ≡ answers (length_test m count ∷ []) }
{
    ask(count == m, Refusal::Lengths)
}

pub fn test_work(m: usize, room: usize) -> Result<(), Refusal>
    requires { m ≤ 4096 }
    ensures { result ≡ answers (work_test m room ∷ []) }
{
    ask(8 * m <= room, Refusal::Lengths)
}

// Test 2 of a state's own fields. It rules out, for instance: v's length untested; b's for u's.
pub fn test_lengths(s: &Lent, m: usize) -> Result<(), Refusal>
    ensures { result ≡ answers (own_lengths s.now.h.now s.now.b.now s.now.u.now s.now.v.now s.now.barriers.now m) }
{
    test_length(m, s.h.len())?;
    test_length(m, s.b.len())?;
    test_length(m, s.u.len())?;
    test_length(m, s.v.len())?;
    test_length(m, s.barriers.len())
}

// ---- 3

// Whether G, c and R are within their bounds.
#[tactic(auto, unfolding(model::specs::Refusals::constants_within, model::specs::Numbers::gravity_limits, model::specs::Numbers::coriolis_limits, model::specs::Numbers::ratio_limits))]
fn constants_within(p: Parameters) -> bool
    ensures { result ≡ constants_within p }
{
    let gravity = Range {
        least: 1,
        most: 10000,
    };
    let coriolis = Range {
        least: -10000,
        most: 10000,
    };
    let ratio = Range {
        least: 1000,
        most: 1000000,
    };
    gravity.contains(p.g) && coriolis.contains(p.c) && ratio.contains(p.r)
}

// Test 3. It rules out, for instance: c untested; an upper bound excluded.
pub fn test_constants(p: Parameters) -> Result<(), Refusal>
    ensures { result ≡ answers (constants_test p ∷ []) }
{
    ask(constants_within(p), Refusal::Constants)
}

// ---- 9

// Milliseconds above 999. It rules out, for instance: 1,000 taken; 65,536 taken for 0.
pub fn test_time(timestamp: Timestamp) -> Result<(), Refusal>
    ensures { result ≡ answers (time_test timestamp ∷ []) }
{
    ask(timestamp.milliseconds <= 999, Refusal::Milliseconds)
}

// ---- 4 and 5: tests that seek

// Test 4 of all numbers of one field, by these limits. It rules out, for instance: the last cell outside told; a value outside told as a closed
// edge; a cell told of another field. (A field's name goes beside its numbers, here and in the tests below: a struct of the two would be made anew
// at each call.)
pub fn test_within<N: Numbers>(f: &N, field: Field, limits: Range) -> Result<(), Refusal>
    ensures { let l = N.numbers f.now in
        result ≡ answers
        (value_test Value (record { field = field; count = length l; limits = between limits; numbers = l })
        ∷ []) }
{
    // what is found is the error: `ok_or` makes one of None alone, and `map_or(Ok(()), ..)` is no plainer
    match first_outside(f, limits) {
        Some(cell) => Err(Refusal::Value { field, cell }),
        None => Ok(()),
    }
}

// Test 4 of one field, by 01's limits. It rules out, for instance: the inflow's limits for q; the lowest cell left out.
pub fn test_field<N: Numbers>(p: Parameters, f: &N, field: Field) -> Result<(), Refusal>
    requires { length (N.numbers f.now) ≡ count_of (bare p) field }
    ensures { result ≡ answers (value_test Value (taken (bare p) field (N.numbers f.now)) ∷ []) }
{
    test_within(f, field, row_of(field).limits)
}

// The same by 02's narrow limits. (Two tests of the model, each of them one call.) It rules out, for instance: 01's limits; the narrow ones of
// another field.
pub fn test_narrow(p: Parameters, f: &[i64], field: Field) -> Result<(), Refusal>
    requires { length f.now ≡ count_of (bare p) field }
    ensures { result ≡ answers (value_test Value (narrowed (bare p) field f.now) ∷ []) }
{
    test_within(&f, field, row_of(field).narrow)
}

// Test 4 of the barriers. It rules out, for instance: 4 taken for a barrier; the last cell outside told.
pub fn test_barriers(barriers: &[u8]) -> Result<(), Refusal>
    ensures { result ≡ answers (barriers_test barriers.now (length barriers.now) ∷ []) }
{
    // nearly always so, and fast: the scan is for the first one that is outside
    if grid::highest(barriers) <= 3 {
        return Ok(());
    }
    test_within(
        &Bytes { bytes: barriers },
        Field::Barriers,
        row_of(Field::Barriers).limits,
    )
}

// Test 4 of a state's own fields, in 01's order, with the barriers last. It rules out, for instance: b before h; v untested; the barriers
// before v.
pub fn test_fields(s: &Lent) -> Result<(), Refusal>
    requires { FieldsLong (lent_state s.now) }
    ensures { result ≡ answers (value_tests Value (fields_of (lent_state s.now))) }
{
    test_field(s.p, &s.h, Field::Depth)?;
    test_field(s.p, &s.b, Field::Bottom)?;
    test_field(s.p, &s.u, Field::VelocityU)?;
    test_field(s.p, &s.v, Field::VelocityV)?;
    test_barriers(s.barriers)
}

// Test 5 of one field of velocities. It rules out, for instance: a closed edge told as a value outside; a clean field refused.
pub fn test_still<N: Numbers>(
    p: Parameters,
    f: &N,
    barriers: &[u8],
    field: Field,
    edge: Edge,
) -> Result<(), Refusal>
    requires { length (N.numbers f.now) ≡ p.w * p.n }
    ensures { result ≡ answers (still_test p barriers.now edge field (N.numbers f.now) ∷ []) }
{
    // as in `test_within`
    match first_moving(p, f, barriers, edge) {
        Some(cell) => Err(Refusal::ClosedEdge { field, cell }),
        None => Ok(()),
    }
}

// Test 5: u before v. It rules out, for instance: v's closed edges told before u's; the south wall untested; the barriers left out.
pub fn test_edges<N: Numbers>(p: Parameters, u: &N, v: &N, barriers: &[u8]) -> Result<(), Refusal>
    requires { (length (N.numbers u.now) ≡ p.w * p.n) × (length (N.numbers v.now) ≡ p.w * p.n) }
    ensures { (h b : List ℤ)
        → result ≡ answers (edge_tests (state_of p h b (N.numbers u.now) (N.numbers v.now) barriers.now)) }
{
    test_still(p, u, barriers, Field::VelocityU, Edge::West)?;
    test_still(p, v, barriers, Field::VelocityV, Edge::South)
}

// ---- 8

// Test 8 of a destination for m numbers. It rules out, for instance: one that is just long enough refused; 2 told.
pub fn test_room(m: usize, room: usize) -> Result<(), Refusal>
    ensures { result ≡ answers (room_test m room ∷ []) }
{
    ask(m <= room, Refusal::Destination)
}

// Test 8 of three destinations for m numbers each, by their lengths. (C lends them one by one, and so they go on.) It rules out, for instance: the
// third untested; one untested where another has room.
pub fn test_rooms(m: usize, dh: usize, du: usize, dv: usize) -> Result<(), Refusal>
    ensures { result ≡ answers (room_tests m (dh ∷ du ∷ dv ∷ [])) }
{
    test_room(m, dh)?;
    test_room(m, du)?;
    test_room(m, dv)
}

// ---- 10

// The index of a probed cell among m cells. It rules out, for instance: the cell m taken; the last cell refused.
pub fn test_cell(m: usize, cell: usize) -> Result<(), Refusal>
    ensures { result ≡ answers (cell_test m cell ∷ []) }
{
    ask(cell < m, Refusal::NoSuchCell)
}

// ---- a state alone, and with a potential vorticity

// Tests 1, 2 and 3 of a state: its grid, the lengths of its fields and its constants. It rules out, for instance: 3 told before 2; a
// field's length left out.
pub fn test_outline(s: &Lent) -> Result<(), Refusal>
    ensures { result ≡ answers (outline_tests (lent_state s.now)) }
{
    test_grid(s.p)?;
    test_lengths(s, s.p.w * s.p.n)?;
    test_constants(s.p)
}

// Tests 1 to 5 of a state, and of nothing beside it. It rules out, for instance: 3 told before 2; the last cell outside instead of the
// first.
pub fn test_state(s: &Lent) -> Result<(), Refusal>
    ensures { result ≡ answers (state_tests (lent_state s.now) [] [] []) }
{
    test_outline(s)?;
    test_fields(s)?;
    test_edges(s.p, &s.u, &s.v, s.barriers)
}

// The same of a state and of q, the potential vorticity lent, which has a number a corner. It rules out, for instance: q before the barriers;
// a number a cell in a basin.
pub fn test_vorticity(s: &Lent, q: &[i64]) -> Result<(), Refusal>
    ensures { let t = lent_state s.now in
        result ≡ answers (state_tests t (taken t Vorticity q.now ∷ []) [] []) }
{
    test_grid(s.p)?;
    let cells = s.p.w * s.p.n;
    test_lengths(s, cells)?;
    test_length(grid::corner_count(s.p), q.len())?;
    test_constants(s.p)?;
    test_fields(s)?;
    test_field(s.p, &q, Field::Vorticity)?;
    test_edges(s.p, &s.u, &s.v, s.barriers)
}
