// The types of the public calls. What they mean is said in specs/: this crate holds all that a reader must believe.
#![tactic(auto)]

// What a state has beside its five fields: columns, rows, the boundary's byte, gravity (01: G), Coriolis parameter times
// spacing (01: c), and spacing over time step (01: R). Taken at full width: any numbers may come in. So `kind` is a byte and no `Boundary`:
// refusal 1 answers one that stands for none.
#[derive(Clone, Copy)]
pub struct Parameters {
    pub w: usize,
    pub n: usize,
    pub kind: u8,
    pub g: i64,
    pub c: i64,
    pub r: i64,
}

// A state as a call reads it: its parameters and its five fields, lent. (Five slices beside each other, and no slice of cells: so C lends them.)
#[derive(Clone, Copy)]
pub struct Lent<'a> {
    pub p: Parameters,
    pub h: &'a [i64],
    pub b: &'a [i64],
    pub u: &'a [i64],
    pub v: &'a [i64],
    pub barriers: &'a [u8],
}

// A state as a step changes it: its depths and velocities, lent to be written. (A type of its own, since nothing in the language stands for
// `&` and `&mut` at once.)
#[derive(Drop)]
pub struct LentMut<'a> {
    pub p: Parameters,
    pub h: &'a mut [i64],
    pub b: &'a [i64],
    pub u: &'a mut [i64],
    pub v: &'a mut [i64],
    pub barriers: &'a [u8],
}

impl<'a> LentMut<'a> {
    ghost use Rattle.std.specs.Prelude.{◌≡◌};
    ghost use Rattle.model.specs.State.{lent_state, state_at};

    // The state lent on to be read. It rules out, for instance: u for v; another field's numbers.
    pub fn lent(&self) -> Lent<'_>
        ensures { lent_state result ≡ state_at self.now }
    {
        Lent {
            p: self.p,
            h: &*self.h,
            b: self.b,
            u: &*self.u,
            v: &*self.v,
            barriers: self.barriers,
        }
    }
}

// When a record's state holds (01: stamp): whole seconds since 2000-01-01 00:00, and milliseconds (02: U1). Taken at full width: any
// numbers may come in, and milliseconds above 999 are refused.
#[derive(Clone, Copy, PartialEq, Eq, PartialOrd, Ord)]
pub struct Timestamp {
    pub seconds: u64,
    pub milliseconds: u64,
}

// The boundary (01: seam): doubly periodic (kind 0); a channel, walled along the south edges of row 0 (kind 1); a closed
// basin, walled along the west edges of column 0 too (kind 2).
#[derive(Clone, Copy)]
pub enum Boundary {
    Periodic,
    Channel,
    Basin,
}

// A field that a refusal names: h, b, u, v, q, the inflow s (01: river entry) and the barriers (02: piers).
#[derive(Clone, Copy)]
pub enum Field {
    Depth,
    Bottom,
    VelocityU,
    VelocityV,
    Vorticity,
    Inflow,
    Barriers,
}

// What the tests of a call find before anything is worked out: 01's refusals 1, 2, 3, 4, 5, 7 and 8, and 02's 9 and 10, listed by number.
#[derive(Clone, Copy)]
pub enum Refusal {
    Grid,
    Lengths,
    Constants,
    Value { field: Field, cell: usize },
    ClosedEdge { field: Field, cell: usize },
    Record { offset: usize },
    Destination,
    Milliseconds,
    NoSuchCell,
}

// What a pass leaves a bound by (refusal 6): the pass, the field and the cell. The pass is a number, 1 or 2, as 01 names this form: a field enum
// beside the numbers of pass and cell.
#[derive(Clone, Copy)]
pub struct Breach {
    pub pass: u8,
    pub field: Field,
    pub cell: usize,
}

// The answers of the calls. Each but the probe's is a `Result`: of tests, and of a call that fills lent fields (potential vorticity,
// tendencies), nothing or the first refusal; of the totals and of the record writer a number, the bytes written. What the other calls answer
// is named here.

// The answer of the probe of a cell (02, U3): -D, Tu and Tv as doubles, which are those numbers (exact) or are near them. In place of a
// bare number, the refusal: 4 and 5 return a field and a cell with theirs. It is no `Result`, since 01 names this form: two cases that hold
// three f64, and a refusal as the third.
#[derive(Clone, Copy)]
pub enum ProbeAnswer {
    Exact(f64, f64, f64),
    Near(f64, f64, f64),
    Refused(Refusal),
}

// Whether doubles are the numbers that they stand for (exact) or are near them. It is what the probe of a grid tells, which fills lent
// fields with its doubles.
#[derive(Clone, Copy)]
pub enum Precision {
    Exact,
    Near,
}

// Why a step is not done: it was refused, or refusal 6.
#[derive(Clone, Copy)]
pub enum StepError {
    Refused(Refusal),
    OutOfBounds(Breach),
}

// Why a run is not finished: it was refused, or refusal 6 beside the number of steps done. A run that is finished answers that number.
#[derive(Clone, Copy)]
pub enum RunError {
    Refused(Refusal),
    Stopped { steps: u64, breach: Breach },
}

// A step is a run of one. It rules out, for instance: every refusal of a run told as 1; a run's refusal told as a bound that is left.
impl From<RunError> for StepError {
    ghost use Rattle.std.specs.Prelude.{◌≡◌};
    ghost use Rattle.model.specs.Answers.{step_error};

    ghost from_gives = { λ e x. x ≡ step_error e };

    fn from(e: RunError) -> StepError {
        match e {
            RunError::Refused(refusal) => StepError::Refused(refusal),
            RunError::Stopped { steps: _, breach } => StepError::OutOfBounds(breach),
        }
    }
}

// What the record reader tells beside the fields: the parameters, and the timestamp (01: stamp).
#[derive(Clone, Copy)]
pub struct Header {
    pub parameters: Parameters,
    pub timestamp: Timestamp,
}

// What two records compare as (01: same, first newer, second newer, clash).
#[derive(Clone, Copy)]
pub enum Comparison {
    Same,
    FirstNewer,
    SecondNewer,
    Conflict,
}

// Which of two records is refused, and why.
#[derive(Clone, Copy)]
pub enum CompareError {
    First(Refusal),
    Second(Refusal),
}
