// What the C interface tells: 01's number of an answer and then the values with it, in eight places of which the others are 0. What has
// a sign, and a double, goes into places of its own.
#![tactic(auto)]

ghost use Rattle.std.specs.Prelude.{◌≡◌, List, ℕ, Ok, Err, get_or};
ghost use Rattle.model.specs.Answers.{number, refusal_numbers, answer_numbers, step_numbers, run_numbers, write_numbers};
ghost use Rattle.model.specs.Answers.{total_numbers, read_numbers, compare_numbers, probe_numbers, probe_grid_numbers};
ghost use Rattle.model.specs.declared.RunError.TheVariants.{Stopped};
ghost use Rattle.answers.specs.Told.{eight, of-result};

use model::{
    Breach, CompareError, Comparison, Header, Precision, ProbeAnswer, Refusal, RunError, StepError,
};

// What is told of a value in numbers: in each call's answer, of what it has done and of why it has not.
pub trait Numbered {
    // The model's list: 01's number, 0 for what is done, and the values with it.
    ghost told: { Self → List ℕ };

    // They rule out, for instance: 3 told as 4; the cell told before its field; the steps done told before the pass; a place past the
    // values that is not 0.
    fn numbers(self) -> [u64; 8]
        ensures { result ≡ eight (told self) };
}

// Of each call's answer it is the model's own list for that call, which the functions for C promise.
impl<T: Numbered, E: Numbered> Numbered for Result<T, E> {
    ghost told = { of-result T.told E.told };

    fn numbers(self) -> [u64; 8] {
        match self {
            Ok(value) => value.numbers(),
            Err(error) => error.numbers(),
        }
    }
}

// ---- what is told of what is done

// Of the tests, and of a call that fills.
impl Numbered for () {
    ghost told = { λ x. answer_numbers (Ok x) };

    fn numbers(self) -> [u64; 8] {
        [0; 8]
    }
}

// Of the probe of a cell, a refused one too. Its doubles stand beside the numbers.
impl Numbered for ProbeAnswer {
    ghost told = { probe_numbers };

    fn numbers(self) -> [u64; 8] {
        match self {
            ProbeAnswer::Exact(_, _, _) => [0; 8],
            ProbeAnswer::Near(_, _, _) => [0, 1, 0, 0, 0, 0, 0, 0],
            ProbeAnswer::Refused(refusal) => refusal.numbers(),
        }
    }
}

// Of the probe of a grid.
impl Numbered for Precision {
    ghost told = { λ x. probe_grid_numbers (Ok x) };

    fn numbers(self) -> [u64; 8] {
        match self {
            Precision::Exact => [0; 8],
            Precision::Near => [0, 1, 0, 0, 0, 0, 0, 0],
        }
    }
}

// Of a run: the steps done.
impl Numbered for u64 {
    ghost told = { λ x. run_numbers (Ok x) };

    fn numbers(self) -> [u64; 8] {
        [0, self, 0, 0, 0, 0, 0, 0]
    }
}

// Of a total, which has a sign, so it stands beside the numbers.
impl Numbered for i64 {
    ghost told = { λ x. total_numbers (Ok x) };

    fn numbers(self) -> [u64; 8] {
        [0; 8]
    }
}

// Of the record writer: the bytes written.
impl Numbered for usize {
    ghost told = { λ x. write_numbers (Ok x) };

    fn numbers(self) -> [u64; 8] {
        [0, self as u64, 0, 0, 0, 0, 0, 0]
    }
}

// Of the record reader. G, c and R have a sign, so they stand beside the numbers.
impl Numbered for Header {
    ghost told = { λ x. read_numbers (Ok x) };

    fn numbers(self) -> [u64; 8] {
        let Header {
            parameters,
            timestamp,
        } = self;
        [
            0,
            parameters.w as u64,
            parameters.n as u64,
            u64::from(parameters.kind),
            timestamp.seconds,
            timestamp.milliseconds,
            0,
            0,
        ]
    }
}

impl Numbered for Comparison {
    ghost told = { λ x. compare_numbers (Ok x) };

    fn numbers(self) -> [u64; 8] {
        match self {
            Comparison::Same => [0; 8],
            Comparison::FirstNewer => [0, 1, 0, 0, 0, 0, 0, 0],
            Comparison::SecondNewer => [0, 2, 0, 0, 0, 0, 0, 0],
            Comparison::Conflict => [0, 3, 0, 0, 0, 0, 0, 0],
        }
    }
}

// ---- what is told of what is not

// 01's number of a refusal, and the values returned with it.
impl Numbered for Refusal {
    ghost told = { refusal_numbers };

    fn numbers(self) -> [u64; 8] {
        match self {
            Refusal::Grid => [1, 0, 0, 0, 0, 0, 0, 0],
            Refusal::Lengths => [2, 0, 0, 0, 0, 0, 0, 0],
            Refusal::Constants => [3, 0, 0, 0, 0, 0, 0, 0],
            Refusal::Value { field, cell } => {
                [4, tests::row_of(field).number, cell as u64, 0, 0, 0, 0, 0]
            }
            Refusal::ClosedEdge { field, cell } => {
                [5, tests::row_of(field).number, cell as u64, 0, 0, 0, 0, 0]
            }
            Refusal::Record { offset } => [7, offset as u64, 0, 0, 0, 0, 0, 0],
            Refusal::Destination => [8, 0, 0, 0, 0, 0, 0, 0],
            Refusal::Milliseconds => [9, 0, 0, 0, 0, 0, 0, 0],
            Refusal::NoSuchCell => [10, 0, 0, 0, 0, 0, 0, 0],
        }
    }
}

// Refusal 6: the pass, the field and the cell; behind them, of a run, the steps done.
fn breach_numbers(breach: Breach, steps: u64) -> [u64; 8]
    ensures { result ≡ eight (run_numbers (Err (Stopped steps breach))) }
{
    [
        6,
        u64::from(breach.pass),
        tests::row_of(breach.field).number,
        breach.cell as u64,
        steps,
        0,
        0,
        0,
    ]
}

impl Numbered for StepError {
    ghost told = { λ e. step_numbers (Err e) };

    fn numbers(self) -> [u64; 8] {
        match self {
            StepError::Refused(refusal) => refusal.numbers(),
            StepError::OutOfBounds(breach) => breach_numbers(breach, 0),
        }
    }
}

impl Numbered for RunError {
    ghost told = { λ e. run_numbers (Err e) };

    fn numbers(self) -> [u64; 8] {
        match self {
            RunError::Refused(refusal) => refusal.numbers(),
            RunError::Stopped { steps, breach } => breach_numbers(breach, steps),
        }
    }
}

// Which of the two records is refused stands straight after the number.
impl Numbered for CompareError {
    ghost told = { λ e. compare_numbers (Err e) };

    fn numbers(self) -> [u64; 8] {
        let (which, refusal) = match self {
            CompareError::First(refusal) => (1, refusal),
            CompareError::Second(refusal) => (2, refusal),
        };
        let told = refusal.numbers();
        [told[0], which, told[1], told[2], told[3], 0, 0, 0]
    }
}

// The number alone, as the step program prints it: its promise is the model's `number`. It rules out, for instance: 3 told as 4; the number of the
// field. (No `From`: neither type is of this crate.)
pub fn number_of(refusal: Refusal) -> u8
    ensures { result ≡ number refusal }
{
    let told = refusal.numbers();
    told[0] as u8
}

// ---- telling

// Stores the eight numbers, and returns the first. It rules out, for instance: the second one returned; a number not stored.
pub fn tell(answer: &mut [u64; 8], numbers: [u64; 8]) -> u64
    ensures { (result ≡ get_or numbers 0 0) × (answer.new ≡ numbers) }
{
    *answer = numbers;
    numbers[0]
}
