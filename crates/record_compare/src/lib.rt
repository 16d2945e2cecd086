// Comparison of two records, in place: nothing is copied, and no destination is lent.
#![tactic(auto)]

ghost use Rattle.std.specs.Prelude.{◌≡◌, Ok, eqb, get_or};
ghost use Rattle.model.specs.Numbers.{same_by};
ghost use Rattle.model.specs.Grid.{tabulate};
ghost use Rattle.model.specs.Record.{value_of, same_state};
ghost use Rattle.model.specs.Promises.{ComparePromise};
ghost use Rattle.record_bytes.specs.Tags.{number_of};
ghost use Rattle.record_tags.specs.Places.{parts_in};
ghost use Rattle.record_tests.specs.RecordTested.{state_read};
ghost use Rattle.record_compare.specs.Read.{BothRead, compared_read};

use model::{CompareError, Comparison};
use record_bytes::Tag;
use record_tags::Record;

// Whether a tag has the same value in two records.
#[tactic(auto, using(crate::specs::SameLaws::same_is))]
fn same_value(first: &Record, second: &Record, tag: Tag) -> bool
    ensures { result ≡ same_by eqb (value_of (number_of tag) (parts_in first.now.bytes.now))
        (value_of (number_of tag) (parts_in second.now.bytes.now)) }
{
    first.value_of(tag) == second.value_of(tag)
}

// Whether two values of tag 9 mean the same barriers of m cells: no byte for a cell means 0.
fn same_barriers(a: &[u8], b: &[u8], m: usize) -> bool
    ensures { result ≡ same_by eqb (tabulate m (λ k. get_or a.now k 0))
        (tabulate m (λ k. get_or b.now k 0)) }
{
    (0..m).all(|k| grid::barrier_at(a, k) == grid::barrier_at(b, k))
}

// The tags whose values are compared byte by byte. The timestamp's two are no part of the state, and of the barriers no byte means 0.
const COMPARED: [Tag; 6] = [
    Tag::Grid,
    Tag::Constants,
    Tag::Depth,
    Tag::Bottom,
    Tag::VelocityU,
    Tag::VelocityV,
];

// Whether two accepted records have the same state: tags 1, 2 and 4 to 7 mean the same exactly where they have the same bytes, since
// their lengths are right; tag 9 may be absent. So no derived equality would tell.
fn same_state(first: &Record, second: &Record) -> bool
    requires { BothRead first.now.bytes.now second.now.bytes.now }
    ensures { result ≡ same_state (state_read first.now.bytes.now) (state_read second.now.bytes.now) }
{
    for tag in &COMPARED {
        if !same_value(first, second, *tag) {
            return false;
        }
    }
    let read = record_tests::parameters_in(first);
    let m = read.w * read.n;
    let a = first.value_of(Tag::Barriers);
    let b = second.value_of(Tag::Barriers);
    same_barriers(a, b, m)
}

// Two accepted records: the newer timestamp tells, by second, then millisecond; under one timestamp the states do. Never by one number of
// milliseconds, which need not fit. (Two comparisons, as the model's `compared` has them: the arms of a `cmp` would be four.)
#[tactic(auto, unfolding(model::specs::Record::compared), using(crate::specs::CompareLaws::newer_is))]
fn compare_read(first: &Record, second: &Record) -> Comparison
    requires { BothRead first.now.bytes.now second.now.bytes.now }
    ensures { Ok result ≡ compared_read first.now.bytes.now second.now.bytes.now }
{
    let a = record_tests::timestamp_in(first);
    let b = record_tests::timestamp_in(second);
    if b < a {
        return Comparison::FirstNewer;
    }
    if a < b {
        return Comparison::SecondNewer;
    }
    if same_state(first, second) {
        return Comparison::Same;
    }
    Comparison::Conflict
}

// Two records compared (01: same, first newer, second newer, clash): the first is tested wholly, then the second. Refusals: 7, 1, 2, 3,
// 9, 4, 5, of the first or of the second. It rules out, for instance: an answer by timestamp before the second record is tested; same
// where only the states are the same; a conflict where the milliseconds differ; same where the barriers differ; a record without tag 9
// told apart from one of zeros.
pub fn compare(first: &[u8], second: &[u8]) -> Result<Comparison, CompareError>
    ensures { ComparePromise first.now second.now result }
{
    // room for the largest grid, and no `Option`: nothing is filled here, so test 8 refuses nothing
    let first = record_tests::examine(first, 4096).map_err(CompareError::First)?;
    let second = record_tests::examine(second, 4096).map_err(CompareError::Second)?;
    Ok(compare_read(&first, &second))
}
