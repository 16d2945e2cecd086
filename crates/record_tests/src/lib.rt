// The tests of a record, 7, 1, 2, 8, 3, 9, 4, 5, on its bytes: no field is copied to test it, each number is decoded where it stands.
// Reader and comparison share them.
#![tactic(auto)]

ghost use Rattle.std.specs.Prelude.{◌≡◌, [], ◌∷◌, ◌*◌, ◌≤◌, length};
ghost use Rattle.model.specs.State.{parameters_of};
ghost use Rattle.model.specs.Refusals.{fields_of, value_tests, edge_tests};
ghost use Rattle.model.specs.Record.{tag_table, size_in, has, value_of, timestamp_in, bytes_test, bytes_tests, record_test};
ghost use Rattle.model.specs.Promises.{answer_of};
ghost use Rattle.model.specs.Claims.{BytesOf};
ghost use Rattle.model.specs.declared.Refusal.TheVariants.{Value};
ghost use Rattle.tests.specs.Links.{answers};
ghost use Rattle.record_bytes.specs.NumberSizes.{size_of, numbers_by};
ghost use Rattle.record_bytes.specs.Tags.{number_of};
ghost use Rattle.record_tags.specs.Places.{parts_in};
ghost use Rattle.record_tests.specs.RecordTested.{state_read, Meant, Examined};

use model::{Field, Parameters, Refusal, Timestamp};
use record_bytes::{Size, TAGS, Tag, TagSize};
use record_tags::Record;
use tests::Numbers;

// ---- tags 1, 2, 3 and 8

// What tags 1 and 2 say. It rules out, for instance: rows read for columns; c read for G.
pub fn parameters_in(rec: &Record) -> Parameters
    ensures { result ≡ parameters_of (state_read rec.now.bytes.now) }
{
    let grid = rec.value_of(Tag::Grid);
    let constants = rec.value_of(Tag::Constants);
    Parameters {
        w: usize::from(grid[0]),
        n: usize::from(grid[1]),
        kind: grid[2],
        g: record_bytes::number_at(constants, 0, Size::Four),
        c: record_bytes::number_at(constants, 4, Size::Four),
        r: record_bytes::number_at(constants, 8, Size::Four),
    }
}

// What tags 3 and 8 say: the timestamp (01: stamp), with 0 milliseconds where tag 8 is absent. It rules out, for instance: the last four
// bytes of the seconds alone; the lowest byte first.
pub fn timestamp_in(rec: &Record) -> Timestamp
    ensures { result ≡ timestamp_in (parts_in rec.now.bytes.now) }
{
    let seconds = rec.value_of(Tag::Seconds);
    let milliseconds = rec.value_of(Tag::Milliseconds);
    Timestamp {
        seconds: u64::from_be_bytes(*seconds.first_chunk().unwrap()),
        milliseconds: match milliseconds {
            [high, low] => u64::from(u16::from_be_bytes([*high, *low])),
            // no bytes stand for 0
            _ => 0,
        },
    }
}

// ---- test 2

// Test 2 of one tag: where it is there, its value has the table's bytes of m cells. Where the table has a fixed length, test 7 has asked for
// it.
// (m ≤ 4096 keeps k * m in range. A struct for one number and one bound, made once and read by two functions, would be no plainer.)
fn test_bytes(rec: &Record, tag: Tag, m: usize) -> Result<(), Refusal>
    requires { m ≤ 4096 }
    ensures { let parts = parts_in rec.now.bytes.now in
        let t = number_of tag in
        result ≡ answers (bytes_test m (has t parts) (value_of t parts) (size_in tag_table t)) }
{
    if !rec.has(tag) {
        return Ok(());
    }
    let value = rec.value_of(tag);
    match tag.size() {
        TagSize::Fixed(_) => Ok(()),
        TagSize::PerCell(k) => tests::test_length(k * m, value.len()),
    }
}

// Test 2 of all tags, by rising tag, wherever they stand.
fn test_values(rec: &Record, m: usize) -> Result<(), Refusal>
    requires { m ≤ 4096 }
    ensures { result ≡ answers (bytes_tests m (parts_in rec.now.bytes.now) tag_table) }
{
    for tag in &TAGS {
        test_bytes(rec, *tag, m)?;
    }
    Ok(())
}

// ---- tests 4 and 5

// The numbers of a value, each decoded where it stands.
#[derive(Clone, Copy)]
struct Encoded<'a> {
    value: &'a [u8],
    size: Size,
    count: usize,
    ghost long: { length value.now ≡ count * size_of size },
}

impl<'a> Numbers for Encoded<'a> {
    ghost numbers = { λ e. numbers_by e.size e.count e.value.now };

    fn count(&self) -> usize {
        self.count
    }

    fn number_at(&self, k: usize) -> i64 {
        let at = k * self.size.bytes();
        record_bytes::number_at(self.value, at, self.size)
    }
}

// The m numbers of a tag. (The size stands beside the tag, here and where fields are put and filled: told by the tag it would be an `Option`, since
// not every tag has numbers.)
fn numbers_of<'a>(rec: &Record<'a>, tag: Tag, size: Size, m: usize) -> Encoded<'a>
    requires { length (value_of (number_of tag) (parts_in rec.now.bytes.now)) ≡ size_of size * m }
    ensures { (result.value.now ≡ value_of (number_of tag) (parts_in rec.now.bytes.now))
        × (result.size ≡ size)
        × (result.count ≡ m) }
{
    let value = rec.value_of(tag);
    Encoded {
        value,
        size,
        count: m,
    }
}

// Test 4, in 01's order of the fields, with the barriers last, wherever their tags stand. Where the record has no barriers, there are no bytes to
// look at. (`tests::test_fields` takes a state as one `Lent`: one function for both would be handed four fields and the barriers in each call.)
fn test_fields_in(rec: &Record, p: Parameters) -> Result<(), Refusal>
    requires { Meant rec.now.bytes.now p
        × BytesOf (p.w * p.n) (parts_in rec.now.bytes.now)
        × (p.w * p.n ≤ 4096) }
    ensures { result ≡ answers (value_tests Value (fields_of (state_read rec.now.bytes.now))) }
{
    let m = p.w * p.n;
    tests::test_field(p, &numbers_of(rec, Tag::Depth, Size::Four, m), Field::Depth)?;
    tests::test_field(
        p,
        &numbers_of(rec, Tag::Bottom, Size::Four, m),
        Field::Bottom,
    )?;
    tests::test_field(
        p,
        &numbers_of(rec, Tag::VelocityU, Size::Two, m),
        Field::VelocityU,
    )?;
    tests::test_field(
        p,
        &numbers_of(rec, Tag::VelocityV, Size::Two, m),
        Field::VelocityV,
    )?;
    tests::test_barriers(rec.value_of(Tag::Barriers))
}

// Test 5: u before v.
fn test_edges_in(rec: &Record, p: Parameters) -> Result<(), Refusal>
    requires { Meant rec.now.bytes.now p
        × BytesOf (p.w * p.n) (parts_in rec.now.bytes.now)
        × (p.w * p.n ≤ 4096) }
    ensures { result ≡ answers (edge_tests (state_read rec.now.bytes.now)) }
{
    let m = p.w * p.n;
    let u = numbers_of(rec, Tag::VelocityU, Size::Two, m);
    let v = numbers_of(rec, Tag::VelocityV, Size::Two, m);
    tests::test_edges(p, &u, &v, rec.value_of(Tag::Barriers))
}

// ---- all of them

// Tests 1, 2, 8, 3, 9, 4, 5 of a record that passes test 7; `room` is the length of the shortest destination.
#[tactic(auto, unfolding(model::specs::Record::record_test))]
fn test_record(rec: &Record, room: usize) -> Result<(), Refusal>
    ensures { let parts = parts_in rec.now.bytes.now in
        result ≡ answer_of (record_test (state_read rec.now.bytes.now) (timestamp_in parts) parts (room ∷ [])) }
{
    let p = parameters_in(rec);
    tests::test_grid(p)?;
    let m = p.w * p.n;
    test_values(rec, m)?;
    tests::test_room(m, room)?;
    tests::test_constants(p)?;
    tests::test_time(timestamp_in(rec))?;
    test_fields_in(rec, p)?;
    test_edges_in(rec, p)
}

// All tests of a record, 7 first. It rules out, for instance: 8 told before 2; 3 told before 8; 9 told before 8; 4 by the place of the
// tag.
pub fn examine(rec: &[u8], room: usize) -> Result<Record<'_>, Refusal>
    ensures { Examined rec.now (room ∷ []) result }
{
    let record = Record::walk(rec)?;
    test_record(&record, room)?;
    Ok(record)
}
