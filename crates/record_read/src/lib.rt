// The record reader: all tests of a record, and only then the five fields.
#![tactic(auto)]

ghost use Rattle.std.specs.Prelude.{◌≡◌};
ghost use Rattle.model.specs.State.{cells, slices, slices_before, slices_after};
ghost use Rattle.model.specs.Promises.{rooms_in, put, ReadPromise};
ghost use Rattle.model.specs.Claims.{EachRoom, BytesOf};
ghost use Rattle.record_tags.specs.Places.{parts_in};
ghost use Rattle.record_tests.specs.RecordTested.{state_read};

use model::{Header, Refusal};
use record_bytes::{Size, Tag};
use record_tags::Record;

// Fills the first m places of each field. Where the record has no barriers, they are filled with 0. (The five slices stand apart, with m beside
// them: they are no state before they are filled, and may be longer than m.)
fn fill(
    rec: &Record,
    m: usize,
    h: &mut [i64],
    b: &mut [i64],
    u: &mut [i64],
    v: &mut [i64],
    barriers: &mut [u8],
)
    requires { (cells (state_read rec.now.bytes.now) ≡ m)
        × BytesOf m (parts_in rec.now.bytes.now)
        × EachRoom m (rooms_in (slices h b u v barriers)) }
    ensures { slices_after h b u v barriers ≡ put (state_read rec.now.bytes.now) (slices_before h b u v barriers) }
{
    record_bytes::read_numbers(rec.value_of(Tag::Depth), m, h, Size::Four);
    record_bytes::read_numbers(rec.value_of(Tag::Bottom), m, b, Size::Four);
    record_bytes::read_numbers(rec.value_of(Tag::VelocityU), m, u, Size::Two);
    record_bytes::read_numbers(rec.value_of(Tag::VelocityV), m, v, Size::Two);
    record_bytes::read_bytes(rec.value_of(Tag::Barriers), m, barriers);
}

// The state of a record into the first w·n places of h, b, u, v and the barriers, and its parameters and timestamp. Refusals: 7, 1, 2, 8,
// 3, 9, 4, 5. It rules out, for instance: fields filled before test 5; the sign of a velocity lost; the barriers left as they were where
// the record has none.
pub fn read(
    rec: &[u8],
    h: &mut [i64],
    b: &mut [i64],
    u: &mut [i64],
    v: &mut [i64],
    barriers: &mut [u8],
) -> Result<Header, Refusal>
    ensures { ReadPromise rec.now (slices_before h b u v barriers) result (slices_after h b u v barriers) }
{
    // a record that fits the shortest destination fits all five
    let room = h
        .len()
        .min(b.len())
        .min(u.len())
        .min(v.len())
        .min(barriers.len());
    let record = record_tests::examine(rec, room)?;
    let parameters = record_tests::parameters_in(&record);
    let timestamp = record_tests::timestamp_in(&record);
    let m = parameters.w * parameters.n;
    fill(&record, m, h, b, u, v, barriers);
    Ok(Header {
        parameters,
        timestamp,
    })
}
