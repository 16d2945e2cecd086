// The record writer: tags 1 to 9 of a state and its timestamp, by rising tag, into a lent slice of bytes.
#![tactic(auto)]

ghost use Rattle.std.specs.Prelude.{◌≡◌, ◌∷◌};
ghost use Rattle.model.specs.Grid.{filled};
ghost use Rattle.model.specs.State.{lent_state};
ghost use Rattle.model.specs.Record.{bytes, encode, record_length};
ghost use Rattle.model.specs.Promises.{answer_of, write_test, WritePromise};
ghost use Rattle.theorems.specs.NumbersAsBytes.{EachFits};
ghost use Rattle.record_bytes.specs.NumberSizes.{width_of, value_by};
ghost use Rattle.record_bytes.specs.Tags.{number_of};
ghost use Rattle.record_bytes.specs.Puts.{HasRoom, Puts};
ghost use Rattle.record_write.specs.FieldBytes.{field_of, scalars_of, fields_of, ScalarsReady, FieldsReady, WriteReady};

use model::{Lent, Parameters, Refusal, Timestamp};
use record_bytes::{Size, Tag, Writer};

// ---- a field

// Puts the head of a field: its tag, and the length of its value in two bytes.
fn put_head(d: &mut Writer, tag: Tag, size: usize)
    requires { HasRoom d.old (number_of tag ∷ bytes 2 size) }
    ensures { Puts d.old (number_of tag ∷ bytes 2 size) d.new }
{
    let [.., high, low] = size.to_be_bytes();
    d.put(&[u8::from(tag), high, low]);
}

// Puts a field of bytes.
#[tactic(auto, unfolding(crate::specs::FieldBytes::field_of))]
fn put_field(d: &mut Writer, tag: Tag, value: &[u8])
    requires { HasRoom d.old (field_of (number_of tag) value.now) }
    ensures { Puts d.old (field_of (number_of tag) value.now) d.new }
{
    put_head(d, tag, value.len());
    d.put(value);
}

// Puts a field of numbers. (A function beside `put_field`: they share the head, and one for both would take a trait, for a line each.)
#[tactic(auto, unfolding(crate::specs::FieldBytes::field_of))]
fn put_numbers(d: &mut Writer, tag: Tag, f: &[i64], size: Size)
    requires { HasRoom d.old (field_of (number_of tag) (value_by size f.now)) × EachFits (width_of size) f.now }
    ensures { Puts d.old (field_of (number_of tag) (value_by size f.now)) d.new }
{
    put_head(d, tag, f.len() * size.bytes());
    d.put_numbers(f, size);
}

// ---- all fields

// Tags 1, 2 and 3.
fn put_scalars(d: &mut Writer, p: Parameters, seconds: u64)
    requires { ScalarsReady p × HasRoom d.old (scalars_of p seconds) }
    ensures { Puts d.old (scalars_of p seconds) d.new }
{
    put_field(d, Tag::Grid, &[p.w as u8, p.n as u8, p.kind]);
    put_numbers(d, Tag::Constants, &[p.g, p.c, p.r], Size::Four);
    put_field(d, Tag::Seconds, &seconds.to_be_bytes());
}

// Tags 4 to 7.
#[tactic(auto, using(record_bytes::specs::Puts::puts))]
fn put_fields(s: &Lent, d: &mut Writer)
    requires { let t = lent_state s.now in
        FieldsReady t.h t.b t.u t.v × HasRoom d.old (fields_of t.h t.b t.u t.v) }
    ensures { let t = lent_state s.now in Puts d.old (fields_of t.h t.b t.u t.v) d.new }
{
    put_numbers(d, Tag::Depth, s.h, Size::Four);
    put_numbers(d, Tag::Bottom, s.b, Size::Four);
    put_numbers(d, Tag::VelocityU, s.u, Size::Two);
    put_numbers(d, Tag::VelocityV, s.v, Size::Two);
}

// The record, at the front; the answer is its length. (State and timestamp go side by side, as the call is lent them.)
fn put_record(s: &Lent, timestamp: Timestamp, d: &mut [u8]) -> usize
    requires { WriteReady (lent_state s.now) d.old }
    ensures { let t = lent_state s.now in
        (result ≡ record_length t)
        × (d.new ≡ filled (record_length t) (encode t timestamp) d.old) }
{
    let mut record = Writer { out: d, at: 0 };
    put_scalars(&mut record, s.p, timestamp.seconds);
    put_fields(s, &mut record);
    let [.., high, low] = timestamp.milliseconds.to_be_bytes();
    put_field(&mut record, Tag::Milliseconds, &[high, low]);
    put_field(&mut record, Tag::Barriers, s.barriers);
    record.at
}

// ---- the call

// Tests 1, 2, 3, 9, 4, 5, 8; `room` is the length of the destination.
#[tactic(auto, unfolding(model::specs::Promises::write_test))]
fn test_write(s: &Lent, timestamp: Timestamp, room: usize) -> Result<(), Refusal>
    ensures { result ≡ answer_of (write_test (lent_state s.now) timestamp room) }
{
    tests::test_outline(s)?;
    tests::test_time(timestamp)?;
    tests::test_fields(s)?;
    tests::test_edges(s.p, &s.u, &s.v, s.barriers)?;
    tests::test_room(52 + 13 * (s.p.w * s.p.n), room)
}

// The record of a state under a timestamp (01: stamp), into the first 52+13w·n bytes of d. Refusals: 1, 2, 3, 9, 4, 5, 8.
// It rules out, for instance: a field little-endian; a byte written past the record; 8 told before 4; 9 told after 4; tag 9 left out where
// there is no barrier.
#[tactic(auto, using(crate::specs::WriteLaws::write_ready))]
pub fn write(s: &Lent, timestamp: Timestamp, d: &mut [u8]) -> Result<usize, Refusal>
    ensures { WritePromise (lent_state s.now) timestamp d.old result d.new }
{
    test_write(s, timestamp, d.len())?;
    Ok(put_record(s, timestamp, d))
}
