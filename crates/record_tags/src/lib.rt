// Test 7: a walk over the tags of a record (01: Record), which finds where the value of each tag stands.
#![tactic(auto)]

ghost use Rattle.std.specs.Prelude.{◌≡◌, List, ◌+◌, ◌≤◌, ◌<◌, length};
ghost use Rattle.model.specs.Record.{Part, size_at, part_at, right_size, missing_test};
ghost use Rattle.model.specs.Promises.{answer_of};
ghost use Rattle.model.specs.Claims.{Bytes};
ghost use Rattle.record_bytes.specs.Tags.{number_of};
ghost use Rattle.record_tags.specs.Places.{Seen, Tested, Placed};

use model::Refusal;
use record_bytes::{Tag, TagSize};

// ---- a field

// The length that a field's head has, in two bytes after the tag at k. (A record and an offset in it travel together here, as a slice and
// an index do: a struct of the two would be no plainer.)
fn size_at(rec: &[u8], k: usize) -> usize
    requires { k + 3 ≤ length rec.now }
    ensures { (result ≡ size_at rec.now k) × (result < 65536) }
{
    usize::from(u16::from_be_bytes([rec[k + 1], rec[k + 2]]))
}

// The value of the field whose tag is at k: a part of the record that starts in its middle.
fn value_at(rec: &[u8], k: usize) -> &[u8]
    requires { k + 3 + size_at rec.now k ≤ length rec.now }
    ensures { result.now ≡ (part_at rec.now k).value }
{
    let from = k + 3;
    let end = from + size_at(rec, k);
    &rec[from..end]
}

// Whether a tag's value may have that length: by the table, and whatever the grid.
fn right_size(tag: Tag, size: usize) -> bool
    ensures { result ≡ right_size (number_of tag) size }
{
    match tag.size() {
        TagSize::Fixed(k) => size == k,
        TagSize::PerCell(_) => true,
    }
}

// ---- the walk

// Where the field of each tag stands, by the tag's place among all of them: the offset of its tag, or none where it has not been seen.
pub type Places = [Option<usize>; 9];

// Test 7 at the tag at k, with the tags before it at the places `at`: 1 or 2 bytes left; an unknown tag; one that was seen before; a value past the
// end; a length that the table does not allow. It answers the tag. (rec and k as in `size_at`.)
fn test_tag(rec: &[u8], k: usize, at: &Places) -> Result<Tag, Refusal>
    requires { k < length rec.now }
    ensures { (parts : List Part) → Seen rec.now parts at.now → Tested rec.now k parts result }
{
    let damaged = Refusal::Record { offset: k };
    let remaining = rec.len() - k;
    if remaining < 3 {
        return Err(damaged);
    }
    let Ok(tag) = Tag::try_from(rec[k]) else {
        return Err(damaged);
    };
    if at[tag.place()].is_some() {
        return Err(damaged);
    }
    let size = size_at(rec, k);
    if remaining - 3 < size {
        return Err(damaged);
    }
    if !right_size(tag, size) {
        return Err(damaged);
    }
    Ok(tag)
}

// Test 7 at the record's end: a tag that a record must have, and that was not seen, is missing.
fn test_end(rec: &[u8], at: &Places) -> Result<(), Refusal>
    ensures { (parts : List Part) → Seen rec.now parts at.now
        → result ≡ answer_of (missing_test rec.now parts) }
{
    for place in &at[..record_bytes::REQUIRED] {
        if place.is_none() {
            return Err(Refusal::Record { offset: rec.len() });
        }
    }
    Ok(())
}

// A record that passes test 7, with the place of each of its tags.
#[derive(Clone, Copy)]
pub struct Record<'a> {
    pub bytes: &'a [u8],
    pub at: Places,
    ghost placed: { Placed bytes.now at },
    ghost small: { Bytes bytes.now },
}

impl<'a> Record<'a> {
    ghost use Rattle.std.specs.Prelude.{◌≡◌};
    ghost use Rattle.model.specs.Record.{has};
    ghost use Rattle.record_bytes.specs.Tags.{number_of};
    ghost use Rattle.record_tags.specs.Places.{parts_in, IsValue};
    ghost use Rattle.record_tags.specs.Found.{Found};

    // Test 7 of a record. It rules out, for instance: a tag that stands twice taken; the offset of the tag before; a missing tag told at
    // offset 0.
    pub fn walk(rec: &'a [u8]) -> Result<Record<'a>, Refusal>
        ensures { Found rec.now result }
    {
        let mut at = [None; 9];
        let mut k = 0;
        // no range: each field tells by its length where the next one begins
        while k < rec.len() {
            let tag = test_tag(rec, k, &at)?;
            at[tag.place()] = Some(k);
            k = k + 3 + size_at(rec, k);
        }
        test_end(rec, &at)?;
        Ok(Record { bytes: rec, at })
    }

    // Whether a record has a tag. It rules out, for instance: a tag with an empty value taken for an absent one; a tag that comes last left
    // out.
    pub fn has(&self, tag: Tag) -> bool
        ensures { result ≡ has (number_of tag) (parts_in self.now.bytes.now) }
    {
        // copied first: in a struct that holds a reference, the checker refuses a method on the place itself
        let offset = self.at[tag.place()];
        offset.is_some()
    }

    // The value of a tag: no bytes where the record has none. It rules out, for instance: the value of another tag; a value that starts at its
    // length; one byte too many; the record's last bytes for a tag that is absent. (No `Option`: wherever a value is read, an absent tag means what
    // no bytes mean. Test 2 alone asks `has`.)
    pub fn value_of(&self, tag: Tag) -> &'a [u8]
        ensures { IsValue self.now.bytes.now (number_of tag) result.now }
    {
        match self.at[tag.place()] {
            Some(k) => value_at(self.bytes, k),
            None => &[],
        }
    }
}
