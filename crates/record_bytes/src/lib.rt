// Numbers as bytes, big-endian, negative ones in two's complement (01: Record), as the library's `from_be_bytes` and `to_be_bytes` have
// them: read from slices of bytes, and put into one. And the table of the record's tags, by which its writer, reader and comparison go.
#![tactic(auto)]

ghost use Rattle.std.specs.Prelude.{◌≡◌, ◌+◌, ◌*◌, ◌≤◌, length, get_or, take, drop};
ghost use mir.Val.{SFits};
ghost use Rattle.model.specs.Grid.{tabulate, filled};
ghost use Rattle.model.specs.Record.{tag_table, size_in};
ghost use Rattle.theorems.specs.NumbersAsBytes.{EachFits};
ghost use Rattle.record_bytes.specs.NumberSizes.{size_of, width_of, signed_by, bytes_by, numbers_by, value_by};
ghost use Rattle.record_bytes.specs.Tags.{number_of, place_of, Numbers, tag_size_of};

// ---- signed numbers

// How many bytes a signed number takes in a record: two (u and v) or four (G, c, R, h and b). (A trait of i16 and i32 would be no plainer: what is
// read and put is an i64 either way, so its three methods would match by type where three functions match by this enum, and the laws of fields of
// numbers are stated once, of any Size.)
#[derive(Clone, Copy)]
pub enum Size {
    Two,
    Four,
}

impl Size {
    // So many bytes. It rules out, for instance: two bytes for a number of four; eight for any.
    pub fn bytes(self) -> usize
        ensures { result ≡ size_of self }
    {
        match self {
            Size::Two => 2,
            Size::Four => 4,
        }
    }
}

// The number in the bytes from k on. It rules out, for instance: a number of two bytes read from four; the sign lost; the lowest byte first.
// (k is an index, as of any element: a part of the slice, lent at each call, would be no plainer.)
pub fn number_at(s: &[u8], k: usize, size: Size) -> i64
    requires { k + size_of size ≤ length s.now }
    ensures { result ≡ signed_by size (take (size_of size) (drop k s.now)) }
{
    match size {
        Size::Two => i64::from(i16::from_be_bytes([s[k], s[k + 1]])),
        Size::Four => i64::from(i32::from_be_bytes([s[k], s[k + 1], s[k + 2], s[k + 3]])),
    }
}

// ---- fields of numbers

// Fills the first m places of d with the numbers of a value. (m beside d: what a reader is lent may be longer, and what is past m stays.) It rules
// out, for instance: numbers that overlap; a place past them.
pub fn read_numbers(value: &[u8], m: usize, d: &mut [i64], size: Size)
    requires { (m * size_of size ≤ length value.now) × (m ≤ length d.old) }
    ensures { d.new ≡ filled m (numbers_by size m value.now) d.old }
{
    let each = size.bytes();
    // not zipped with chunks of the value: of a slice that an adapter of `iter_mut` goes over, a proof knows the length alone
    for (i, x) in d[..m].iter_mut().enumerate() {
        *x = number_at(value, i * each, size);
    }
}

// ---- fields of bytes

// Fills the first m places of d with the bytes of a value, and 0 past its end, which numbers are never read past. It rules out, for instance:
// places left as they were where there is no value; a place past them. (m beside d, as in `read_numbers`.)
#[tactic(auto, using(std::proofs::lemmas::Slice::overwrites, crate::specs::ByteLoops::given_bytes))]
pub fn read_bytes(value: &[u8], m: usize, d: &mut [u8])
    requires { m ≤ length d.old }
    ensures { d.new ≡ filled m (tabulate m (λ k. get_or value.now k 0)) d.old }
{
    let given = value.len().min(m);
    grid::copy(&value[..given], &mut d[..given]);
    d[given..m].fill(0);
}

// ---- bytes put one after the other

// A lent slice, and the place in it where the next byte goes. (No `text::Sink`: that leaves out what has no room, and here there is room.)
#[derive(Drop)]
pub struct Writer<'a> {
    pub out: &'a mut [u8],
    pub at: usize,
    pub ghost within: { at ≤ length out.now },
}

impl<'a> Writer<'a> {
    ghost use Rattle.record_bytes.specs.Puts.{HasRoom, Puts};

    // Puts bytes. It rules out, for instance: the first byte at every place; the last byte left out.
    #[tactic(auto, using(std::proofs::lemmas::Slice::overwrites))]
    pub fn put(&mut self, f: &[u8])
        requires { HasRoom self.old f.now }
        ensures { Puts self.old f.now self.new }
    {
        let end = self.at + f.len();
        grid::copy(f, &mut self.out[self.at..end]);
        self.at = end;
    }

    // Puts a number. It rules out, for instance: the bytes of its magnitude; four bytes for two.
    fn put_number(&mut self, x: i64, size: Size)
        requires { HasRoom self.old (bytes_by size x) × SFits (width_of size) x }
        ensures { Puts self.old (bytes_by size x) self.new }
    {
        match size {
            Size::Two => self.put(&(x as i16).to_be_bytes()),
            Size::Four => self.put(&(x as i32).to_be_bytes()),
        }
    }

    // Puts the numbers of a field, one after the other. It rules out, for instance: the first number at every place; a gap between
    // numbers.
    pub fn put_numbers(&mut self, f: &[i64], size: Size)
        requires { HasRoom self.old (value_by size f.now) × EachFits (width_of size) f.now }
        ensures { Puts self.old (value_by size f.now) self.new }
    {
        for x in f {
            self.put_number(*x, size);
        }
    }
}

// ---- the tags of a record

// The tags of a record, each with its number (01: Record).
#[derive(Clone, Copy)]
pub enum Tag {
    Grid = 1,
    Constants = 2,
    Seconds = 3,
    Depth = 4,
    Bottom = 5,
    VelocityU = 6,
    VelocityV = 7,
    Milliseconds = 8,
    Barriers = 9,
}

// All of them, by rising number.
pub const TAGS: [Tag; 9] = [
    Tag::Grid,
    Tag::Constants,
    Tag::Seconds,
    Tag::Depth,
    Tag::Bottom,
    Tag::VelocityU,
    Tag::VelocityV,
    Tag::Milliseconds,
    Tag::Barriers,
];

// Of these a record must have the first so many.
pub const REQUIRED: usize = 7;

// A byte that is the number of no tag.
#[derive(Clone, Copy)]
pub struct UnknownTag;

// The tag that has a number. It rules out, for instance: a tag of number 0 or 10; the number of the tag before.
impl TryFrom<u8> for Tag {
    type Error = UnknownTag;

    ghost try_from_gives = { Numbers };

    fn try_from(number: u8) -> Result<Self, UnknownTag> {
        match number {
            1 => Ok(Tag::Grid),
            2 => Ok(Tag::Constants),
            3 => Ok(Tag::Seconds),
            4 => Ok(Tag::Depth),
            5 => Ok(Tag::Bottom),
            6 => Ok(Tag::VelocityU),
            7 => Ok(Tag::VelocityV),
            8 => Ok(Tag::Milliseconds),
            9 => Ok(Tag::Barriers),
            _ => Err(UnknownTag),
        }
    }
}

// The number of a tag. It rules out, for instance: the tag's place in the order; the number of another tag.
impl From<Tag> for u8 {
    ghost from_gives = { λ tag number. number ≡ number_of tag };

    fn from(tag: Tag) -> u8 {
        tag as u8
    }
}

// How many bytes the value of a tag has in a record: so many, or so many a cell.
#[derive(Clone, Copy)]
pub enum TagSize {
    Fixed(usize),
    PerCell(usize),
}

// The table, which writer and reader share, by a tag's number. (It answers any number, as pages say; a tag asks by `Tag::size`.) It rules out, for
// instance: a timestamp of nine bytes; bottom heights of two bytes a cell.
pub fn tag_size(tag: usize) -> TagSize
    ensures { result ≡ tag_size_of (size_in tag_table tag) }
{
    match tag {
        1 => TagSize::Fixed(3),
        2 => TagSize::Fixed(12),
        3 => TagSize::Fixed(8),
        4 => TagSize::PerCell(4),
        5 => TagSize::PerCell(4),
        6 => TagSize::PerCell(2),
        7 => TagSize::PerCell(2),
        8 => TagSize::Fixed(2),
        9 => TagSize::PerCell(1),
        _ => TagSize::PerCell(0),
    }
}

impl Tag {
    // The tag's place among all of them, from 0 on. It rules out, for instance: the tag's number; the place of the tag before.
    pub fn place(self) -> usize
        ensures { result ≡ place_of self }
    {
        usize::from(u8::from(self)) - 1
    }

    // How many bytes its value has, by the table. It rules out, for instance: the size of the tag before; that of the tag after.
    pub fn size(self) -> TagSize
        ensures { result ≡ tag_size_of (size_in tag_table (number_of self)) }
    {
        tag_size(usize::from(u8::from(self)))
    }
}
