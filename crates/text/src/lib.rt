// Text into a lent slice of bytes, as far as there is room: a sink is the slice and the place of the next byte, and each function says
// what it has put. There is no `Display` and no `write!` here: that promises its text where it answers `Ok`, and no contract promises that
// it does, while each line printed here is promised.
#![tactic(auto, using(crate::specs::Sink::putting, crate::specs::Numerals::numerals))]

ghost use Rattle.std.specs.Prelude.{◌≡◌, [], ◌∷◌, ◌++◌, ◌<◌, length, pos};
ghost use Rattle.model.specs.Grid.{tabulate};
ghost use Rattle.model.specs.Program.{decimal, line, lines, cell_line, refused_line, total_line};
ghost use Rattle.text.specs.Sink.{puts, front};

use itoa::{Buffer, Integer};

// A lent slice of bytes, and the place where the next byte goes.
#[derive(Drop)]
pub struct Sink<'a> {
    pub out: &'a mut [u8],
    pub at: usize,
}

impl<'a> Sink<'a> {
    // From the front. It rules out, for instance: a first place left free; a slice without room.
    pub fn new(out: &'a mut [u8]) -> Sink<'a>
        ensures { result ≡ front out.entry }
    {
        Sink { out, at: 0 }
    }

    // How many bytes are put. It rules out, for instance: the length of the slice; a byte counted that had no room.
    pub fn count(&self) -> usize
        ensures { result ≡ self.now.at }
    {
        self.at
    }

    // A byte, where there is room. It rules out, for instance: a byte counted twice; one put past the room.
    fn put(&mut self, byte: u8)
        ensures { self.new ≡ puts (byte ∷ []) self.old }
    {
        if self.at < self.out.len() {
            self.out[self.at] = byte;
            self.at += 1;
        }
    }

    // All bytes of a text.
    fn put_text(&mut self, text: &[u8])
        ensures { self.new ≡ puts text.now self.old }
    {
        for &byte in text {
            self.put(byte);
        }
    }

    // A number, and a byte that ends it.
    fn put_word<I: Integer>(&mut self, x: I, end: u8)
        ensures { self.new ≡ puts (I.text x ++ (end ∷ [])) self.old }
    {
        self.put_text(Buffer::new().format(x).as_bytes());
        self.put(end);
    }

    // A cell: i, j, h, u and v.
    fn put_cell(&mut self, i: usize, j: usize, h: i64, u: i64, v: i64)
        ensures { self.new ≡ puts
            (line (decimal (pos i) ∷ decimal (pos j) ∷ decimal h ∷ decimal u ∷ decimal v ∷ [])) self.old }
    {
        self.put_word(i, b' ');
        self.put_word(j, b' ');
        self.put_word(h, b' ');
        self.put_word(u, b' ');
        self.put_word(v, b'\n');
    }

    // The cells of a grid of w columns, by rising index. It rules out, for instance: a row told before its column; a line without its end.
    // It takes three slices and not the state, of which its contract would then name the bottom and the barriers, which do not enter.
    pub fn put_cells(&mut self, w: usize, h: &[i64], u: &[i64], v: &[i64])
        requires { (0 < w)
            × (length u.now ≡ length h.now)
            × (length v.now ≡ length h.now) }
        ensures { let f = cell_line w h.now u.now v.now in
            self.new ≡ puts (lines (tabulate (length h.now) f)) self.old }
    {
        for (k, ((&h, &u), &v)) in h.iter().zip(u).zip(v).enumerate() {
            self.put_cell(k % w, k / w, h, u, v);
        }
    }

    // A word and a number.
    fn put_named<I: Integer>(&mut self, name: &[u8], x: I)
        ensures { self.new ≡ puts (line (name.now ∷ I.text x ∷ [])) self.old }
    {
        self.put_text(name);
        self.put(b' ');
        self.put_word(x, b'\n');
    }

    // The two lines that have a name. They share `put_named`; each promises its own line of the model, and takes a number of its own type.

    // The line of a total. It rules out, for instance: another word; a sign lost.
    pub fn put_total(&mut self, x: i64)
        ensures { self.new ≡ puts (total_line x) self.old }
    {
        self.put_named(b"total", x);
    }

    // The line of a refusal. It rules out, for instance: a byte past the room; a number beside it. (It takes a number, since 6 has no `Refusal`.)
    pub fn put_refused(&mut self, number: u8)
        ensures { self.new ≡ puts (refused_line number) self.old }
    {
        self.put_named(b"refused", number);
    }
}
