// Numbers, commas, LF and other bytes, put into a lent list one after another, and how many bytes numbers and lines have: who writes can see first that there
// is room for all of it.
#![tactic(auto)]

ghost use Rattle.std.specs.Prelude.{◌≡◌, [], ◌∷◌, map, ◌^◌, ◌≤◌, ◌<◌, length};
ghost use Rattle.decimal.specs.Decimal.{signed};
ghost use Rattle.writing.specs.Lines.{line_of, refused_line};
ghost use Rattle.writing.specs.Lengths.{digits_in, signed_length, row_length};
ghost use Rattle.writing.specs.Puts.{Put, Room, Appended};

use itoa::{Buffer, Integer};

// A lent list, and the place that the next byte goes to.
#[derive(Drop)]
pub struct Writer<'a> {
    pub out: &'a mut [u8],
    pub at: usize,
}

impl<'a> Writer<'a> {
    // Writes to the front of a list.
    pub fn new(out: &'a mut [u8]) -> Writer<'a>
        ensures same { result.out.ghost_name ≡ out.entry.ghost_name }
        ensures list { result.out.now ≡ out.old }
        ensures front { result.at ≡ 0 }
    {
        Writer { out, at: 0 }
    }

    pub fn put_byte(&mut self, b: u8)
        requires { Room self.old (b ∷ []) }
        ensures { Appended self.old (b ∷ []) self.new }
    {
        self.out[self.at] = b;
        self.at += 1;
    }

    // One by one: they are few, and a copy of all would need a function of the C library, which the compiler would call where it saw the whole of this.
    #[inline(never)]
    pub fn put_bytes(&mut self, s: &[u8])
        requires { Room self.old s.now }
        ensures { Appended self.old s.now self.new }
    {
        for b in s {
            self.put_byte(*b);
        }
    }

    // What is printed of a number.
    pub fn put_number<N: Integer>(&mut self, n: N)
        requires { Room self.old (N.text n) }
        ensures { Appended self.old (N.text n) self.new }
    {
        let mut buffer = Buffer::new();
        self.put_bytes(buffer.format(n).as_bytes());
    }

    // A comma and a number.
    pub fn put_next<N: Integer>(&mut self, n: N)
        requires { Room self.old (44 ∷ N.text n) }
        ensures { Appended self.old (44 ∷ N.text n) self.new }
    {
        self.put_byte(b',');
        self.put_number(n);
    }

    // A row of numbers: commas between, LF at the end.
    pub fn put_line(&mut self, row: &[i32])
        requires { Room self.old (line_of (map signed row.now)) }
        ensures { Appended self.old (line_of (map signed row.now)) self.new }
    {
        let [first, rest @ ..] = row else {
            self.put_byte(b'\n');
            return;
        };
        self.put_number(*first);
        for z in rest {
            self.put_next(*z);
        }
        self.put_byte(b'\n');
    }
}

// How many digits n has.
pub fn decimal_length(n: u64) -> usize
    ensures { result ≡ digits_in n }
{
    n.max(1).ilog10() as usize + 1
}

// How many bytes z has, the minus too.
pub fn signed_length(z: i32) -> usize
    ensures { result ≡ signed_length z }
{
    decimal_length(u64::from(z.unsigned_abs())) + usize::from(z < 0)
}

// How many bytes the line of a row of numbers has.
pub fn line_length(row: &[i32]) -> usize
    requires { row_length row.now < 2 ^ 64 }
    ensures { result ≡ row_length row.now }
{
    if row.is_empty() {
        return 1;
    }
    let mut n = 0;
    for z in row {
        n += signed_length(*z) + 1;
    }
    n
}

// The one line of a refusal, at the front of a list; tells how many bytes it has.
pub fn put_refused(number: u32, place: usize, out: &mut [u8]) -> usize
    requires { length (refused_line number place) ≤ length out.old }
    ensures { Put out.old 0 (refused_line number place) result out.new }
{
    let mut line = Writer::new(out);
    line.put_bytes(b"refused");
    line.put_next(number);
    line.put_next(place);
    line.put_byte(b'\n');
    line.at
}
