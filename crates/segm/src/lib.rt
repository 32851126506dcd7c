// What a drawing is: segments, read from a flat list of numbers and written to one.
// Any list of numbers can be read at any place; writing asks for room.
#![tactic(auto)]

ghost use Rattle.std.specs.Prelude.{◌≡◌, ◌++◌, ◌+◌, ◌*◌, ◌≤◌, ◌<◌, length, take, drop};
ghost use Rattle.segm.specs.Segments.{width, count, segments, segment_at, numbers_of};

use geom::Point;

// A segment from a to b, a being the lesser. The winding is positive when the outline runs from a to b. Of the line bits, 1 is a line drawn from a to b and 2 one
// from b to a. The lot is that of the flour, 0 for none.
#[derive(Clone, Copy)]
pub struct Segment {
    pub a: Point,
    pub b: Point,
    pub winding: i32,
    pub bits: i32,
    pub lot: i32,
}

// How many numbers a segment has.
pub const WIDTH: usize = 7;

// How many segments a drawing has at most.
pub const MOST: usize = 1024;

// How many numbers the largest drawing has.
pub const NUMBERS: usize = MOST * WIDTH;

// How many segments a small drawing has at most. Working memory is cleared before use, and a small drawing has less of it.
pub const SMALL: usize = 128;

// How many segments s holds.
pub fn count(s: &[i32]) -> usize
    ensures { result ≡ count s.now }
{
    s.len() / WIDTH
}

// The segment at place i of those that s has. Without a test, as the sweep takes most of its time for these reads.
pub fn segment_in(s: &[i32], i: usize) -> Segment
    requires { i < length (segments s.now) }
    ensures { result ≡ segment_at (segments s.now) i }
{
    let k = i * WIDTH;
    let a = Point {
        x: s[k],
        y: s[k + 1],
    };
    let b = Point {
        x: s[k + 2],
        y: s[k + 3],
    };
    Segment {
        a,
        b,
        winding: s[k + 4],
        bits: s[k + 5],
        lot: s[k + 6],
    }
}

// The segment at place i, all zeros past the last one.
pub fn segment_at(s: &[i32], i: usize) -> Segment
    ensures { result ≡ segment_at (segments s.now) i }
{
    if s.len() / WIDTH <= i {
        let o = Point { x: 0, y: 0 };
        return Segment {
            a: o,
            b: o,
            winding: 0,
            bits: 0,
            lot: 0,
        };
    }
    segment_in(s, i)
}

// Writes t at place i.
pub fn put(s: &mut [i32], i: usize, t: Segment)
    requires { i * width + width ≤ length s.old }
    ensures { s.new ≡ take (i * width) s.old ++ (numbers_of t ++ drop (i * width + width) s.old) }
{
    let k = i * WIDTH;
    s[k..k + WIDTH].copy_from_slice(&[t.a.x, t.a.y, t.b.x, t.b.y, t.winding, t.bits, t.lot]);
}
