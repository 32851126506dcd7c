// The ordered list of the open segments, by their places, the lowest first: where a point or a segment stands in it, and how one enters and one leaves, in
// place.
#![tactic(auto)]

ghost use Rattle.std.specs.Prelude.{◌≡◌, ◌+◌, ◌-◌, ◌≤◌, ◌<◌, length, take};
ghost use Rattle.segm.specs.Segments.{segments};
ghost use Rattle.faults.specs.Faultless.{Proper};
ghost use Rattle.strip.specs.Strip.{is_vertical, under_by_side};
ghost use Rattle.scan.specs.Scan.{is_below, below_at, insert_at, remove_at, RoomFor, Changes, ProperAt, AllProper, SoughtInRange};

use geom::Point;
use segm::Segment;

// Whether t is lower than u, where both are: the later start is seen from the other segment.
pub fn is_lower(t: Segment, u: Segment) -> bool
    requires { Proper t × Proper u }
    ensures { result ≡ under_by_side t u }
{
    let a = t.a;
    let b = t.b;
    let c = u.a;
    let d = u.b;
    if geom::less(a, c) {
        return 0 < geom::cross(a, b, c);
    }
    if geom::less(c, a) {
        return geom::cross(c, d, a) < 0;
    }
    0 < geom::cross(a, b, d)
}

// What a place in the list is sought for: a point, or a segment.
#[derive(Clone, Copy)]
pub enum Sought {
    At(Point),
    Along(Segment),
}

// Whether the segment at place i is below what is sought.
fn is_below(s: &[i32], i: usize, sought: Sought) -> bool
    requires { ProperAt (segments s.now) i × SoughtInRange sought }
    ensures { result ≡ is_below (segments s.now) sought i }
{
    let t = segm::segment_in(s, i);
    match sought {
        Sought::At(p) => 0 < geom::cross(t.a, t.b, p),
        Sought::Along(u) => is_lower(t, u),
    }
}

// Whether t is vertical.
pub fn is_vertical(t: Segment) -> bool
    ensures { result ≡ is_vertical t }
{
    let a = t.a;
    let b = t.b;
    a.x == b.x
}

// A place at which the list changes from below to above what is sought, by bisection: there is one in any list, while `partition_point` promises none but of
// a list in order.
pub fn place_of(s: &[i32], list: &[u16], sought: Sought) -> usize
    requires { AllProper (segments s.now) list.now × SoughtInRange sought }
    ensures { Changes (below_at (segments s.now) sought list.now) 0 (length list.now) result }
{
    let mut low: usize = 0;
    let mut high = list.len();
    while low < high {
        let middle = low + (high - low) / 2;
        if is_below(s, list[middle] as usize, sought) {
            low = middle + 1;
        } else {
            high = middle;
        }
    }
    low
}

// So many entries move at a time, whatever lies past the list: as many rounds as the last time, mostly, where a move of just the rest takes twice as long.
pub const BLOCK: usize = 16;

// i goes to place k of the list, and those from there on move up, the last of them first.
pub fn insert(list: &mut [u16], used: usize, k: usize, i: u16)
    requires { (k ≤ used) × RoomFor used list.old }
    ensures { take (used + 1) list.new ≡ insert_at k i (take used list.old) }
{
    for block in (0..(used - k).div_ceil(BLOCK)).rev() {
        let j = k + block * BLOCK;
        list.copy_within(j..j + BLOCK, j + 1);
    }
    list[k] = i;
}

// The one at place k leaves the list, and those after it move down.
pub fn remove(list: &mut [u16], used: usize, k: usize)
    requires { (k < used) × RoomFor used list.old }
    ensures { take (used - 1) list.new ≡ remove_at k (take used list.old) }
{
    for block in 0..(used - 1 - k).div_ceil(BLOCK) {
        let j = k + block * BLOCK;
        list.copy_within(j + 1..j + 1 + BLOCK, j);
    }
}
