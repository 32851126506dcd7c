// Vertical segments, which are never open: their tests and their top counts. Beside the ends at their x, from the lowest up (`are_unbroken`): no end lies
// strictly between the ends of one, and no two overlap. Beside the list of the open segments, once all that starts at their feet has entered (`stand_all`):
// each stands in a gap, the segment below the gap under its foot and the one above over its head, or they start there. Its top count is that of the segment
// below the gap, and its own winding.
//
// Each promise has two halves: what holds where the tests were passed, and where they are.
//
// Names: v is a vertical segment, with its foot a and its head b; `foot` and `top` are their heights; k is a place of the list, i one of the drawing, and e is
// an end.
#![tactic(auto)]

ghost use Rattle.std.specs.Prelude.{◌≡◌, ◌↔◌, true, ℕ, ◌+◌, ◌-◌, ◌*◌, ◌≤◌, ◌<◌, length, take, set, ◌+ℤ◌, ◌<ℤ◌, IfSome, IsSome, MatchOption};
ghost use Rattle.geom.specs.Points.{in_range};
ghost use Rattle.segm.specs.Segments.{segments, segment_at};
ghost use Rattle.ends.specs.Ends.{end_point};
ghost use Rattle.faults.specs.Faultless.{Proper, Faultless};
ghost use Rattle.strip.specs.Neighbours.{PlacesOf};
ghost use Rattle.scan.specs.Scan.{ProperAt};
ghost use Rattle.count_up.specs.CountUp.{last_in, BoundedBy};
ghost use Rattle.verticals.specs.Verticals.{lies_under, lies_above, InGapAt, AllStand, Column, VerticalStart, Beyond, Unbroken, ClearIn, Clears};

use geom::Point;
use scan::Sought;
use segm::Segment;

// Whether the segment at place i lies under p: strictly, or with its start there.
fn lies_under(s: &[i32], i: u16, p: Point) -> bool
    requires { ProperAt (segments s.now) i × (in_range p ≡ true) }
    ensures { result ≡ lies_under p (segment_at (segments s.now) i) }
{
    let t = segm::segment_in(s, i as usize);
    let under = 0 < geom::cross(t.a, t.b, p);
    under || geom::same(t.a, p)
}

// The same, above.
fn lies_above(s: &[i32], i: u16, p: Point) -> bool
    requires { ProperAt (segments s.now) i × (in_range p ≡ true) }
    ensures { result ≡ lies_above p (segment_at (segments s.now) i) }
{
    let t = segm::segment_in(s, i as usize);
    let above = geom::cross(t.a, t.b, p) < 0;
    above || geom::same(t.a, p)
}

// Whether the one before place k of the list lies under v, and the one at place k above it.
fn is_in_gap(s: &[i32], v: Segment, list: &[u16], k: usize) -> bool
    requires { Faultless (segments s.now) × Proper v × PlacesOf (segments s.now) list.now × (k ≤ length list.now) }
    ensures { (result ≡ true) ↔ InGapAt (segments s.now) v k list.now }
{
    let a = v.a;
    let b = v.b;
    if 0 < k {
        if !lies_under(s, list[k - 1], a) {
            return false;
        }
    }
    if k < list.len() {
        return lies_above(s, list[k], b);
    }
    true
}

// Where the vertical segment v stands in a gap of the list, if it does: at the guess, else by search.
fn gap_of(s: &[i32], v: Segment, list: &[u16], guess: usize) -> Option<usize>
    requires { Faultless (segments s.now) × Proper v × PlacesOf (segments s.now) list.now }
    ensures gap { IfSome result (λ k. InGapAt (segments s.now) v k list.now) }
    ensures can { ClearIn (segments s.now) v list.now → IsSome result }
{
    if guess <= list.len() && is_in_gap(s, v, list, guess) {
        return Some(guess);
    }
    let b = v.b;
    let k = scan::place_of(s, list, Sought::At(b));
    if is_in_gap(s, v, list, k) {
        return Some(k);
    }
    None
}

// The vertical segment v, at place i of the drawing, stands in a gap of the list, if it does; its top count is that of the one below the gap, and its own
// winding.
fn stand_one(
    s: &[i32],
    v: Segment,
    i: usize,
    list: &[u16],
    guess: usize,
    tops: &mut [i32],
) -> Option<usize>
    requires { let d = segments s.now in
        Faultless d
        × (v ≡ segment_at d i)
        × (i < length d)
        × PlacesOf d list.now
        × (length d ≤ length tops.old)
        × BoundedBy 2110000000 tops.old }
    ensures stands { let d = segments s.now in let l = list.now in let tops₀ = tops.old in
        MatchOption result (tops.new ≡ tops₀) (λ k. InGapAt d v k l × (tops.new ≡ set tops₀ i (last_in tops₀ (take k l) +ℤ v.winding))) }
    ensures can { ClearIn (segments s.now) v list.now → IsSome result }
{
    let k = gap_of(s, v, list, guess)?;
    tops[i] = count_up::count_below(&list[..k], tops) + v.winding;
    Some(k)
}

// Whether every vertical segment from one place up to another stands in a gap of the list, the first one's sought near a guess. Their top counts are written.
pub fn stand_all(
    s: &[i32],
    from: usize,
    to: usize,
    list: &[u16],
    guess: usize,
    tops: &mut [i32],
) -> bool
    requires { let d = segments s.now in
        Faultless d
        × (to ≤ length d)
        × PlacesOf d list.now
        × (length d ≤ length tops.old)
        × BoundedBy 2100000000 tops.old }
    ensures { let d = segments s.now in let l = list.now in
        (result ≡ true → AllStand d from to l tops.old tops.new)
        × ((b : ℕ) → BoundedBy b tops.old → BoundedBy (b + 1000 * (to - from)) tops.new)
        × (Clears d from to l → result ≡ true) }
{
    let mut near = guess;
    for i in from..to {
        let v = segm::segment_in(s, i);
        if scan::is_vertical(v) {
            let Some(place) = stand_one(s, v, i, list, near, tops) else {
                return false;
            };
            near = place;
        }
    }
    true
}

// The last vertical segment of a column of ends so far, by the heights of its foot and head.
#[derive(Clone, Copy)]
struct Last {
    foot: i32,
    top: i32,
}

// End e is passed: it does not lie strictly between foot and top, and if a vertical segment starts there it is not below the top.
fn pass_end(s: &[i32], e: usize, last: Last) -> Option<Last>
    requires { e < 2 * length (segments s.now) }
    ensures beyond { IfSome result (λ next. Beyond (segments s.now) e last.foot last.top next.foot next.top) }
    ensures can { let d = segments s.now in let y = (end_point d e).y in
        (last.foot <ℤ y → y <ℤ last.top → ⊥) → (VerticalStart d e → y <ℤ last.top → ⊥) → IsSome result }
{
    let p = ends::end_point(s, e);
    let y = p.y;
    if (last.foot < y) & (y < last.top) {
        return None;
    }
    if e < segm::count(s) {
        let t = segm::segment_in(s, e);
        if scan::is_vertical(t) {
            if y < last.top {
                return None;
            }
            return Some(Last {
                foot: y,
                top: t.b.y,
            });
        }
    }
    Some(last)
}

// Whether no end of a column lies within a vertical segment that starts in it, and these do not overlap.
pub fn are_unbroken(s: &[i32], ends: &[u16]) -> bool
    requires { Faultless (segments s.now) × Column (segments s.now) ends.now }
    ensures { (result ≡ true) ↔ Unbroken (segments s.now) ends.now }
{
    let mut last = Last {
        foot: i32::MIN,
        top: i32::MIN,
    };
    for e in ends {
        let Some(next) = pass_end(s, *e as usize, last) else {
            return false;
        };
        last = next;
    }
    true
}
