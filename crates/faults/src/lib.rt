// Refusals 3 to 7 and 13: what can be wrong with one segment, by place.
#![tactic(auto)]

ghost use Rattle.std.specs.Prelude.{◌≡◌, ◌<◌};
ghost use Rattle.segm.specs.Segments.{count, segments};
ghost use Rattle.faults.specs.Faults.{fault, fault_at, faults_of};

use geom::Point;
use refusal::{Kind, Refusal};
use segm::Segment;

// The first of refusals 3, 4, 5, 6, 13, 7 that fits t, where the segment before it starts at p.
#[tactic(auto, unfolding(crate::specs::Faults::fault, crate::specs::Faults::ends_in_range, crate::specs::Faults::rises, crate::specs::Faults::winding_in_range, crate::specs::Faults::bits_in_range, crate::specs::Faults::lot_in_range))]
fn fault(p: Point, t: Segment) -> Option<Kind>
    ensures { result ≡ fault p t }
{
    let a = t.a;
    let b = t.b;
    if !(geom::is_in_range(a) & geom::is_in_range(b)) {
        return Some(Kind::OutOfRange);
    }
    if !geom::less(a, b) {
        return Some(Kind::NotRising);
    }
    if !geom::is_within(-1000, 1000, t.winding) {
        return Some(Kind::BadWinding);
    }
    if !geom::is_within(0, 3, t.bits) {
        return Some(Kind::BadBits);
    }
    if !geom::is_within(0, 9999, t.lot) {
        return Some(Kind::BadLot);
    }
    if geom::less(a, p) {
        return Some(Kind::OutOfOrder);
    }
    None
}

// What is wrong at place i. No segment is before the first one: it stands there itself.
#[tactic(auto, unfolding(crate::specs::Faults::fault_at))]
fn fault_at(s: &[i32], i: usize) -> Option<Kind>
    requires { i < count s.now }
    ensures { result ≡ fault_at (segments s.now) i }
{
    let before = segm::segment_in(s, i.saturating_sub(1));
    fault(before.a, segm::segment_in(s, i))
}

// The first place with a fault.
pub fn find_fault(s: &[i32]) -> Result<(), Refusal>
    ensures { result ≡ faults_of (segments s.now) }
{
    refusal::find_first(
        segm::count(s),
        |i| -> Option<Kind>
            requires { i < count s.now }
            ensures { result ≡ fault_at (segments s.entry.now) i }
        { fault_at(s, i) },
    )
}
