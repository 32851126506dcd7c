// When two segments meet wrongly.
#![tactic(auto)]

ghost use Rattle.std.specs.Prelude.{◌≡◌, ◌&&◌, ◌||◌};
ghost use Rattle.faults.specs.Faultless.{Proper};
ghost use Rattle.meetings.specs.Meetings.{parts, in_interior, same_ends, meets_wrongly};

use segm::Segment;

// Whether t's ends lie strictly on opposite sides of s.
fn parts(s: Segment, t: Segment) -> bool
    requires { Proper s × Proper t }
    ensures { result ≡ parts s t }
{
    let a = s.a;
    let b = s.b;
    let p = geom::cross(a, b, t.a);
    let q = geom::cross(a, b, t.b);
    if p < 0 {
        return 0 < q;
    }
    if 0 < p {
        return q < 0;
    }
    false
}

// Whether the ends of each lie strictly on opposite sides of the other.
fn crosses(s: Segment, t: Segment) -> bool
    requires { Proper s × Proper t }
    ensures { result ≡ (parts s t && parts t s) }
{
    parts(s, t) && parts(t, s)
}

// Whether an end of t lies on s strictly between its ends.
#[tactic(auto, unfolding(crate::specs::Meetings::in_interior))]
fn end_in_interior(s: Segment, t: Segment) -> bool
    requires { Proper s × Proper t }
    ensures { result ≡ (in_interior s t.a || in_interior s t.b) }
{
    geom::strictly_between(s.a, s.b, t.a) || geom::strictly_between(s.a, s.b, t.b)
}

// Whether both ends are equal.
#[tactic(auto, unfolding(crate::specs::Meetings::same_ends))]
fn same_ends(s: Segment, t: Segment) -> bool
    ensures { result ≡ same_ends s t }
{
    geom::same(s.a, t.a) && geom::same(s.b, t.b)
}

// Whether two segments meet wrongly. One that starts to the right of the other's b does not: that is the cheap test, and the commonest.
pub fn meets_wrongly(s: Segment, t: Segment) -> bool
    requires { Proper s × Proper t }
    ensures { result ≡ meets_wrongly s t }
{
    let b = s.b;
    let c = t.a;
    if b.x < c.x {
        return false;
    }
    if crosses(s, t) {
        return true;
    }
    if end_in_interior(s, t) {
        return true;
    }
    if end_in_interior(t, s) {
        return true;
    }
    same_ends(s, t)
}
