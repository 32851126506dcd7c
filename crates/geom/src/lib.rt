// Points: their order, their range, cross products and distances, over i32 coordinates.
#![tactic(auto)]

ghost use Rattle.std.specs.Prelude.{◌≡◌, true, ◌≤◌, nat_abs, ◌-ℤ◌};
ghost use Rattle.geom.specs.Points.{within, lt_p, eq_p, in_range, travel, cross, between};

// A point, in hundredths of a millimetre, y up.
#[derive(Clone, Copy, PartialEq, Eq, PartialOrd, Ord)]
pub struct Point {
    pub x: i32,
    pub y: i32,
}

// Whether p is less than q: by x, then y.
pub fn less(p: Point, q: Point) -> bool
    ensures { result ≡ lt_p p q }
{
    p < q
}

// Whether p and q are one point.
pub fn same(p: Point, q: Point) -> bool
    ensures { result ≡ eq_p p q }
{
    p == q
}

// Whether z is from low to high.
pub fn is_within(low: i32, high: i32, z: i32) -> bool
    ensures { result ≡ within low high z }
{
    low <= z && z <= high
}

// Whether both coordinates are in range.
pub fn is_in_range(p: Point) -> bool
    ensures { result ≡ in_range p }
{
    is_within(-16777216, 16777216, p.x) && is_within(-16777216, 16777216, p.y)
}

// z - w, which always fits the wider type.
fn difference(z: i32, w: i32) -> i64
    ensures { result ≡ z -ℤ w }
{
    z as i64 - w as i64
}

// The cross product of the ways from p to q and from p to r: positive if r is left of the way to q, negative if right.
pub fn cross(p: Point, q: Point, r: Point) -> i64
    requires { (in_range p ≡ true) × (in_range q ≡ true) × (in_range r ≡ true) }
    ensures { result ≡ cross p q r }
{
    let ux = difference(q.x, p.x);
    let uy = difference(q.y, p.y);
    let vx = difference(r.x, p.x);
    let vy = difference(r.y, p.y);
    ux * vy - uy * vx
}

// Whether r lies on the line from p to q, strictly between the two.
pub fn strictly_between(p: Point, q: Point, r: Point) -> bool
    requires { (in_range p ≡ true) × (in_range q ≡ true) × (in_range r ≡ true) }
    ensures { result ≡ between p q r }
{
    if !less(p, r) {
        return false;
    }
    if !less(r, q) {
        return false;
    }
    cross(p, q, r) == 0
}

// |z|, up to 2^60: no distance and no shoelace sum is larger.
pub fn absolute(z: i64) -> u64
    requires { nat_abs z ≤ 1152921504606846976 }
    ensures { result ≡ nat_abs z }
{
    z.unsigned_abs()
}

// |z - w|.
pub fn distance(z: i32, w: i32) -> u64
    ensures { result ≡ nat_abs (z -ℤ w) }
{
    z.abs_diff(w) as u64
}

// The travel from p to q, |dx| + |dy|.
pub fn travel(p: Point, q: Point) -> u64
    ensures { result ≡ travel p q }
{
    distance(q.x, p.x) + distance(q.y, p.y)
}
