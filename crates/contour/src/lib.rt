// Lists of points as flat lists of their coordinates: read, written and turned round, the area of a contour, and its role.
#![tactic(auto)]

ghost use Rattle.std.specs.Prelude.{◌≡◌, true, suc, ◌+◌, ◌*◌, ◌%◌, ◌≤◌, length, get_or, set};
ghost use Rattle.geom.specs.Points.{in_range};
ghost use Rattle.lists.specs.Written.{written};
ghost use Rattle.contour.specs.Points.{coordinates, pair_up, turned_round, origin, AllInRange};
ghost use Rattle.contour.specs.Area.{cross_product, shoelace, is_clockwise, is_large};
ghost use Rattle.contour.specs.Contour.{contour_of};

use geom::Point;

// Point i, the origin past the last one.
pub fn point_at(points: &[i32], i: usize) -> Point
    ensures { result ≡ get_or (pair_up points.now) i origin }
{
    if points.len() / 2 <= i {
        return Point { x: 0, y: 0 };
    }
    Point {
        x: points[2 * i],
        y: points[2 * i + 1],
    }
}

// Writes point q.
pub fn put_point(points: &mut [i32], q: usize, p: Point)
    requires { 2 * suc q ≤ length points.old }
    ensures { points.new ≡ set (set points.old (2 * q) p.x) (2 * q + 1) p.y }
{
    points[2 * q] = p.x;
    points[2 * q + 1] = p.y;
}

// Writes these numbers to the front of out, one by one: a copy of the whole would need a function of the C library.
pub fn copy(points: &[i32], out: &mut [i32])
    requires { length points.now ≤ length out.old }
    ensures { out.new ≡ written points.now out.old }
{
    for (k, z) in points.iter().enumerate() {
        out[k] = *z;
    }
}

// The points the other way round, in place.
pub fn reverse(points: &mut [i32])
    requires { length points.old % 2 ≡ 0 }
    ensures { points.new ≡ turned_round points.old }
{
    let n = points.len() / 2;
    for i in 0..n / 2 {
        let j = n - 1 - i;
        let p = point_at(points, i);
        let q = point_at(points, j);
        put_point(points, i, q);
        put_point(points, j, p);
    }
}

// x1·y2 - x2·y1.
fn cross_product(p: Point, q: Point) -> i64
    requires { (in_range p ≡ true) × (in_range q ≡ true) }
    ensures { result ≡ cross_product p q }
{
    geom::cross(Point { x: 0, y: 0 }, p, q)
}

// The sum of the cross products of neighbouring points, the last to the first included.
fn shoelace(points: &[i32]) -> i64
    requires { (length points.now ≤ 4096) × AllInRange (pair_up points.now) }
    ensures { result ≡ shoelace (pair_up points.now) }
{
    let n = points.len() / 2;
    if n == 0 {
        return 0;
    }
    let mut sum = cross_product(point_at(points, n - 1), point_at(points, 0));
    for i in 1..n {
        sum += cross_product(point_at(points, i - 1), point_at(points, i));
    }
    sum
}

// Whether a contour goes clockwise.
pub fn is_clockwise(points: &[i32]) -> bool
    requires { (length points.now ≤ 4096) × AllInRange (pair_up points.now) }
    ensures { result ≡ is_clockwise (pair_up points.now) }
{
    shoelace(points) < 0
}

// Whether the area of a contour reaches the least one; 0 takes all.
pub fn is_large(points: &[i32], least: u64) -> bool
    requires { (length points.now ≤ 4096) × AllInRange (pair_up points.now) }
    ensures { result ≡ is_large least (pair_up points.now) }
{
    if least == 0 {
        return true;
    }
    least <= geom::absolute(shoelace(points)) / 2
}

// Makes a loop a contour: turns it round where it must be, and returns its role.
pub fn finish(points: &mut [i32], direction: bool, clockwise: bool) -> u8
    requires { (length points.old % 2 ≡ 0) × (length points.old ≤ 4096) × AllInRange (pair_up points.old) }
    ensures { (result ≡ (contour_of clockwise direction (pair_up points.old)).role)
        × (points.new ≡ coordinates (contour_of clockwise direction (pair_up points.old)).points) }
{
    let order = is_clockwise(points);
    let hole = order == direction;
    if hole == (clockwise == order) {
        reverse(points);
    }
    u8::from(hole)
}
