// Paths as points, written to a lent list.
ghost use Rattle.std.specs.Prelude.{◌≡◌, suc, ◌*◌, ◌≤◌, ◌<◌, length, get_or};
ghost use Rattle.lists.specs.Written.{written};
ghost use Rattle.segm.specs.Segments.{segments};
ghost use Rattle.contour.specs.Points.{coordinates, origin};
ghost use Rattle.clip_paths.specs.Writing.{through_ends, ends_points};

use geom::Point;

// Point i that the walk comes through whose moves leave these ends.
#[tactic(auto, using(crate::proofs::Writing::Points::places_through))]
fn point_through(links: &[i32], moves: &[u16], i: usize) -> Point
    requires { (length (segments links.now) ≤ 1024) × (0 < length moves.now) × (i ≤ length moves.now) }
    ensures { result ≡ get_or (through_ends (segments links.now) moves.now) i origin }
{
    if i == 0 {
        return ends::end_point(links, moves[0] as usize);
    }
    let e = moves[i - 1] as usize;
    ends::end_point(links, graph::other_end(segm::count(links), e))
}

// Point q of the path: a backward path is reversed.
#[tactic(auto, using(crate::proofs::Writing::Points::places))]
fn path_point(links: &[i32], moves: &[u16], out: bool, q: usize) -> Point
    requires { (length (segments links.now) ≤ 1024) × (0 < length moves.now) × (q ≤ length moves.now) }
    ensures { result ≡ get_or (ends_points (segments links.now) out moves.now) q origin }
{
    let i = if out { q } else { moves.len() - q };
    point_through(links, moves, i)
}

// Writes the points of the path whose moves leave these ends.
pub fn write_path(links: &[i32], moves: &[u16], out: bool, points: &mut [i32])
    requires { (length (segments links.now) ≤ 1024) × (0 < length moves.now) × (2 * suc (length moves.now) ≤ length points.old) }
    ensures { points.new ≡ written (coordinates (ends_points (segments links.now) out moves.now)) points.old }
{
    for q in 0..=moves.len() {
        contour::put_point(points, q, path_point(links, moves, out, q));
    }
}
