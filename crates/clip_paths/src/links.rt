// The paths of a clip run, written to lent lists. The links are all segments of the drawing, and the list `bits` has the line bits of each that remain.
ghost use Rattle.std.specs.Prelude.{◌≡◌, ◌*◌, ◌%◌, ◌≤◌, ◌<◌, length, get_or};
ghost use Rattle.lists.specs.Written.{written};
ghost use Rattle.segm.specs.Segments.{segments};
ghost use Rattle.contour.specs.Points.{coordinates, Writes};
ghost use Rattle.moves.specs.ByEnd.{graph_of};
ghost use Rattle.moves.specs.Moves.{taken_all};
ghost use Rattle.clip_paths.specs.Paths.{path_points, totals};
ghost use Rattle.clip_paths.specs.Writing.{path_at, ClipLists, bits_paths};

use super::Totals;
use super::path::write_path;
use super::sums::travel;
use moves::Graph;

// Writes the path that begins with link k, and tells how many points it has. The list `moves` is working memory.
#[tactic(auto, using(clip_walk::proofs::Flat::follow_few, lists::proofs::Written::take_written, crate::proofs::Writing::OnePath::points_of_lem, crate::proofs::Writing::OnePath::number_of, crate::proofs::Writing::OnePath::bits_of), unfolding(clip_walk::specs::Flat::moves_on, clip_walk::specs::Flat::bits_after))]
fn next_path(
    links: &[i32],
    g: Graph,
    bits: &mut [u8],
    k: usize,
    moves: &mut [u16],
    points: &mut [i32],
) -> usize
    requires { ClipLists (segments links.now) (graph_of g) bits.old
        × (k < length bits.old)
        × (get_or bits.old k 0 % 4 ≡ 0 → ⊥)
        × (2 * length bits.old ≤ length moves.old)
        × (2 * length (path_points (segments links.now) (path_at (segments links.now) bits.old k)) ≤ length points.old) }
    ensures { (result ≡ length (path_points (segments links.now) (path_at (segments links.now) bits.old k)))
        × (points.new ≡ written (coordinates (path_points (segments links.now) (path_at (segments links.now) bits.old k))) points.old)
        × (bits.new ≡ taken_all bits.old (path_at (segments links.now) bits.old k)) }
{
    let out = moves::has(bits[k], true);
    moves::take(g.nodes, bits, k, out);
    let n = clip_walk::follow(g, bits, k, out, moves);
    write_path(links, &moves[..n], out, points);
    n + 1
}

// The clip run by these line bits: writes every path, and how many points each has. The travel comes first, as the walk takes the bits. The list `moves` is
// working memory.
pub fn clip_links(
    links: &[i32],
    g: Graph,
    bits: &mut [u8],
    moves: &mut [u16],
    points: &mut [i32],
    lengths: &mut [u32],
) -> Totals
    requires { ClipLists (segments links.now) (graph_of g) bits.old
        × (2 * length bits.old ≤ length moves.old)
        × (8 * length bits.old ≤ length points.old)
        × (2 * length bits.old ≤ length lengths.old) }
    ensures { (result ≡ totals (bits_paths (segments links.now) bits.old))
        × Writes (bits_paths (segments links.now) bits.old) points.old lengths.old points.new lengths.new }
{
    let travel = travel(links, bits);
    let mut paths = 0;
    let mut at = 0;
    for k in 0..bits.len() {
        // A path takes one of the link's bits at least.
        while bits[k] % 4 != 0 {
            let n = next_path(links, g, bits, k, moves, &mut points[2 * at..]);
            lengths[paths] = n as u32;
            paths += 1;
            at += n;
        }
    }
    Totals {
        paths,
        points: at,
        steps: at - paths,
        travel,
    }
}
