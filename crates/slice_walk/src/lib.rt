// The slice walk over flat lists: a move is named by the end of a link that it leaves, and takes one side bit.
#![tactic(auto)]

mod nearest;

ghost use Rattle.std.specs.Prelude.{◌≡◌, ◌*◌, ◌%◌, ◌≤◌, ◌<◌, length, get_or};
ghost use Rattle.segm.specs.Segments.{segments};
ghost use Rattle.moves.specs.ByEnd.{graph_of};
ghost use Rattle.moves.specs.Moves.{bits_remaining};
ghost use Rattle.slice_walk.specs.Walk.{walks};
ghost use Rattle.slice_walk.specs.Writing.{SliceLists, walk_at, WalkIs, WalksAre};

use moves::Graph;
use nearest::find_nearest;

// The walk that begins with link k, to the points that its moves leave: how many there are, or none where it finds no move.
fn write_walk(
    links: &[i32],
    g: Graph,
    bits: &mut [u8],
    k: usize,
    points: &mut [i32],
) -> Option<usize>
    requires { SliceLists (segments links.now) (graph_of g) bits.old
        × (k < length bits.old)
        × (get_or bits.old k 0 % 4 ≡ 0 → ⊥)
        × (2 * bits_remaining bits.old ≤ length points.old) }
    ensures { WalkIs (segments links.now) (walk_at (segments links.now) bits.old k) bits.old points.old result bits.new points.new }
{
    let m = bits.len();
    let direction = moves::has(bits[k], true);
    let home = ends::end_point(links, k);
    let mut n = 0;
    let mut e = k;
    loop {
        moves::take(g.nodes, bits, e, direction);
        contour::put_point(points, n, ends::end_point(links, e));
        n += 1;
        let f = graph::other_end(m, e);
        if geom::same(ends::end_point(links, f), home) {
            return Some(n);
        }
        e = find_nearest(links, g, bits, f, direction)?;
    }
}

// All walks: their points, how many each has, and its direction. Returns how many there are, or none where one finds no move.
pub fn write_walks(
    links: &[i32],
    g: Graph,
    bits: &mut [u8],
    points: &mut [i32],
    lengths: &mut [u16],
    directions: &mut [u8],
) -> Option<usize>
    requires { SliceLists (segments links.now) (graph_of g) bits.old
        × (4 * length bits.old ≤ length points.old)
        × (2 * length bits.old ≤ length lengths.old)
        × (2 * length bits.old ≤ length directions.old) }
    ensures { WalksAre (segments links.now) (walks (segments links.now) bits.old) points.old lengths.old directions.old result points.new lengths.new directions.new }
{
    let mut walks = 0;
    let mut at = 0;
    for k in 0..bits.len() {
        // A walk takes one of the link's bits at least.
        while bits[k] % 4 != 0 {
            directions[walks] = bits[k] % 2;
            let n = write_walk(links, g, bits, k, &mut points[2 * at..])?;
            lengths[walks] = n as u16;
            walks += 1;
            at += n;
        }
    }
    Some(walks)
}
