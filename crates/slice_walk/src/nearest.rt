// The choice of the next move (`find_nearest_link_to`): of the links that can be taken (`is_move_possible`), the nearest to the current one by the rotation
// sense (`NearestVector`).
ghost use Rattle.std.specs.Prelude.{◌≡◌, true, ◌*◌, ◌<◌, ◌≤◌, length};
ghost use Rattle.geom.specs.Points.{in_range};
ghost use Rattle.segm.specs.Segments.{segments};
ghost use Rattle.graph.specs.Nodes.{part};
ghost use Rattle.moves.specs.ByEnd.{graph_of, NodeAt};
ghost use Rattle.faults.specs.Faultless.{Faultless};
ghost use Rattle.slice_walk.specs.Walk.{is_wide, is_nearer};
ghost use Rattle.slice_walk.specs.Ends.{far_point, add_end, nearest_end, Leaving};
ghost use Rattle.slice_walk.specs.Writing.{SliceLists, NextIs};

use geom::Point;
use moves::Graph;

// Whether the angle from a to p about c is 180 degrees or more, or none.
#[tactic(auto, using(crate::proofs::Ends::le_turned), unfolding(crate::specs::Walk::is_wide, crate::specs::Walk::rotated))]
fn is_wide(clockwise: bool, c: Point, a: Point, p: Point) -> bool
    requires { (in_range c ≡ true) × (in_range a ≡ true) × (in_range p ≡ true) }
    ensures { result ≡ is_wide clockwise c a p }
{
    let z = geom::cross(c, a, p);
    if clockwise { 0 <= z } else { z <= 0 }
}

// Whether p takes the place of b as the nearest to a, turning about c.
#[tactic(auto, using(crate::proofs::Ends::lt_turned), unfolding(crate::specs::Walk::is_nearer, crate::specs::Walk::rotated))]
fn is_nearer(clockwise: bool, c: Point, a: Point, b: Point, p: Point) -> bool
    requires { (in_range c ≡ true) × (in_range a ≡ true) × (in_range b ≡ true) × (in_range p ≡ true) }
    ensures { result ≡ is_nearer clockwise c a b p }
{
    let wide = is_wide(clockwise, c, a, b);
    if wide != is_wide(clockwise, c, a, p) {
        return wide;
    }
    let z = geom::cross(c, p, b);
    if clockwise { z < 0 } else { 0 < z }
}

// Where the link of end e leads from there.
#[tactic(auto, using(crate::proofs::Ends::counted), unfolding(crate::specs::Ends::far_point))]
fn far_point(links: &[i32], e: usize) -> Point
    requires { length (segments links.now) ≤ 1024 }
    ensures { result ≡ far_point (segments links.now) e }
{
    let m = segm::count(links);
    ends::end_point(links, graph::other_end(m, e))
}

// The nearer of the best end so far and e to a, turning about c, where they are left.
#[tactic(auto, using(crate::proofs::Ends::far_near), unfolding(crate::specs::Ends::add_end))]
fn add(
    links: &[i32],
    direction: bool,
    c: Point,
    a: Point,
    best: Option<usize>,
    e: usize,
) -> Option<usize>
    requires { Faultless (segments links.now)
        × (in_range c ≡ true)
        × (in_range a ≡ true)
        × Leaving (λ b. b < 2 * length (segments links.now)) best
        × (e < 2 * length (segments links.now)) }
    ensures { result ≡ add_end (segments links.now) direction c a best e }
{
    match best {
        Some(b) if !is_nearer(direction, c, a, far_point(links, b), far_point(links, e)) => best,
        _ => Some(e),
    }
}

// The nearest of the ends at node v but f that can be left.
fn find_other(
    links: &[i32],
    g: Graph,
    bits: &[u8],
    v: usize,
    f: usize,
    direction: bool,
) -> Option<usize>
    requires { Faultless (segments links.now)
        × (length bits.now ≡ length (segments links.now))
        × NodeAt (length bits.now) g.flat.now g.starts.now v
        × (f < 2 * length bits.now) }
    ensures { result ≡ nearest_end (segments links.now) direction f bits.now None (part g.entry.flat.now g.entry.starts.now v) }
{
    let c = ends::end_point(links, f);
    let a = far_point(links, f);
    let node_ends = &g.flat[g.starts[v] as usize..g.starts[v + 1] as usize];
    let mut best = None;
    for end in node_ends {
        let e = *end as usize;
        if e != f && moves::remains(bits, e, direction) {
            best = add(links, direction, c, a, best, e);
        }
    }
    best
}

// The end that the next move leaves at the point of f, the current link's end there: of those that can be left the nearest other one, or f itself.
pub fn find_nearest(
    links: &[i32],
    g: Graph,
    bits: &[u8],
    f: usize,
    direction: bool,
) -> Option<usize>
    requires { SliceLists (segments links.now) (graph_of g) bits.now × (f < 2 * length bits.now) }
    ensures { NextIs (segments links.now) direction bits.now f result }
{
    let v = g.nodes[f] as usize;
    let other = find_other(links, g, bits, v, f, direction);
    other.or_else(|| moves::remains(bits, f, direction).then_some(f))
}
