// The first stage of a slice: a drawing's check and, where it is accepted, its walks, over all segments, each with its side bits. The memory for its nodes and
// top counts ends with this stage.
ghost use Rattle.std.specs.Prelude.{◌≡◌, map, ◌*◌, ◌%◌, ◌≤◌, length};
ghost use Rattle.segm.specs.Segments.{segments};
ghost use Rattle.graph.specs.Nodes.{Nodes};
ghost use Rattle.count_up.specs.CountUp.{Counted};
ghost use Rattle.drawing_check.specs.Drawing.{drawing_verdict};
ghost use Rattle.drawing_check.specs.Memory.{RightSizes};
ghost use Rattle.checks.specs.Accepted.{Good};
ghost use Rattle.slice_walk.specs.Walk.{walks};
ghost use Rattle.slice_walk.specs.Writing.{WalksAre};
ghost use Rattle.string_slice.specs.Contours.{side_bits};
ghost use Rattle.string_slice.specs.Walking.{WalkRoom, WalkedOf};

use drawing_check::DrawingMemory;
use fill_rule::Rule;
use moves::Graph;
use refusal::{Kind, Refusal};

// Leaves of each fill its side bits.
fn keep_sides(fills: &mut [u8])
    ensures { fills.new ≡ map (λ f. f % 4) fills.old }
{
    for f in fills.iter_mut() {
        *f %= 4;
    }
}

// The walks of an accepted drawing, by its nodes and its top counts, or none where one finds no move. The list `bits` is working memory.
fn walk_links(
    s: &[i32],
    rule: Rule,
    g: Graph,
    tops: &[i32],
    bits: &mut [u8],
    points: &mut [i32],
    lengths: &mut [u16],
    directions: &mut [u8],
) -> Option<usize>
    requires { let d = segments s.now in
        Good d
        × Nodes d g.flat.now g.starts.now g.nodes.now
        × Counted d tops.now
        × (length d ≤ length tops.now)
        × (length d ≤ length bits.old)
        × WalkRoom d points.old lengths.old directions.old }
    ensures { let d = segments s.now in
        WalksAre d (walks d (side_bits rule d)) points.old lengths.old directions.old result points.new lengths.new directions.new }
{
    let m = segm::count(s);
    let bits = &mut bits[..m];
    top_fills::write_fills(s, rule, tops, bits);
    keep_sides(bits);
    slice_walk::write_walks(s, g, bits, points, lengths, directions)
}

// Checks a drawing of up to so many segments and makes its walks where it is accepted: their points, how many each has, and its direction. Tells how many walks
// there are. It owns the memory of this stage, and stands by itself, so that the memory ends with it.
#[inline(never)]
pub fn make_walks<const SEGMENTS: usize, const ENDS: usize, const STARTS: usize>(
    s: &[i32],
    rule: i32,
    walks: &mut [i32],
    walk_lengths: &mut [u16],
    directions: &mut [u8],
) -> Result<usize, Refusal>
    requires { RightSizes SEGMENTS ENDS STARTS
        × (length (segments s.now) ≤ SEGMENTS)
        × WalkRoom (segments s.now) walks.old walk_lengths.old directions.old }
    ensures { WalkedOf s.now (drawing_verdict (segments s.now)) rule result walks.new walk_lengths.new directions.new }
{
    let mut memory = DrawingMemory::<SEGMENTS, ENDS, STARTS>::new();
    let mut bits = [0u8; SEGMENTS];
    memory.check(s)?;
    walk_links(
        s,
        fill_rule::rule_of(rule),
        memory.graph(s),
        &memory.tops,
        &mut bits,
        walks,
        walk_lengths,
        directions,
    )
    .ok_or(Refusal {
        kind: Kind::StuckWalk,
        place: 0,
    })
}
