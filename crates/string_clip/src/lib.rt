// The clip run: the cut lines inside or outside a drawing's filled area, as paths.
#![tactic(auto)]

ghost use Rattle.std.specs.Prelude.{◌≡◌, ◌*◌, ◌≤◌, length, take};
ghost use Rattle.segm.specs.Segments.{segments};
ghost use Rattle.graph.specs.Nodes.{Nodes};
ghost use Rattle.count_up.specs.CountUp.{Counted};
ghost use Rattle.contour.specs.Points.{Writes};
ghost use Rattle.fill_rule.specs.FillRule.{rule_of};
ghost use Rattle.build.specs.Links.{filter_of, masked_bits};
ghost use Rattle.checks.specs.Accepted.{Good};
ghost use Rattle.drawing_check.specs.Memory.{RightSizes};
ghost use Rattle.refusal.specs.Order.{accepted};
ghost use Rattle.checks.specs.Runs.{asked};
ghost use Rattle.clip_paths.specs.Paths.{totals};
ghost use Rattle.clip_paths.specs.Writing.{bits_paths};
ghost use Rattle.string_clip.specs.Run.{lists, run_of, Room, outcome, clip_outcome};

use clip_paths::Totals;
use drawing_check::DrawingMemory;
use moves::Graph;
use refusal::Refusal;

// Writes the line bits of the segments of an accepted drawing that a run keeps, none of the others, to the front of `bits`.
pub fn keep_lines(s: &[i32], rule: i32, invert: i32, boundary: i32, tops: &[i32], bits: &mut [u8])
    requires { let d = segments s.now in
        Good d × Counted d tops.now × (length d ≤ length tops.now) × (length d ≤ length bits.old) }
    ensures { let d = segments s.now in
        take (length d) bits.new ≡ masked_bits (rule_of rule) (filter_of invert boundary) d }
{
    let m = segm::count(s);
    let by = fill_rule::rule_of(rule);
    let filter = build::filter_of(invert, boundary);
    build::masked_bits(s, by, filter, tops, &mut bits[..m]);
}

// The paths of an accepted drawing with its nodes, by the line bits at the front of `bits`, which are taken. The list `moves` is working memory.
pub fn clip_kept(
    s: &[i32],
    flat: &[u16],
    starts: &[u16],
    nodes: &[u16],
    bits: &mut [u8],
    moves: &mut [u16],
    points: &mut [i32],
    lengths: &mut [u32],
) -> Totals
    requires { let d = segments s.now in
        Good d
        × Nodes d (take (2 * length d) flat.now) starts.now (take (2 * length d) nodes.now)
        × (length d ≤ length bits.old)
        × (2 * length d ≤ length moves.old)
        × Room s.now (lists points.old lengths.old) }
    ensures { let d = segments s.now in let paths = bits_paths d (take (length d) bits.old) in
        (result ≡ totals paths) × Writes paths points.old lengths.old points.new lengths.new }
{
    let m = segm::count(s);
    let e = 2 * m;
    let g = Graph {
        flat: &flat[..e],
        starts,
        nodes: &nodes[..e],
    };
    clip_paths::clip_links(s, g, &mut bits[..m], moves, points, lengths)
}

// The run of a drawing of up to so many segments, of which this was asked first. It owns the run's memory.
fn clip_in<const SEGMENTS: usize, const ENDS: usize, const STARTS: usize>(
    s: &[i32],
    rule: i32,
    invert: i32,
    boundary: i32,
    points: &mut [i32],
    lengths: &mut [u32],
) -> Result<Totals, Refusal>
    requires { RightSizes SEGMENTS ENDS STARTS
        × (length (segments s.now) ≤ SEGMENTS)
        × (asked (run_of s.now rule invert boundary (lists points.old lengths.old)) ≡ accepted) }
    ensures { outcome result (lists points.new lengths.new) ≡ clip_outcome s.now rule invert boundary (lists points.old lengths.old) }
{
    let mut memory = DrawingMemory::<SEGMENTS, ENDS, STARTS>::new();
    let mut bits = [0u8; SEGMENTS];
    let mut moves = [0u16; ENDS];
    memory.check(s)?;
    keep_lines(s, rule, invert, boundary, &memory.tops, &mut bits);
    Ok(clip_kept(
        s,
        &memory.flat,
        &memory.starts,
        &memory.nodes,
        &mut bits,
        &mut moves,
        points,
        lengths,
    ))
}

// The cut lines inside (invert 0) or outside (invert 1), as x, y pairs and one length a path, or the refusal, in memory for a small drawing or for any.
pub fn clip(
    numbers: &[i32],
    rule: i32,
    invert: i32,
    boundary: i32,
    points: &mut [i32],
    lengths: &mut [u32],
) -> Result<Totals, Refusal>
    ensures { outcome result (lists points.new lengths.new) ≡ clip_outcome numbers.now rule invert boundary (lists points.old lengths.old) }
{
    checks::ask_clip(numbers, rule, invert, boundary, points.len(), lengths.len())?;
    if segm::count(numbers) <= segm::SMALL {
        return clip_in::<{ segm::SMALL }, { ends::SMALL }, { graph::SMALL_STARTS }>(
            numbers, rule, invert, boundary, points, lengths,
        );
    }
    clip_in::<{ segm::MOST }, { ends::MOST }, { graph::STARTS }>(
        numbers, rule, invert, boundary, points, lengths,
    )
}
