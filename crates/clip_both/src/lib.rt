// Both clip runs of a drawing, inside and outside, by one check.
#![tactic(auto)]

ghost use Rattle.std.specs.Prelude.{◌≡◌, true, ◌↔◌, ◌≤◌, length, pos};
ghost use Rattle.refusal.specs.Order.{accepted};
ghost use Rattle.segm.specs.Segments.{segments};
ghost use Rattle.drawing_check.specs.Memory.{RightSizes};
ghost use Rattle.checks.specs.Runs.{asked};
ghost use Rattle.string_clip.specs.Run.{lists, run_of, Room, outcome};
ghost use Rattle.clip_both.specs.Together.{Together};

use clip_paths::Totals;
use drawing_check::DrawingMemory;
use refusal::Refusal;

// What two clip runs answer.
#[derive(Clone, Copy)]
pub struct Both {
    pub inside: Result<Totals, Refusal>,
    pub outside: Result<Totals, Refusal>,
}

// Both refused.
fn neither(refusal: Refusal) -> Both
    ensures { result ≡ record { inside = Err refusal; outside = Err refusal } }
{
    Both {
        inside: Err(refusal),
        outside: Err(refusal),
    }
}

// Whether lent lists are long enough for a drawing.
fn has_room(s: &[i32], points: &[i32], lengths: &[u32]) -> bool
    ensures { (result ≡ true) ↔ Room s.now (lists points.now lengths.now) }
{
    let n = segm::count(s);
    !(refusal::is_short(points.len(), 8, n) | refusal::is_short(lengths.len(), 2, n))
}

// Both runs of a drawing of up to so many segments, of which this was asked first. It owns their memory. No lent list is too short, so the runs have one
// verdict.
fn both_in<const SEGMENTS: usize, const ENDS: usize, const STARTS: usize>(
    s: &[i32],
    rule: i32,
    boundary: i32,
    in_points: &mut [i32],
    in_lengths: &mut [u32],
    out_points: &mut [i32],
    out_lengths: &mut [u32],
) -> Both
    requires { RightSizes SEGMENTS ENDS STARTS
        × (length (segments s.now) ≤ SEGMENTS)
        × (asked (run_of s.now rule (pos 0) boundary (lists in_points.old in_lengths.old)) ≡ accepted)
        × Room s.now (lists in_points.old in_lengths.old) × Room s.now (lists out_points.old out_lengths.old) }
    ensures { Together s.now rule boundary
        (outcome result.inside (lists in_points.new in_lengths.new)) (lists in_points.old in_lengths.old)
        (outcome result.outside (lists out_points.new out_lengths.new)) (lists out_points.old out_lengths.old) }
{
    let mut memory = DrawingMemory::<SEGMENTS, ENDS, STARTS>::new();
    let mut bits = [0u8; SEGMENTS];
    let mut moves = [0u16; ENDS];
    if let Err(refusal) = memory.check(s) {
        return neither(refusal);
    }
    string_clip::keep_lines(s, rule, 0, boundary, &memory.tops, &mut bits);
    let inside = string_clip::clip_kept(
        s,
        &memory.flat,
        &memory.starts,
        &memory.nodes,
        &mut bits,
        &mut moves,
        in_points,
        in_lengths,
    );
    string_clip::keep_lines(s, rule, 1, boundary, &memory.tops, &mut bits);
    let outside = string_clip::clip_kept(
        s,
        &memory.flat,
        &memory.starts,
        &memory.nodes,
        &mut bits,
        &mut moves,
        out_points,
        out_lengths,
    );
    Both {
        inside: Ok(inside),
        outside: Ok(outside),
    }
}

// Both runs by one check, in memory for a small drawing or for any.
fn both_at_once(
    numbers: &[i32],
    rule: i32,
    boundary: i32,
    in_points: &mut [i32],
    in_lengths: &mut [u32],
    out_points: &mut [i32],
    out_lengths: &mut [u32],
) -> Both
    requires { Room numbers.now (lists in_points.old in_lengths.old) × Room numbers.now (lists out_points.old out_lengths.old) }
    ensures { Together numbers.now rule boundary
        (outcome result.inside (lists in_points.new in_lengths.new)) (lists in_points.old in_lengths.old)
        (outcome result.outside (lists out_points.new out_lengths.new)) (lists out_points.old out_lengths.old) }
{
    let points = in_points.len();
    if let Err(refusal) = checks::ask_clip(numbers, rule, 0, boundary, points, in_lengths.len()) {
        return neither(refusal);
    }
    if segm::count(numbers) <= segm::SMALL {
        return both_in::<{ segm::SMALL }, { ends::SMALL }, { graph::SMALL_STARTS }>(
            numbers,
            rule,
            boundary,
            in_points,
            in_lengths,
            out_points,
            out_lengths,
        );
    }
    both_in::<{ segm::MOST }, { ends::MOST }, { graph::STARTS }>(
        numbers,
        rule,
        boundary,
        in_points,
        in_lengths,
        out_points,
        out_lengths,
    )
}

// Both clip runs, inside and outside, with one drawing, rule and boundary, by one check; where a list is too short, which one run may be refused for, by two.
pub fn clip_both(
    numbers: &[i32],
    rule: i32,
    boundary: i32,
    inside_points: &mut [i32],
    inside_lengths: &mut [u32],
    outside_points: &mut [i32],
    outside_lengths: &mut [u32],
) -> Both
    ensures { Together numbers.now rule boundary
        (outcome result.inside (lists inside_points.new inside_lengths.new)) (lists inside_points.old inside_lengths.old)
        (outcome result.outside (lists outside_points.new outside_lengths.new)) (lists outside_points.old outside_lengths.old) }
{
    if has_room(numbers, inside_points, inside_lengths)
        & has_room(numbers, outside_points, outside_lengths)
    {
        return both_at_once(
            numbers,
            rule,
            boundary,
            inside_points,
            inside_lengths,
            outside_points,
            outside_lengths,
        );
    }
    let inside = string_clip::clip(numbers, rule, 0, boundary, inside_points, inside_lengths);
    let outside = string_clip::clip(numbers, rule, 1, boundary, outside_points, outside_lengths);
    Both {
        inside: inside,
        outside: outside,
    }
}
