// The split run: any numbers and any lengths of lent lists get an answer.
#![tactic(auto)]

ghost use Rattle.std.specs.Prelude.{◌≡◌, ◌+◌, ◌*◌, ◌≤◌, length};
ghost use Rattle.contour.specs.Points.{pair_up, Writes};
ghost use Rattle.split_loops.specs.Loops.{split_loops};
ghost use Rattle.split_loops.specs.Splitting.{Splittable, loop_totals};
ghost use Rattle.string_split.specs.Run.{out_of_range_at, split_verdict, lists, outcome, split_outcome};

use refusal::{Kind, Refusal};
use split_loops::{
    COORDINATES, HEADS, LoopTotals, MOST, SMALL, SMALL_COORDINATES, SMALL_HEADS, SplitMemory,
};

// What is wrong with point i, which must be in range.
#[tactic(auto, unfolding(crate::specs::Run::out_of_range_at))]
fn out_of_range_at(points: &[i32], i: usize) -> Option<Kind>
    ensures { result ≡ out_of_range_at (pair_up points.now) i }
{
    if geom::is_in_range(contour::point_at(points, i)) {
        None
    } else {
        Some(Kind::OutOfRange)
    }
}

// The verdict on a split run.
fn check_split(points: &[i32], out: usize, lengths: usize) -> Result<(), Refusal>
    ensures { result ≡ split_verdict points.now out lengths }
{
    let n = points.len() / 2;
    let wrong = refusal::is_wrong_length(points.len(), 2, MOST);
    let short = refusal::is_short(out, 2, n) | refusal::is_short(lengths, 1, n);
    refusal::asked_first(wrong, false, short)?;
    refusal::find_first(n, |i| out_of_range_at(points, i))
}

// The loops of up to POINTS points. It owns the memory for these, and stands by itself, so that no other memory stands beside it.
#[inline(never)]
fn split_in<const POINTS: usize, const NUMBERS: usize, const BINS: usize>(
    points: &[i32],
    min_area: u64,
    out: &mut [i32],
    lengths: &mut [u32],
) -> LoopTotals
    requires sizes { (POINTS ≤ 2048) × (NUMBERS ≡ 2 * POINTS) × (BINS ≡ POINTS + 1) }
    requires splittable { Splittable points.now × (length points.now ≤ NUMBERS) }
    requires room { (length points.now ≤ length out.old) × (length (pair_up points.now) ≤ length lengths.old) }
    ensures { (result ≡ loop_totals (split_loops min_area (pair_up points.now)))
        × Writes (split_loops min_area (pair_up points.now)) out.old lengths.old out.new lengths.new }
{
    let memory = SplitMemory {
        heads: &mut [0; BINS],
        nexts: &mut [0; POINTS],
        seen: &mut [0; NUMBERS],
        numbers: &mut [0; POINTS],
        buffer: &mut [0; NUMBERS],
    };
    split_loops::split_loops(points, min_area, memory, out, lengths)
}

// The loops of up to 2,048 points, as x, y pairs and one length a loop, or the refusal, in memory for as many as a small drawing has ends or for any.
pub fn split(
    points: &[i32],
    min_area: u64,
    out: &mut [i32],
    lengths: &mut [u32],
) -> Result<LoopTotals, Refusal>
    ensures { outcome result (lists out.new lengths.new) ≡ split_outcome points.now min_area (lists out.old lengths.old) }
{
    check_split(points, out.len(), lengths.len())?;
    if points.len() <= SMALL_COORDINATES {
        return Ok(split_in::<SMALL, SMALL_COORDINATES, SMALL_HEADS>(
            points, min_area, out, lengths,
        ));
    }
    Ok(split_in::<MOST, COORDINATES, HEADS>(points, min_area, out, lengths))
}
