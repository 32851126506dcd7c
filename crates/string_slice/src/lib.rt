// The slice run: a drawing's filled area cut along all its segments, as contours with roles.
#![tactic(auto)]

mod walks;

ghost use Rattle.std.specs.Prelude.{◌≡◌, ◌*◌, ◌≤◌, length};
ghost use Rattle.segm.specs.Segments.{segments};
ghost use Rattle.drawing_check.specs.Memory.{RightSizes};
ghost use Rattle.refusal.specs.Order.{accepted};
ghost use Rattle.checks.specs.Runs.{asked};
ghost use Rattle.string_slice.specs.Run.{lists, run_of, outcome, slice_outcome};

use refusal::Refusal;
pub use slice_cut::Contours;
use slice_cut::cut_walks;
use split_loops::{COORDINATES, SMALL_COORDINATES};
use walks::make_walks;

// The run of a drawing of up to so many segments, of which this was asked first, in two stages, the walks and their cut. It owns the memory for the walks; what
// each stage needs besides ends with it. All walks are made before the first contour is written, so that a walk that finds no move leaves the lists as they were.
fn slice_in<const SEGMENTS: usize, const ENDS: usize, const STARTS: usize, const NUMBERS: usize>(
    s: &[i32],
    rule: i32,
    direction: i32,
    min_area: u64,
    points: &mut [i32],
    lengths: &mut [u32],
    roles: &mut [u8],
) -> Result<Contours, Refusal>
    requires sizes { RightSizes SEGMENTS ENDS STARTS × (NUMBERS ≡ 2 * ENDS) }
    requires few { length (segments s.now) ≤ SEGMENTS }
    requires asked_first { asked (run_of s.now rule direction (lists points.old lengths.old roles.old)) ≡ accepted }
    ensures { outcome result (lists points.new lengths.new roles.new)
        ≡ slice_outcome s.now rule direction min_area (lists points.old lengths.old roles.old) }
{
    let mut walks = [0i32; NUMBERS];
    let mut walk_lengths = [0u16; ENDS];
    let mut directions = [0u8; ENDS];
    let n = make_walks::<SEGMENTS, ENDS, STARTS>(
        s,
        rule,
        &mut walks,
        &mut walk_lengths,
        &mut directions,
    )?;
    Ok(cut_walks(
        &walks,
        &walk_lengths[..n],
        &directions[..n],
        direction == 1,
        min_area,
        points,
        lengths,
        roles,
    ))
}

// The contours of a drawing's filled area, as x, y pairs and one length and one role a contour, or the refusal, in memory for a small drawing or for any.
pub fn slice(
    numbers: &[i32],
    rule: i32,
    direction: i32,
    min_area: u64,
    points: &mut [i32],
    lengths: &mut [u32],
    roles: &mut [u8],
) -> Result<Contours, Refusal>
    ensures { outcome result (lists points.new lengths.new roles.new)
        ≡ slice_outcome numbers.now rule direction min_area (lists points.old lengths.old roles.old) }
{
    checks::ask_slice(
        numbers,
        rule,
        direction,
        points.len(),
        lengths.len(),
        roles.len(),
    )?;
    if segm::count(numbers) <= segm::SMALL {
        return slice_in::<
            { segm::SMALL },
            { ends::SMALL },
            { graph::SMALL_STARTS },
            SMALL_COORDINATES,
        >(numbers, rule, direction, min_area, points, lengths, roles);
    }
    slice_in::<{ segm::MOST }, { ends::MOST }, { graph::STARTS }, COORDINATES>(
        numbers, rule, direction, min_area, points, lengths, roles,
    )
}
