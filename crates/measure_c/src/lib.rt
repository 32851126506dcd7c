// The exports of `libmeasure.a`, and nothing else: each function of `measure` that the driver calls, under its name in C, with its clauses again.
#![tactic(auto)]

ghost use Rattle.std.specs.Prelude.{◌≡◌, true, length};
ghost use Rattle.segm.specs.Segments.{segments};
ghost use Rattle.checks.specs.Accepted.{Good};
ghost use Rattle.checks.specs.Runs.{fills_run, slice_run, verdict};
ghost use Rattle.string_clip.specs.Run.{lists};
ghost use Rattle.measure.specs.Numbers.{verdict_of, check_numbers, sweep_number, returned_both, both_numbers};

use measure::{Check, ClipBoth};

// The check alone.
#[unsafe(no_mangle)]
pub extern "C" fn measure_check(numbers: &[i32]) -> Check
    ensures { result ≡ check_numbers (verdict_of numbers.now) }
{
    measure::measure_check(numbers)
}

// The same of a fills run with this list.
#[unsafe(no_mangle)]
pub extern "C" fn measure_check_fills(numbers: &[i32], rule: i32, fills: &[u8]) -> Check
    ensures { result ≡ check_numbers (verdict (fills_run numbers.now rule (length fills.now))) }
{
    measure::measure_check_fills(numbers, rule, fills)
}

// The same of a slice run with these lists.
#[unsafe(no_mangle)]
pub extern "C" fn measure_check_slice(
    numbers: &[i32],
    rule: i32,
    direction: i32,
    points: &[i32],
    lengths: &[u32],
    roles: &[u8],
) -> Check
    ensures { result ≡ check_numbers (verdict (slice_run numbers.now rule direction (length points.now) (length lengths.now) (length roles.now))) }
{
    measure::measure_check_slice(numbers, rule, direction, points, lengths, roles)
}

// What the sweep says of an accepted drawing: 1, clear, by proof, and the driver looks whether the compiled sweep says so. 2 of a refused one.
#[unsafe(no_mangle)]
pub extern "C" fn measure_sweep(numbers: &[i32]) -> u64
    ensures { result ≡ sweep_number (verdict_of numbers.now) }
{
    measure::measure_sweep(numbers)
}

// Both clip runs by one check, which nothing else exports: the driver compares them with two runs.
#[unsafe(no_mangle)]
pub extern "C" fn measure_clip_both(
    numbers: &[i32],
    rule: i32,
    boundary: i32,
    inside_points: &mut [i32],
    inside_lengths: &mut [u32],
    outside_points: &mut [i32],
    outside_lengths: &mut [u32],
) -> ClipBoth
    ensures { returned_both result (lists inside_points.new inside_lengths.new) (lists outside_points.new outside_lengths.new)
        ≡ both_numbers numbers.now rule boundary (lists inside_points.old inside_lengths.old) (lists outside_points.old outside_lengths.old) }
{
    measure::measure_clip_both(
        numbers,
        rule,
        boundary,
        inside_points,
        inside_lengths,
        outside_points,
        outside_lengths,
    )
}
