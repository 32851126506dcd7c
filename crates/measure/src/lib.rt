// For the driver alone: the verdict by itself, what the sweep over neighbours says of an accepted drawing, and both clip runs by one check.
#![tactic(auto)]

ghost use Rattle.std.specs.Prelude.{◌≡◌, true, length};
ghost use Rattle.segm.specs.Segments.{segments};
ghost use Rattle.checks.specs.Accepted.{Good};
ghost use Rattle.checks.specs.Runs.{fills_run, slice_run, verdict};
ghost use Rattle.string_clip.specs.Run.{lists};
ghost use Rattle.measure.specs.Numbers.{verdict_of, check_numbers, sweep_number, returned_both, both_numbers};

use c_structs::Clip;
use refusal::Refusal;

// A refusal's number and place, or 0 and 0.
#[repr(C)]
#[derive(Clone, Copy)]
pub struct Check {
    pub number: u64,
    pub place: u64,
}

// The verdict on a drawing, of a clip run with known choices and lists that are long enough for any.
fn verdict_of(numbers: &[i32]) -> Result<(), Refusal>
    ensures { result ≡ verdict_of numbers.now }
{
    checks::check_clip(numbers, 0, 0, 0, 8 * segm::MOST, 2 * segm::MOST)
}

// The number and place of a verdict.
impl From<Result<(), Refusal>> for Check {
    ghost from_gives = { λ verdict told. told ≡ check_numbers verdict };

    fn from(verdict: Result<(), Refusal>) -> Check {
        match verdict {
            Ok(()) => Check {
                number: 0,
                place: 0,
            },
            Err(refusal) => Check {
                number: refusal.kind.number() as u64,
                place: refusal.place as u64,
            },
        }
    }
}

// The check alone.
#[unsafe(no_mangle)]
pub extern "C" fn measure_check(numbers: &[i32]) -> Check
    ensures { result ≡ check_numbers (verdict_of numbers.now) }
{
    Check::from(verdict_of(numbers))
}

// The same of a fills run with this list.
#[unsafe(no_mangle)]
pub extern "C" fn measure_check_fills(numbers: &[i32], rule: i32, fills: &[u8]) -> Check
    ensures { result ≡ check_numbers (verdict (fills_run numbers.now rule (length fills.now))) }
{
    Check::from(checks::check_fills(numbers, rule, fills.len()))
}

// The same of a slice run with these lists.
#[unsafe(no_mangle)]
pub extern "C" fn measure_check_slice(
    numbers: &[i32],
    rule: i32,
    direction: i32,
    points: &[i32],
    lengths: &[u32],
    roles: &[u8],
) -> Check
    ensures { result ≡ check_numbers (verdict (slice_run numbers.now rule direction (length points.now) (length lengths.now) (length roles.now))) }
{
    let room = points.len();
    Check::from(checks::check_slice(numbers, rule, direction, room, lengths.len(), roles.len()))
}

// What the sweep says of an accepted drawing.
fn is_swept(s: &[i32]) -> bool
    requires { Good (segments s.now) }
    ensures { result ≡ true }
{
    let mut flat = [0u16; ends::MOST];
    let mut starts = [0u16; graph::STARTS];
    let mut nodes = [0u16; ends::MOST];
    let mut tops = [0i32; segm::MOST];
    let mut keys = [0u64; ends::MOST];
    let mut scratch = [0u64; segm::MOST];
    graph::write_nodes(
        s,
        &mut flat,
        &mut starts,
        &mut nodes,
        &mut keys,
        &mut scratch,
    );
    let e = 2 * segm::count(s);
    meeting_sweep::is_clear(s, &flat[..e], &mut tops)
}

// What the sweep says of an accepted drawing: 1, clear, by proof, and the driver looks whether the compiled sweep says so. 2 of a refused one.
#[unsafe(no_mangle)]
pub extern "C" fn measure_sweep(numbers: &[i32]) -> u64
    ensures { result ≡ sweep_number (verdict_of numbers.now) }
{
    match verdict_of(numbers) {
        Ok(()) => is_swept(numbers) as u64,
        Err(_) => 2,
    }
}

// The numbers of two clip runs.
#[repr(C)]
#[derive(Clone, Copy)]
pub struct ClipBoth {
    pub inside: Clip,
    pub outside: Clip,
}

// Both clip runs by one check, which nothing else exports: the driver compares them with two runs.
#[unsafe(no_mangle)]
pub extern "C" fn measure_clip_both(
    numbers: &[i32],
    rule: i32,
    boundary: i32,
    inside_points: &mut [i32],
    inside_lengths: &mut [u32],
    outside_points: &mut [i32],
    outside_lengths: &mut [u32],
) -> ClipBoth
    ensures { returned_both result (lists inside_points.new inside_lengths.new) (lists outside_points.new outside_lengths.new)
        ≡ both_numbers numbers.now rule boundary (lists inside_points.old inside_lengths.old) (lists outside_points.old outside_lengths.old) }
{
    let both = clip_both::clip_both(
        numbers,
        rule,
        boundary,
        inside_points,
        inside_lengths,
        outside_points,
        outside_lengths,
    );
    ClipBoth {
        inside: Clip::from(both.inside),
        outside: Clip::from(both.outside),
    }
}
