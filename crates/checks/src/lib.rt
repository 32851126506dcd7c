// Which drawings are turned down, with which number and place: what each run asks first (2, 10, 11), then the verdict on its drawing.
#![tactic(auto)]

ghost use Rattle.std.specs.Prelude.{◌≡◌, ◌≤◌, length};
ghost use Rattle.lists.specs.Members.{any};
ghost use Rattle.refusal.specs.Asked.{wrong_length, unknown_choice};
ghost use Rattle.segm.specs.Segments.{width, segments};
ghost use Rattle.drawing_check.specs.Drawing.{drawing_verdict};
ghost use Rattle.drawing_check.specs.Memory.{RightSizes};
ghost use Rattle.checks.specs.Runs.{clip_choices, fills_run, clip_run, clip_input, slice_run, asked, verdict};

use drawing_check::DrawingMemory;
use refusal::Refusal;

// Whether numbers are no whole segments, or too many.
fn is_wrong(numbers: usize) -> bool
    ensures { result ≡ wrong_length width 1024 numbers }
{
    refusal::is_wrong_length(numbers, segm::WIDTH, segm::MOST)
}

// Whether one of a clip run's choices is unknown.
fn is_unknown_clip(rule: i32, invert: i32, boundary: i32) -> bool
    ensures { result ≡ any unknown_choice (clip_choices rule invert boundary) }
{
    refusal::is_unknown(rule, 3)
        | (refusal::is_unknown(invert, 1) | refusal::is_unknown(boundary, 1))
}

// What a fills run asks first.
pub fn ask_fills(numbers: &[i32], rule: i32, fills: usize) -> Result<(), Refusal>
    ensures { result ≡ asked (fills_run numbers.now rule fills) }
{
    let n = segm::count(numbers);
    refusal::asked_first(
        is_wrong(numbers.len()),
        refusal::is_unknown(rule, 3),
        refusal::is_short(fills, 1, n),
    )
}

// What a clip run asks first.
pub fn ask_clip(
    numbers: &[i32],
    rule: i32,
    invert: i32,
    boundary: i32,
    points: usize,
    lengths: usize,
) -> Result<(), Refusal>
    ensures { result ≡ asked (clip_run numbers.now rule invert boundary points lengths) }
{
    let n = segm::count(numbers);
    refusal::asked_first(
        is_wrong(numbers.len()),
        is_unknown_clip(rule, invert, boundary),
        refusal::is_short(points, 8, n) | refusal::is_short(lengths, 2, n),
    )
}

// What a slice run asks first.
pub fn ask_slice(
    numbers: &[i32],
    rule: i32,
    direction: i32,
    points: usize,
    lengths: usize,
    roles: usize,
) -> Result<(), Refusal>
    ensures { result ≡ asked (slice_run numbers.now rule direction points lengths roles) }
{
    let n = segm::count(numbers);
    refusal::asked_first(
        is_wrong(numbers.len()),
        refusal::is_unknown(rule, 3) | refusal::is_unknown(direction, 1),
        refusal::is_short(points, 4, n)
            | (refusal::is_short(lengths, 2, n) | refusal::is_short(roles, 2, n)),
    )
}

// The verdict on a drawing of up to so many segments, with memory of its own.
fn check_in<const SEGMENTS: usize, const ENDS: usize, const STARTS: usize>(
    numbers: &[i32],
) -> Result<(), Refusal>
    requires { RightSizes SEGMENTS ENDS STARTS × (length (segments numbers.now) ≤ SEGMENTS) }
    ensures { result ≡ drawing_verdict (segments numbers.now) }
{
    let mut memory = DrawingMemory::<SEGMENTS, ENDS, STARTS>::new();
    memory.check(numbers)
}

// The verdict on a drawing, with memory by its size.
fn check_alone(numbers: &[i32]) -> Result<(), Refusal>
    requires { length (segments numbers.now) ≤ 1024 }
    ensures { result ≡ drawing_verdict (segments numbers.now) }
{
    if segm::count(numbers) <= segm::SMALL {
        return check_in::<{ segm::SMALL }, { ends::SMALL }, { graph::SMALL_STARTS }>(numbers);
    }
    check_in::<{ segm::MOST }, { ends::MOST }, { graph::STARTS }>(numbers)
}

// The verdict on a fills run.
pub fn check_fills(numbers: &[i32], rule: i32, fills: usize) -> Result<(), Refusal>
    ensures { result ≡ verdict (fills_run numbers.now rule fills) }
{
    ask_fills(numbers, rule, fills)?;
    check_alone(numbers)
}

// The verdict on a clip run.
pub fn check_clip(
    numbers: &[i32],
    rule: i32,
    invert: i32,
    boundary: i32,
    points: usize,
    lengths: usize,
) -> Result<(), Refusal>
    ensures { result ≡ verdict (clip_run numbers.now rule invert boundary points lengths) }
{
    ask_clip(numbers, rule, invert, boundary, points, lengths)?;
    check_alone(numbers)
}

// The verdict on a slice run.
pub fn check_slice(
    numbers: &[i32],
    rule: i32,
    direction: i32,
    points: usize,
    lengths: usize,
    roles: usize,
) -> Result<(), Refusal>
    ensures { result ≡ verdict (slice_run numbers.now rule direction points lengths roles) }
{
    ask_slice(numbers, rule, direction, points, lengths, roles)?;
    check_alone(numbers)
}

// What is asked first of what a clip run is given, before it is lent anything.
fn ask_input(numbers: &[i32], rule: i32, invert: i32, boundary: i32) -> Result<(), Refusal>
    ensures { result ≡ asked (clip_input numbers.now rule invert boundary) }
{
    refusal::asked_first(
        is_wrong(numbers.len()),
        is_unknown_clip(rule, invert, boundary),
        false,
    )
}

// The verdict on that.
pub fn check_input(numbers: &[i32], rule: i32, invert: i32, boundary: i32) -> Result<(), Refusal>
    ensures { result ≡ verdict (clip_input numbers.now rule invert boundary) }
{
    ask_input(numbers, rule, invert, boundary)?;
    check_alone(numbers)
}
