// The functions that C and Rust call, and nothing else: numbers and slices in, a struct of numbers out.
#![tactic(auto)]

ghost use Rattle.std.specs.Prelude.{◌≡◌};
ghost use Rattle.text_forms.specs.declared.Form.TheVariants.{Old, New};
ghost use Rattle.overlay.specs.Numbers.{fills_numbers, returned, clip_lists, clip_numbers, returned_clip, slice_lists, slice_numbers, returned_slice, split_lists, split_numbers, returned_split, read_numbers, returned_read, write_numbers, move_numbers, returned_write};

use c_structs::{Clip, Fills, Read, Slice, Split, Write};
use text_forms::Form;

// The fills of a drawing, one entry a segment.
#[unsafe(no_mangle)]
pub extern "C" fn overlay_fills(numbers: &[i32], rule: i32, fills: &mut [u8]) -> Fills
    ensures { returned result fills.new ≡ fills_numbers numbers.now rule fills.old }
{
    let answer = build::fills(numbers, rule, fills);
    Fills::from(answer)
}

// The cut lines inside or outside, as x, y pairs and one length a path.
#[unsafe(no_mangle)]
pub extern "C" fn overlay_clip(
    numbers: &[i32],
    rule: i32,
    invert: i32,
    boundary: i32,
    points: &mut [i32],
    lengths: &mut [u32],
) -> Clip
    ensures { returned_clip result (clip_lists points.new lengths.new) ≡ clip_numbers numbers.now rule invert boundary (clip_lists points.old lengths.old) }
{
    let answer = string_clip::clip(numbers, rule, invert, boundary, points, lengths);
    Clip::from(answer)
}

// The contours of the filled area cut along all segments, as x, y pairs and one length and one role a contour.
#[unsafe(no_mangle)]
pub extern "C" fn overlay_slice(
    numbers: &[i32],
    rule: i32,
    direction: i32,
    min_area: u64,
    points: &mut [i32],
    lengths: &mut [u32],
    roles: &mut [u8],
) -> Slice
    ensures { returned_slice result (slice_lists points.new lengths.new roles.new) ≡ slice_numbers numbers.now rule direction min_area (slice_lists points.old lengths.old roles.old) }
{
    let answer = string_slice::slice(numbers, rule, direction, min_area, points, lengths, roles);
    Slice::from(answer)
}

// The loops of a list of points, as x, y pairs and one length a loop.
#[unsafe(no_mangle)]
pub extern "C" fn overlay_split(
    points: &[i32],
    min_area: u64,
    out: &mut [i32],
    lengths: &mut [u32],
) -> Split
    ensures { returned_split result (split_lists out.new lengths.new) ≡ split_numbers points.now min_area (split_lists out.old lengths.old) }
{
    let answer = string_split::split(points, min_area, out, lengths);
    Split::from(answer)
}

// A comma text read: the numbers of its segments.
#[unsafe(no_mangle)]
pub extern "C" fn overlay_read(text: &[u8], numbers: &mut [i32]) -> Read
    ensures { returned_read result numbers.new ≡ read_numbers text.now numbers.old }
{
    let answer = text::read(text, segm::WIDTH, numbers);
    Read::from(answer)
}

// The text of a drawing and its choices.
#[unsafe(no_mangle)]
pub extern "C" fn overlay_write(
    numbers: &[i32],
    rule: i32,
    invert: i32,
    boundary: i32,
    text: &mut [u8],
) -> Write
    ensures { returned_write result text.new ≡ write_numbers numbers.now rule invert boundary text.old }
{
    let answer = stored_text::write(numbers, rule, invert, boundary, text);
    Write::from(answer)
}

// A text without lots moved to the form with them: every lot is 0.
#[unsafe(no_mangle)]
pub extern "C" fn overlay_old_to_new(text: &[u8], moved: &mut [u8]) -> Write
    ensures { returned_write result moved.new ≡ move_numbers Old New text.now moved.old }
{
    let answer = stored_text::move_text(text, Form::Old, Form::New, moved);
    Write::from(answer)
}

// And back.
#[unsafe(no_mangle)]
pub extern "C" fn overlay_new_to_old(text: &[u8], moved: &mut [u8]) -> Write
    ensures { returned_write result moved.new ≡ move_numbers New Old text.now moved.old }
{
    let answer = stored_text::move_text(text, Form::New, Form::Old, moved);
    Write::from(answer)
}
