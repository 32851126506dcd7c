// Kept links: the segments that a clip run keeps. The others have no line bits, so that the drawing and its nodes serve as they are.
ghost use Rattle.std.specs.Prelude.{◌≡◌, cond, ◌/◌, ◌≤◌, length};
ghost use Rattle.segm.specs.Segments.{segments};
ghost use Rattle.count_up.specs.CountUp.{Counted};
ghost use Rattle.checks.specs.Accepted.{Good};
ghost use Rattle.build.specs.Links.{keeps_sides, keeps, filter_of, masked_bits};

use fill_rule::Rule;

// The four filters of a clip run: which side of the outline, and whether lines on the outline count as inside.
#[derive(Clone, Copy)]
pub enum Filter {
    InsideIncluded,
    InsideExcluded,
    OutsideIncluded,
    OutsideExcluded,
}

// The filter of known choices.
pub fn filter_of(invert: i32, boundary: i32) -> Filter
    ensures { result ≡ filter_of invert boundary }
{
    if invert == 0 {
        if boundary == 0 {
            return Filter::InsideExcluded;
        }
        return Filter::InsideIncluded;
    }
    if boundary == 0 {
        return Filter::OutsideExcluded;
    }
    Filter::OutsideIncluded
}

// Whether a line with this many sides filled is kept.
pub fn keeps_sides(filter: Filter, ones: u32) -> bool
    ensures { result ≡ keeps_sides filter ones }
{
    match filter {
        Filter::InsideIncluded => 0 < ones,
        Filter::InsideExcluded => ones == 2,
        Filter::OutsideIncluded => ones == 0,
        Filter::OutsideExcluded => ones < 2,
    }
}

// Whether a segment of this fill is kept.
fn keeps(filter: Filter, fill: u8) -> bool
    ensures { result ≡ keeps filter fill }
{
    (fill / 4 != 0) & keeps_sides(filter, u8::count_ones(fill & 3))
}

// The line bits of a segment of this fill, none if it is not kept.
fn kept_bits(filter: Filter, fill: u8) -> u8
    ensures { result ≡ cond (keeps filter fill) (fill / 4) 0 }
{
    if keeps(filter, fill) { fill / 4 } else { 0 }
}

// Writes the line bits of each segment of an accepted drawing, none for those that a clip run does not keep.
pub fn masked_bits(s: &[i32], rule: Rule, filter: Filter, tops: &[i32], bits: &mut [u8])
    requires { Good (segments s.now)
        × Counted (segments s.now) tops.now
        × (length (segments s.now) ≤ length tops.now)
        × (length bits.old ≡ length (segments s.now)) }
    ensures { bits.new ≡ masked_bits rule filter (segments s.now) }
{
    for (i, bit) in bits.iter_mut().enumerate() {
        *bit = kept_bits(filter, top_fills::fill_at(s, rule, tops, i));
    }
}
