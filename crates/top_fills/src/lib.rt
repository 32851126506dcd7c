// The fills of an accepted drawing by its top counts.
#![tactic(auto)]

ghost use Rattle.std.specs.Prelude.{◌≡◌, ◌≤◌, ◌<◌, length};
ghost use Rattle.lists.specs.Written.{written};
ghost use Rattle.segm.specs.Segments.{segments, segment_at};
ghost use Rattle.count_up.specs.CountUp.{Counted};
ghost use Rattle.checks.specs.Accepted.{Good};
ghost use Rattle.ray.specs.Ray.{fill, fills};

use fill_rule::Rule;

// The fill of the segment at place i.
pub fn fill_at(s: &[i32], rule: Rule, tops: &[i32], i: usize) -> u8
    requires { Good (segments s.now)
        × Counted (segments s.now) tops.now
        × (length (segments s.now) ≤ length tops.now)
        × (i < length (segments s.now)) }
    ensures { result ≡ fill rule (segments s.now) (segment_at (segments s.now) i) }
{
    let t = segm::segment_at(s, i);
    let top = tops[i];
    fill_rule::fill_of(rule, top, top - t.winding, t.bits)
}

// Writes the fills.
pub fn write_fills(s: &[i32], rule: Rule, tops: &[i32], out: &mut [u8])
    requires { Good (segments s.now)
        × Counted (segments s.now) tops.now
        × (length (segments s.now) ≤ length tops.now)
        × (length (segments s.now) ≤ length out.old) }
    ensures { out.new ≡ written (fills rule (segments s.now)) out.old }
{
    for i in 0..segm::count(s) {
        out[i] = fill_at(s, rule, tops, i);
    }
}
