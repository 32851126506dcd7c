// The fills run: which sides of each segment are filled, or the refusal.
ghost use Rattle.std.specs.Prelude.{◌≡◌, ◌≤◌, length};
ghost use Rattle.refusal.specs.Order.{accepted};
ghost use Rattle.segm.specs.Segments.{segments};
ghost use Rattle.drawing_check.specs.Memory.{RightSizes};
ghost use Rattle.checks.specs.Runs.{fills_run, asked};
ghost use Rattle.build.specs.Fills.{fills_outcome, outcome};

use drawing_check::DrawingMemory;
use refusal::Refusal;

// The fills of a drawing of up to so many segments, of which this was asked first. It owns the run's memory.
fn fills_in<const SEGMENTS: usize, const ENDS: usize, const STARTS: usize>(
    numbers: &[i32],
    rule: i32,
    fills: &mut [u8],
) -> Result<usize, Refusal>
    requires { RightSizes SEGMENTS ENDS STARTS
        × (length (segments numbers.now) ≤ SEGMENTS)
        × (asked (fills_run numbers.now rule (length fills.old)) ≡ accepted) }
    ensures { outcome result fills.new ≡ fills_outcome numbers.now rule fills.old }
{
    let mut memory = DrawingMemory::<SEGMENTS, ENDS, STARTS>::new();
    memory.check(numbers)?;
    top_fills::write_fills(numbers, fill_rule::rule_of(rule), &memory.tops, fills);
    Ok(segm::count(numbers))
}

// The fills of a drawing, one entry a segment, tells how many, or the refusal, in memory for a small drawing or for any.
pub fn fills(numbers: &[i32], rule: i32, fills: &mut [u8]) -> Result<usize, Refusal>
    ensures { outcome result fills.new ≡ fills_outcome numbers.now rule fills.old }
{
    checks::ask_fills(numbers, rule, fills.len())?;
    if segm::count(numbers) <= segm::SMALL {
        return fills_in::<{ segm::SMALL }, { ends::SMALL }, { graph::SMALL_STARTS }>(
            numbers, rule, fills,
        );
    }
    fills_in::<{ segm::MOST }, { ends::MOST }, { graph::STARTS }>(numbers, rule, fills)
}
