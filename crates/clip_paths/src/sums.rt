// The travel over the links of a clip run, by their line bits.
ghost use Rattle.std.specs.Prelude.{◌≡◌, true, ◌*◌, length};
ghost use Rattle.geom.specs.Points.{travel};
ghost use Rattle.segm.specs.Segments.{segments};
ghost use Rattle.faults.specs.Faults.{ends_in_range};
ghost use Rattle.checks.specs.Accepted.{Good};
ghost use Rattle.moves.specs.Bits.{bits_set};
ghost use Rattle.clip_paths.specs.Writing.{travel_over};

use segm::Segment;

// How many line bits are set.
#[tactic(auto, using(moves::proofs::Bits::set_are))]
pub fn lines(bits: u8) -> u64
    ensures { result ≡ bits_set bits }
{
    (bits % 2 + bits / 2 % 2) as u64
}

// The travel of all steps over a link, one for each of these line bits.
#[tactic(auto, using(crate::proofs::Writing::Links::link_bound))]
fn link_travel(s: Segment, bits: u8) -> u64
    requires { ends_in_range s ≡ true }
    ensures { result ≡ bits_set bits * travel s.a s.b }
{
    lines(bits) * geom::travel(s.a, s.b)
}

// The travel of all steps over all links, by the line bits of each.
#[tactic(auto, using(crate::proofs::Writing::Links::travel_next, crate::proofs::Writing::Links::all_bound, segm::proofs::Segments::segment_in), unfolding(crate::specs::Writing::travel_over))]
pub fn travel(links: &[i32], bits: &[u8]) -> u64
    requires { Good (segments links.now) × (length bits.now ≡ length (segments links.now)) }
    ensures { result ≡ travel_over (segments links.now) bits.now }
{
    let mut sum = 0;
    for (i, b) in bits.iter().enumerate() {
        sum += link_travel(segm::segment_in(links, i), *b);
    }
    sum
}
