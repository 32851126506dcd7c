// The verdict on a drawing alone, refusals 3 to 9 and 13, unless something was refused before; and what an accepted drawing leaves for a run: its nodes and top
// counts.
#![tactic(auto)]

ghost use Rattle.std.specs.Prelude.{◌≡◌, ℕ, ◌*◌, ◌<◌, ◌≤◌, length, get_or, drop, pos};
ghost use Rattle.lists.specs.Members.{any};
ghost use Rattle.lists.specs.UpFrom.{up_from};
ghost use Rattle.refusal.specs.Order.{accepted, ◌then◌};
ghost use Rattle.segm.specs.Segments.{count, segments};
ghost use Rattle.faults.specs.Faultless.{Proper, Faultless};
ghost use Rattle.ends.specs.Ends.{end_before};
ghost use Rattle.ends.specs.Ordering.{ordering};
ghost use Rattle.meetings.specs.Meetings.{meets_wrongly};
ghost use Rattle.graph.specs.Nodes.{Nodes};
ghost use Rattle.count_up.specs.CountUp.{BoundedBy, Counted};
ghost use Rattle.balance.specs.Balance.{NodesByPoint};
ghost use Rattle.drawing_check.specs.Drawing.{meeting_at, meetings_of, unbalanced_of, drawing_verdict};
ghost use Rattle.drawing_check.specs.Memory.{EndsOf, RightSizes, Blank, DrawingRoom, EndsRoom, OrderedIn, NumberedIn, Prepared, Checked};

use moves::Graph;
use refusal::{Kind, Refusal};
use segm::Segment;

// Whether t meets wrongly with a segment from place j on.
fn meets_any(s: &[i32], j: usize, t: Segment) -> bool
    requires { Faultless (segments s.now) × Proper t }
    ensures { result ≡ any (meets_wrongly t) (drop j (segments s.now)) }
{
    for k in j..segm::count(s) {
        if meetings::meets_wrongly(t, segm::segment_at(s, k)) {
            return true;
        }
    }
    false
}

// Refusal 8 at place i.
fn meeting_at(s: &[i32], i: usize) -> Option<Kind>
    requires { Faultless (segments s.now) × (i < count s.now) }
    ensures { result ≡ meeting_at (segments s.now) i }
{
    if meets_any(s, i + 1, segm::segment_at(s, i)) {
        return Some(Kind::WrongMeeting);
    }
    None
}

// The first place of a segment that meets a later one wrongly, of which there is one: no accepted drawing is searched.
fn find_pair(s: &[i32]) -> Result<(), Refusal>
    requires { Faultless (segments s.now) × (meetings_of (segments s.now) ≡ accepted → ⊥) }
    ensures { result ≡ meetings_of (segments s.now) }
{
    refusal::find_first(
        segm::count(s),
        |i| -> Option<Kind>
            requires { Faultless (segments s.now) × (i < count s.now) }
            ensures { result ≡ meeting_at (segments s.entry.now) i }
        { meeting_at(s, i) },
    )
}

// Refusal 8. The sweep tells whether it fits, and only then are pairs looked at, to name the place. Where it does not fit the sweep has left the top counts.
fn find_meeting(s: &[i32], flat: &[u16], tops: &mut [i32]) -> Result<(), Refusal>
    requires { let d = segments s.now in
        Faultless d
        × (flat.now ≡ ordering (end_before d) (up_from 0 (2 * length d)))
        × (length d ≤ length tops.old)
        × BoundedBy 0 tops.old }
    ensures { let d = segments s.now in (result ≡ meetings_of d) × (result ≡ accepted → Counted d tops.new) }
{
    if meeting_sweep::is_clear(s, flat, tops) {
        return Ok(());
    }
    find_pair(s)
}

// Refusal 9, at the first place of a segment that touches an unbalanced point.
fn find_unbalanced(s: &[i32], nodes: &[u16], sums: &mut [i32]) -> Result<(), Refusal>
    requires { Faultless (segments s.now)
        × NodesByPoint (segments s.now) nodes.now
        × (2 * length (segments s.now) ≤ length sums.old)
        × ((v : ℕ) → get_or sums.old v (pos 0) ≡ pos 0) }
    ensures { result ≡ unbalanced_of (segments s.now) }
{
    match balance::first_unbalanced(s, nodes, sums) {
        Some(place) => Err(Refusal {
            kind: Kind::Unbalanced,
            place,
        }),
        None => Ok(()),
    }
}

// Refusals 8 and 9, by the ordered ends and their nodes; the top counts of a drawing that has neither. The list `sums` is working memory.
fn find_by_ends(
    s: &[i32],
    flat: &[u16],
    nodes: &[u16],
    sums: &mut [i32],
    tops: &mut [i32],
) -> Result<(), Refusal>
    requires { let d = segments s.now in
        Faultless d
        × OrderedIn d flat.now
        × NumberedIn d nodes.now
        × (2 * length d ≤ length sums.old)
        × ((v : ℕ) → get_or sums.old v (pos 0) ≡ pos 0)
        × (length d ≤ length tops.old)
        × BoundedBy 0 tops.old }
    ensures { let d = segments s.now in
        (result ≡ (meetings_of d then unbalanced_of d)) × (result ≡ accepted → Counted d tops.new) }
{
    let e = 2 * segm::count(s);
    find_meeting(s, &flat[..e], tops)?;
    find_unbalanced(s, &nodes[..e], sums)
}

// Refusals 8 and 9 of a drawing that 2 to 7 and 13 leave: its ends are ordered for it. All lists are working memory; an accepted drawing's nodes and top counts
// are left in those before `keys`.
fn check_ends(
    s: &[i32],
    flat: &mut [u16],
    starts: &mut [u16],
    nodes: &mut [u16],
    tops: &mut [i32],
    keys: &mut [u64],
    scratch: &mut [u64],
    sums: &mut [i32],
) -> Result<(), Refusal>
    requires { let d = segments s.now in
        Faultless d × DrawingRoom d flat.old starts.old nodes.old tops.old × EndsRoom d keys.old scratch.old sums.old }
    ensures { let d = segments s.now in
        Checked (meetings_of d then unbalanced_of d) d result flat.new starts.new nodes.new tops.new }
{
    graph::write_nodes(s, flat, starts, nodes, keys, scratch);
    find_by_ends(s, flat, nodes, sums, tops)
}

// The verdict on a drawing of up to so many segments, unless something was refused before. An accepted drawing's nodes and top counts are left in the lists,
// which are working memory of the run that comes; after a refusal they hold anything. What only the check needs it owns, by size, so that of this memory a small
// drawing has no more on the stack than it needs.
#[inline(never)]
pub fn check<const SEGMENTS: usize, const ENDS: usize>(
    before: Result<(), Refusal>,
    s: &[i32],
    flat: &mut [u16],
    starts: &mut [u16],
    nodes: &mut [u16],
    tops: &mut [i32],
) -> Result<(), Refusal>
    requires sizes { EndsOf SEGMENTS ENDS }
    requires room { let d = segments s.now in
        before ≡ accepted → (length d ≤ SEGMENTS) × DrawingRoom d flat.old starts.old nodes.old tops.old }
    ensures { let d = segments s.now in
        Checked (before then drawing_verdict d) d result flat.new starts.new nodes.new tops.new }
{
    before?;
    faults::find_fault(s)?;
    let mut keys = [0u64; ENDS];
    let mut scratch = [0u64; SEGMENTS];
    let mut sums = [0i32; ENDS];
    check_ends(
        s,
        flat,
        starts,
        nodes,
        tops,
        &mut keys,
        &mut scratch,
        &mut sums,
    )
}

// Working memory of a run on a drawing of up to so many segments: the check leaves an accepted drawing's nodes and top counts there.
#[derive(Drop)]
pub struct DrawingMemory<const SEGMENTS: usize, const ENDS: usize, const STARTS: usize> {
    pub flat: [u16; ENDS],
    pub starts: [u16; STARTS],
    pub nodes: [u16; ENDS],
    pub tops: [i32; SEGMENTS],
}

impl<const SEGMENTS: usize, const ENDS: usize, const STARTS: usize> DrawingMemory<
    SEGMENTS,
    ENDS,
    STARTS,
> {
    // Blank memory.
    #[tactic(auto, using(crate::proofs::Memory::fresh))]
    pub fn new() -> Self
        requires { RightSizes SEGMENTS ENDS STARTS }
        ensures { Blank result.tops }
    {
        DrawingMemory {
            flat: [0; ENDS],
            starts: [0; STARTS],
            nodes: [0; ENDS],
            tops: [0; SEGMENTS],
        }
    }

    // The verdict on a drawing of up to so many segments. After a refusal the memory holds anything.
    pub fn check(&mut self, s: &[i32]) -> Result<(), Refusal>
        requires { RightSizes SEGMENTS ENDS STARTS × (length (segments s.now) ≤ SEGMENTS) × Blank self.old.tops }
        ensures { let d = segments s.now in
            Checked (drawing_verdict d) d result self.new.flat self.new.starts self.new.nodes self.new.tops }
    {
        check::<SEGMENTS, ENDS>(
            Ok(()),
            s,
            &mut self.flat,
            &mut self.starts,
            &mut self.nodes,
            &mut self.tops,
        )
    }

    // The nodes that the check left of an accepted drawing.
    #[tactic(auto, using(crate::proofs::Memory::as_many, crate::proofs::Memory::front_graph))]
    pub fn graph(&self, s: &[i32]) -> Graph<'_>
        requires { let d = segments s.now in RightSizes SEGMENTS ENDS STARTS × (length d ≤ SEGMENTS) × Prepared d self.now.flat self.now.starts self.now.nodes self.now.tops }
        ensures { Nodes (segments s.now) result.flat.now result.starts.now result.nodes.now }
    {
        let e = 2 * segm::count(s);
        Graph {
            flat: &self.flat[..e],
            starts: &self.starts,
            nodes: &self.nodes[..e],
        }
    }
}
