// A plane sweep after Shamos and Hoey: whether no two segments of a drawing meet wrongly. It goes from left to right and compares neighbours only, which is
// enough (`strip`). It says clear exactly where none meet wrongly, and of a clear drawing it leaves the top counts.
//
// The status is the list of the open segments, those that span the strip just right of x, from the lowest up. It changes at events, the x at which segments
// start or end. One event (`event`), which the first test that fails ends, and the sweep with it:
// 1. the ends there, from the lowest up: none lies strictly between the ends of a vertical segment that starts there, and no two of these overlap
//    (`verticals::are_unbroken`);
// 2. what ends there leaves the list, and the two beside it are compared as new neighbours (`open_list::leave_all`);
// 3. what starts there, node by node, a node being all that starts at one point (`starts::start_all`): what is not vertical enters the list and is compared
//    with both neighbours;
// 4. then the top counts of the node are written, each that of the segment below it in the list and its own winding;
// 5. last its vertical segments, which stand in gaps of the list as it then is; what enters later starts at their heads or above.
//
// Degenerate cases are taken as they are:
// - vertical segments are never open, steps 1 and 5 have them. Others may start or end at their ends, and they may stand on each other;
// - many segments at one point: those that start there enter in any order and stand side by side, so they are counted once all have entered;
// - common ends: two with one start are ordered by their directions, two with one end by the side on which the later starts, and two on one line may touch at
//   an end;
// - ends on one x are one event: what ends there leaves before anything enters, so it is no neighbour of what starts there.
//
// Names: `s` is the drawing, seven numbers a segment; `flat` its ends in order of x, then y (of n segments, end e below n is the a of segment e, and n + i the
// b of segment i); `list[..used]` has the places of the open segments; `tops` a top count for each place; `passed` ends and `started` segments are behind the
// sweep.
#![tactic(auto)]

ghost use Rattle.std.specs.Prelude.{◌≡◌, ◌↔◌, true, ◌+◌, ◌*◌, ◌≤◌, ◌<◌, length, get_or, take, IfSome, IsSome};
ghost use Rattle.geom.specs.Points.{eq_z};
ghost use Rattle.lists.specs.UpFrom.{up_from};
ghost use Rattle.segm.specs.Segments.{segments};
ghost use Rattle.ends.specs.Ends.{end_point, end_before};
ghost use Rattle.ends.specs.Ordering.{ordering};
ghost use Rattle.meetings.specs.Meetings.{NoneMeetWrongly};
ghost use Rattle.faults.specs.Faultless.{Faultless};
ghost use Rattle.strip.specs.Neighbours.{PlacesOf, InOrder, Distinct};
ghost use Rattle.scan.specs.Scan.{RoomFor};
ghost use Rattle.count_up.specs.CountUp.{BoundedBy, Counted};
ghost use Rattle.verticals.specs.Verticals.{Column};
ghost use Rattle.starts.specs.Starts.{Splits};
ghost use Rattle.meeting_sweep.specs.Events.{Past, Happened, ClearEvent};

use open_list::Status;

// How long the list of a small drawing is, and of the largest: all segments may be open, and a block more moves with them.
const SMALL_LIST: usize = segm::SMALL + scan::BLOCK;

const LIST: usize = segm::MOST + scan::BLOCK;

// All that is at one x: the ends there are passed, then the starts.
fn event(
    s: &[i32],
    ends: &[u16],
    from: usize,
    to: usize,
    list: &mut [u16],
    status: Status,
    tops: &mut [i32],
) -> Option<Status>
    requires { let d = segments s.now in let l = take status.used list.old in
        Faultless d
        × Column d ends.now
        × (from ≤ to)
        × (to ≤ length d)
        × (status.used ≤ from)
        × RoomFor (length d) list.old
        × (length d ≤ length tops.old)
        × PlacesOf d l
        × InOrder d l
        × Distinct l
        × Splits d from
        × Splits d to
        × BoundedBy (2048000 * from) tops.old }
    ensures passed { let d = segments s.now in let l = take status.used list.old in
        IfSome result (λ held. let l' = take held.used list.new in
        (held.used ≤ to) × Happened d ends.now from to l l' tops.old tops.new × BoundedBy (2048000 * to) tops.new) }
    ensures can { ClearEvent (segments s.now) ends.now from to (take status.used list.old) → IsSome result }
{
    if !verticals::are_unbroken(s, ends) {
        return None;
    }
    let left = open_list::leave_all(s, ends, list, status)?;
    starts::start_all(s, from, to, list, left, tops)
}

// Whether ends e and f lie at one x.
fn at_one_x(s: &[i32], e: usize, f: usize) -> bool
    ensures { result ≡ eq_z (end_point (segments s.now) e).x (end_point (segments s.now) f).x }
{
    let p = ends::end_point(s, e);
    let q = ends::end_point(s, f);
    p.x == q.x
}

// The first of the ordered ends from k on that does not lie at the x of the one at k.
fn ends_past(s: &[i32], flat: &[u16], k: usize) -> usize
    requires { k < length flat.now }
    ensures { Past (λ j. (end_point (segments s.now) (get_or flat.now j 0)).x) k (length flat.now) (end_point (segments s.now) (get_or flat.now k 0)).x result }
{
    let e = flat[k] as usize;
    for j in k..flat.len() {
        if !at_one_x(s, flat[j] as usize, e) {
            return j;
        }
    }
    flat.len()
}

// The first place from k on whose segment does not start at the x of end e.
fn starts_past(s: &[i32], k: usize, e: usize) -> usize
    requires { k ≤ length (segments s.now) }
    ensures { let d = segments s.now in
        Past (λ j. (end_point d j).x) k (length d) (end_point d e).x result }
{
    let n = segm::count(s);
    for j in k..n {
        if !at_one_x(s, j, e) {
            return j;
        }
    }
    n
}

// The sweep, from x to x of the ordered ends. The list is working memory; the tops are 0 before it.
fn sweep_events(s: &[i32], flat: &[u16], list: &mut [u16], tops: &mut [i32]) -> bool
    requires { let d = segments s.now in
        Faultless d
        × (flat.now ≡ ordering (end_before d) (up_from 0 (2 * length d)))
        × RoomFor (length d) list.old
        × (length d ≤ length tops.old)
        × BoundedBy 0 tops.old }
    ensures { ((result ≡ true) ↔ NoneMeetWrongly (segments s.now)) × (result ≡ true → Counted (segments s.now) tops.new) }
{
    let mut passed: usize = 0;
    let mut started: usize = 0;
    let mut status = Status { used: 0, near: 0 };
    while passed < flat.len() {
        let ends = ends_past(s, flat, passed);
        let starts = starts_past(s, started, flat[passed] as usize);
        let event = event(s, &flat[passed..ends], started, starts, list, status, tops);
        let Some(held) = event else {
            return false;
        };
        passed = ends;
        started = starts;
        status = held;
    }
    true
}

// The sweep with a list of ROOM places.
fn sweep_in<const ROOM: usize>(s: &[i32], flat: &[u16], tops: &mut [i32]) -> bool
    requires { let d = segments s.now in
        Faultless d
        × (flat.now ≡ ordering (end_before d) (up_from 0 (2 * length d)))
        × (length d + 16 ≤ ROOM)
        × (ROOM ≤ 1040)
        × (length d ≤ length tops.old)
        × BoundedBy 0 tops.old }
    ensures { ((result ≡ true) ↔ NoneMeetWrongly (segments s.now)) × (result ≡ true → Counted (segments s.now) tops.new) }
{
    let mut list = [0u16; ROOM];
    sweep_events(s, flat, &mut list, tops)
}

// Whether no two segments meet wrongly, of a drawing with its ordered ends. Where none do the tops, which are 0 before, are their top counts.
pub fn is_clear(s: &[i32], flat: &[u16], tops: &mut [i32]) -> bool
    requires { let d = segments s.now in
        Faultless d
        × (flat.now ≡ ordering (end_before d) (up_from 0 (2 * length d)))
        × (length d ≤ length tops.old)
        × BoundedBy 0 tops.old }
    ensures { ((result ≡ true) ↔ NoneMeetWrongly (segments s.now)) × (result ≡ true → Counted (segments s.now) tops.new) }
{
    if segm::count(s) <= segm::SMALL {
        return sweep_in::<SMALL_LIST>(s, flat, tops);
    }
    sweep_in::<LIST>(s, flat, tops)
}
