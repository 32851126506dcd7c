// What starts at one x, node by node in order of their points, a node being the segments that start at one point. One node (`start_node`): what is not
// vertical enters the list of the open segments; the top counts of the node are written; its vertical segments stand in gaps of the list and get theirs. So
// the list in which they stand has all that starts at their feet or lower, and what enters later starts at their heads or above.
//
// Names: places from..to of the drawing start at this x; `next` is the place after a node; `near` is a place of the list to look at first, and `high` the one
// after those of a node.
#![tactic(auto)]

ghost use Rattle.std.specs.Prelude.{◌*◌, ◌≤◌, ◌<◌, length, take, IfSome, IsSome};
ghost use Rattle.segm.specs.Segments.{segments};
ghost use Rattle.faults.specs.Faultless.{Faultless};
ghost use Rattle.strip.specs.Neighbours.{PlacesOf, InOrder};
ghost use Rattle.scan.specs.Scan.{RoomFor};
ghost use Rattle.count_up.specs.CountUp.{BoundedBy};
ghost use Rattle.starts.specs.Starts.{Splits, NodeEnd, Started, CanStart};

use open_list::Status;

// The place after those from a place on that start at its point.
fn node_end(s: &[i32], from: usize, to: usize) -> usize
    requires { let d = segments s.now in
        Faultless d × (from < to) × (to ≤ length d) × Splits d to }
    ensures { NodeEnd (segments s.now) from to result }
{
    let first = segm::segment_in(s, from);
    let p = first.a;
    for j in from + 1..to {
        let t = segm::segment_in(s, j);
        let here = geom::same(t.a, p);
        if !here {
            return j;
        }
    }
    to
}

// The segments of one node, places from..to, are passed. The place told is that after those of them that entered.
fn start_node(
    s: &[i32],
    from: usize,
    to: usize,
    list: &mut [u16],
    status: Status,
    tops: &mut [i32],
) -> Option<Status>
    requires { let d = segments s.now in let l = take status.used list.old in
        Faultless d
        × (to ≤ length d)
        × (status.used ≤ from)
        × RoomFor (length d) list.old
        × (length d ≤ length tops.old)
        × PlacesOf d l
        × InOrder d l
        × Splits d from
        × NodeEnd d from to to
        × BoundedBy (2048000 * from) tops.old }
    ensures passed { let d = segments s.now in let l = take status.used list.old in
        IfSome result (λ started. let l' = take started.used list.new in
        (started.used ≤ to) × Started d from to l l' tops.old tops.new × BoundedBy (2048000 * to) tops.new) }
    ensures can { CanStart (segments s.now) from to (take status.used list.old) → IsSome result }
{
    let entered = open_list::enter_all(s, from, to, list, status)?;
    let used = entered.used;
    let near = entered.near.min(used);
    let high = count_up::count_node(s, &list[..used], from, near, tops);
    if !verticals::stand_all(s, from, to, &list[..used], high, tops) {
        return None;
    }
    Some(Status { used, near: high })
}

// All segments of places from..to, which start at one x, are passed. The place told is the lowest of those after the nodes, or the one before.
pub fn start_all(
    s: &[i32],
    from: usize,
    to: usize,
    list: &mut [u16],
    status: Status,
    tops: &mut [i32],
) -> Option<Status>
    requires { let d = segments s.now in let l = take status.used list.old in
        Faultless d
        × (from ≤ to)
        × (to ≤ length d)
        × (status.used ≤ from)
        × RoomFor (length d) list.old
        × (length d ≤ length tops.old)
        × PlacesOf d l
        × InOrder d l
        × Splits d from
        × Splits d to
        × BoundedBy (2048000 * from) tops.old }
    ensures passed { let d = segments s.now in let l = take status.used list.old in
        IfSome result (λ started. let l' = take started.used list.new in
        (started.used ≤ to) × Started d from to l l' tops.old tops.new × BoundedBy (2048000 * to) tops.new) }
    ensures can { CanStart (segments s.now) from to (take status.used list.old) → IsSome result }
{
    let mut held = status;
    let mut lowest = None;
    let mut i = from;
    while i < to {
        let next = node_end(s, i, to);
        held = start_node(s, i, next, list, held, tops)?;
        lowest = Some(open_list::lowest_place(lowest, held.near));
        i = next;
    }
    Some(Status {
        used: held.used,
        near: lowest.unwrap_or(status.near),
    })
}
