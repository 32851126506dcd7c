// The status of the sweep: the list of the open segments, from the lowest up, in which every two that become neighbours are compared. Where one leaves these
// are the two beside it (`leave_all`), where one enters it and both its neighbours (`enter_all`). Each in turn: its place is found, near the last one's or by
// search, the new neighbours are compared, and the list is moved. Vertical segments are passed over.
//
// Each promise has two halves: what holds of the list where all tests were passed, and where they are: in a drawing in which no two segments meet wrongly, of
// a list that spans one strip. A test that is not passed ends all with None.
//
// Names: `list[..used]` has places of the drawing; k is a place of the list, i and j are places of the drawing with the segments t and u, and e is an end;
// `near` is where the last one left or entered, and where to look first.
#![tactic(auto)]

ghost use Rattle.std.specs.Prelude.{◌≡◌, [], ◌∷◌, ◌↔◌, true, ℕ, ◌+◌, ◌*◌, ◌≤◌, ◌<◌, length, get_or, take, ℤ, IfSome, IsSome};
ghost use Rattle.lists.specs.Members.{◌∈◌};
ghost use Rattle.segm.specs.Segments.{segments, segment_at};
ghost use Rattle.faults.specs.Faultless.{Proper, Faultless};
ghost use Rattle.strip.specs.Strip.{LowerNeighbour};
ghost use Rattle.strip.specs.Neighbours.{PlacesOf, InOrder, Distinct};
ghost use Rattle.scan.specs.Scan.{RoomFor, ProperAt};
ghost use Rattle.open_list.specs.OpenList.{StandsOver, StandsUnder, FitsAt, ClosesAt, Spanning, CanLeave, CanEnter, HasLeft, Entered, Older, Marked, Marks};

use scan::Sought;
use segm::Segment;

// How many segments are open, and a place of the list: where a segment left or entered. At one x ends and starts come in order, so that of the next one is
// near; and what changes at the next x is often near the lowest that changed at this one.
#[derive(Clone, Copy)]
pub struct Status {
    pub used: usize,
    pub near: usize,
}

// Whether u may stand right over t: t is the lower, and the two do not meet wrongly. Where the later start and its other end lie on one side of the other
// segment, or the two have one end or one start, nothing more has to be looked at.
fn follows(t: Segment, u: Segment) -> bool
    requires { Proper t × Proper u }
    ensures { (result ≡ true) ↔ LowerNeighbour t u }
{
    let a = t.a;
    let b = t.b;
    let c = u.a;
    let d = u.b;
    if geom::less(a, c) {
        if geom::cross(a, b, c) <= 0 {
            return false;
        }
        if 0 < geom::cross(a, b, d) {
            return true;
        }
        if geom::same(b, d) {
            return true;
        }
        return !meetings::meets_wrongly(t, u);
    }
    if geom::less(c, a) {
        if 0 <= geom::cross(c, d, a) {
            return false;
        }
        if geom::cross(c, d, b) < 0 {
            return true;
        }
        if geom::same(d, b) {
            return true;
        }
        return !meetings::meets_wrongly(t, u);
    }
    0 < geom::cross(a, b, d)
}

// Whether the segment at place i may stand right under that at place j.
fn is_lower_neighbour(s: &[i32], i: u16, j: u16) -> bool
    requires { ProperAt (segments s.now) i × ProperAt (segments s.now) j }
    ensures { (result ≡ true) ↔ LowerNeighbour (segment_at (segments s.now) i) (segment_at (segments s.now) j) }
{
    follows(
        segm::segment_in(s, i as usize),
        segm::segment_in(s, j as usize),
    )
}

// Whether the segment at place i may stand right over the one before place k of the list, if there is one.
fn stands_over(s: &[i32], list: &[u16], k: usize, i: u16) -> bool
    requires { let d = segments s.now in
        Faultless d × PlacesOf d list.now × (i < length d) × (k ≤ length list.now) }
    ensures { (result ≡ true) ↔ StandsOver (segments s.now) k i list.now }
{
    if k == 0 {
        return true;
    }
    is_lower_neighbour(s, list[k - 1], i)
}

// Whether it may stand right under the one at place k, if there is one.
fn stands_under(s: &[i32], list: &[u16], k: usize, i: u16) -> bool
    requires { let d = segments s.now in
        Faultless d × PlacesOf d list.now × (i < length d) }
    ensures { (result ≡ true) ↔ StandsUnder (segments s.now) k i list.now }
{
    if list.len() <= k {
        return true;
    }
    is_lower_neighbour(s, i, list[k])
}

// Whether the two beside place k of the list may become neighbours.
fn closes_at(s: &[i32], list: &[u16], k: usize) -> bool
    requires { Faultless (segments s.now) × PlacesOf (segments s.now) list.now × (k < length list.now) }
    ensures { (result ≡ true) ↔ ClosesAt (segments s.now) k list.now }
{
    if k == 0 {
        return true;
    }
    if list.len() <= k + 1 {
        return true;
    }
    is_lower_neighbour(s, list[k - 1], list[k + 1])
}

// End e is passed: where a segment that is not vertical ends there, it leaves the list.
fn leave_one(s: &[i32], e: u16, list: &mut [u16], status: Status) -> Option<Status>
    requires { let d = segments s.now in let l = take status.used list.old in
        Faultless d
        × (e < 2 * length d)
        × RoomFor status.used list.old
        × PlacesOf d l
        × InOrder d l
        × Distinct l }
    ensures passed { let d = segments s.now in let l = take status.used list.old in
        IfSome result (λ left. (left.used ≤ status.used) × HasLeft d (e ∷ []) l (take left.used list.new)) }
    ensures can { CanLeave (segments s.now) (e ∷ []) (take status.used list.old) → IsSome result }
{
    let n = segm::count(s);
    let end = e as usize;
    if end < n {
        return Some(status);
    }
    let i = end - n;
    let t = segm::segment_in(s, i);
    if scan::is_vertical(t) {
        return Some(status);
    }
    take_out(s, t, i, list, status)
}

// The place of the list at which i stands, whose segment is t: where the last one left or before it, else by search. Without a wrong meeting it is found.
fn place_to_leave(s: &[i32], t: Segment, i: usize, list: &[u16], near: usize) -> Option<usize>
    requires { let d = segments s.now in
        Faultless d
        × (t ≡ segment_at d i)
        × (i < length d)
        × PlacesOf d list.now
        × InOrder d list.now }
    ensures stands { IfSome result (λ k. (k < length list.now) × (get_or list.now k 0 ≡ i)) }
    ensures can { (x : ℤ) → Spanning (segments s.now) x list.now → i ∈ list.now → IsSome result }
{
    if near < list.len() && list[near] as usize == i {
        return Some(near);
    }
    if 0 < near && near <= list.len() && list[near - 1] as usize == i {
        return Some(near - 1);
    }
    let k = scan::place_of(s, list, Sought::Along(t));
    if k < list.len() && list[k] as usize == i {
        return Some(k);
    }
    None
}

// The segment t, at place i of the drawing, leaves the list.
fn take_out(s: &[i32], t: Segment, i: usize, list: &mut [u16], status: Status) -> Option<Status>
    requires { let d = segments s.now in let l = take status.used list.old in
        Faultless d
        × (t ≡ segment_at d i)
        × (i < length d)
        × RoomFor status.used list.old
        × PlacesOf d l
        × InOrder d l
        × Distinct l }
    ensures passed { let d = segments s.now in let l = take status.used list.old in
        IfSome result (λ left. (left.used ≤ status.used) × HasLeft d ((length d + i) ∷ []) l (take left.used list.new)) }
    ensures can { let l = take status.used list.old in
        (x : ℤ) → Spanning (segments s.now) x l → i ∈ l → IsSome result }
{
    let used = status.used;
    let k = place_to_leave(s, t, i, &list[..used], status.near)?;
    if !closes_at(s, &list[..used], k) {
        return None;
    }
    scan::remove(list, used, k);
    Some(Status {
        used: used - 1,
        near: k,
    })
}

// The lower of a place at which one left or entered, and the lowest before it, if there is one.
pub fn lowest_place(before: Option<usize>, here: usize) -> usize {
    match before {
        Some(lowest) => lowest.min(here),
        None => here,
    }
}

// All these ends are passed, one after the other. The place told is the lowest at which one left, or the one before.
pub fn leave_all(s: &[i32], ends: &[u16], list: &mut [u16], status: Status) -> Option<Status>
    requires { let d = segments s.now in let l = take status.used list.old in
        Faultless d
        × ((e : ℕ) → e ∈ ends.now → e < 2 * length d)
        × RoomFor status.used list.old
        × PlacesOf d l
        × InOrder d l
        × Distinct l }
    ensures passed { let d = segments s.now in let l = take status.used list.old in
        IfSome result (λ left. (left.used ≤ status.used) × HasLeft d ends.now l (take left.used list.new)) }
    ensures can { CanLeave (segments s.now) ends.now (take status.used list.old) → IsSome result }
{
    let mut held = status;
    let mut lowest = None;
    for e in ends {
        let before = held.used;
        held = leave_one(s, *e, list, held)?;
        if held.used < before {
            lowest = Some(lowest_place(lowest, held.near));
        }
    }
    Some(Status {
        used: held.used,
        near: lowest.unwrap_or(status.near),
    })
}

// Whether the segment at place i may stand at place k of the list.
fn fits_at(s: &[i32], list: &[u16], k: usize, i: u16) -> bool
    requires { let d = segments s.now in
        Faultless d × PlacesOf d list.now × (i < length d) × (k ≤ length list.now) }
    ensures { (result ≡ true) ↔ FitsAt (segments s.now) k i list.now }
{
    stands_over(s, list, k, i) && stands_under(s, list, k, i)
}

// A place at which the segment t, at place i of the drawing, fits: where the last one entered, else by search. Without a wrong meeting it is found.
fn place_to_enter(s: &[i32], t: Segment, i: u16, list: &[u16], near: usize) -> Option<usize>
    requires { let d = segments s.now in
        Faultless d × (t ≡ segment_at d i) × PlacesOf d list.now × (i < length d) }
    ensures fits { IfSome result (λ k. FitsAt (segments s.now) k i list.now) }
    ensures can { let l = list.now in
        (x : ℤ) → Spanning (segments s.now) x (i ∷ l) → (i ∈ l → ⊥) → IsSome result }
{
    if near <= list.len() && fits_at(s, list, near, i) {
        return Some(near);
    }
    let k = scan::place_of(s, list, Sought::Along(t));
    if fits_at(s, list, k, i) {
        return Some(k);
    }
    None
}

// The segment at place i is passed: where it is not vertical it enters the list.
fn enter_one(s: &[i32], i: usize, list: &mut [u16], status: Status) -> Option<Status>
    requires { let d = segments s.now in let l = take status.used list.old in
        Faultless d
        × (i < length d)
        × RoomFor status.used list.old
        × PlacesOf d l
        × InOrder d l }
    ensures passed { let d = segments s.now in let l = take status.used list.old in
        IfSome result (λ entered. let l' = take entered.used list.new in
        (entered.used ≤ status.used + 1) × Entered d i (i + 1) l l' × Marked i status.near l entered.near l') }
    ensures can { CanEnter (segments s.now) i (i + 1) (take status.used list.old) → IsSome result }
{
    let t = segm::segment_in(s, i);
    if scan::is_vertical(t) {
        return Some(status);
    }
    let used = status.used;
    let k = place_to_enter(s, t, i as u16, &list[..used], status.near)?;
    scan::insert(list, used, k, i as u16);
    Some(Status {
        used: used + 1,
        near: k + 1,
    })
}

// The segments from one place up to another are passed. The place told is that after the last one that entered, or the one before.
pub fn enter_all(
    s: &[i32],
    from: usize,
    to: usize,
    list: &mut [u16],
    status: Status,
) -> Option<Status>
    requires { let d = segments s.now in let l = take status.used list.old in
        Faultless d
        × (from ≤ to)
        × (to ≤ length d)
        × (status.used ≤ from)
        × RoomFor (length d) list.old
        × PlacesOf d l
        × InOrder d l }
    ensures passed { let d = segments s.now in let l = take status.used list.old in
        IfSome result (λ entered. let l' = take entered.used list.new in
        (entered.used ≤ to) × Entered d from to l l' × (Older from l → Marks from entered.near l')) }
    ensures can { CanEnter (segments s.now) from to (take status.used list.old) → IsSome result }
{
    let mut held = status;
    for i in from..to {
        held = enter_one(s, i, list, held)?;
    }
    Some(held)
}
