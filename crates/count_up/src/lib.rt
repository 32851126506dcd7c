// The top counts of the segments that start at one point, by their places in the ordered list of the open ones.
#![tactic(auto)]

ghost use Rattle.std.specs.Prelude.{◌≡◌, ℕ, ◌≤◌, ◌<◌, length, nat_abs};
ghost use Rattle.lists.specs.Members.{◌∈◌};
ghost use Rattle.segm.specs.Segments.{segments};
ghost use Rattle.faults.specs.Faultless.{Faultless};
ghost use Rattle.strip.specs.Neighbours.{PlacesOf};
ghost use Rattle.count_up.specs.CountUp.{count_up, last_in, BoundedBy, LowEnd, HighEnd, Climbed};

// Down from a place of the list, the last place from which on all are `first` or more.
fn low_end(list: &[u16], first: usize, place: usize) -> usize
    requires { place ≤ length list.now }
    ensures { LowEnd first place list.now result }
{
    for k in (0..place).rev() {
        if (list[k] as usize) < first {
            return k + 1;
        }
    }
    0
}

// Up from a place of the list, the first place at which one is less than `first`.
fn high_end(list: &[u16], first: usize, place: usize) -> usize
    requires { place ≤ length list.now }
    ensures { HighEnd first place list.now result }
{
    for k in place..list.len() {
        if (list[k] as usize) < first {
            return k;
        }
    }
    list.len()
}

// The top count of the last of the list, 0 if there is none.
pub fn count_below(list: &[u16], tops: &[i32]) -> i32
    requires { (i : ℕ) → i ∈ list.now → i < length tops.now }
    ensures { result ≡ last_in tops.now list.now }
{
    match list.last() {
        Some(&i) => tops[i as usize],
        None => 0,
    }
}

// The counts of a stretch of the list are written, from the count under it.
fn count_up(s: &[i32], stretch: &[u16], under: i32, tops: &mut [i32])
    requires { let d = segments s.now in
        Faultless d
        × PlacesOf d stretch.now
        × (length stretch.now ≤ 1024)
        × (nat_abs under ≤ 2100000000)
        × (length d ≤ length tops.old) }
    ensures { tops.new ≡ count_up (segments s.now) under stretch.now tops.old }
{
    let mut sum = under;
    for place in stretch {
        let i = *place as usize;
        let t = segm::segment_in(s, i);
        sum += t.winding;
        tops[i] = sum;
    }
}

// The counts of those of the list that are `first` or more are written, if one of them stands at the place before `near`. The place told is that after them.
pub fn count_node(s: &[i32], list: &[u16], first: usize, near: usize, tops: &mut [i32]) -> usize
    requires { let d = segments s.now in
        Faultless d
        × PlacesOf d list.now
        × (length list.now ≤ 1024)
        × (near ≤ length list.now)
        × BoundedBy 2100000000 tops.old
        × (length d ≤ length tops.old) }
    ensures { Climbed (segments s.now) first near list.now tops.old tops.new result }
{
    let low = low_end(list, first, near);
    let high = high_end(list, first, near);
    let under = count_below(&list[..low], tops);
    count_up(s, &list[low..high], under, tops);
    high
}
