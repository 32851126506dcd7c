// The memory over lent lists: made empty, and a point looked up or stored, by value, by `&mut`, and by plain parameters.
ghost use Rattle.std.specs.Prelude.{◌≡◌, true, ◌+◌, ◌≤◌, ◌<◌, length};
ghost use Rattle.geom.specs.Points.{in_range};
ghost use Rattle.bin_store.specs.Sightings.{number_of, sight};
ghost use Rattle.bin_store.specs.Bins.{bin_index, memory, Binned, RoomForItem, LookedUp};
ghost use Rattle.bin_store.specs.Stores.{IsBinned, HasRoom, IsUnseen, Same, Stores, Sights};

use geom::Point;
use std::mem;

// How many bins are in use and how many items are stored; the items stand in lists.
#[derive(Clone, Copy, Default)]
pub struct BinStore {
    pub bins: usize,
    pub count: usize,
}

// A map from points to numbers: for each bin the item stored last, and for each item the one stored before it in its bin, its point and its number.
// In the first two lists an item is named by one more than its place, and 0 is none: so 16 bits do, and empty bins are zeros.
#[derive(Default, Drop)]
pub struct BinMemory<'a> {
    pub heads: &'a mut [u16],
    pub nexts: &'a mut [u16],
    pub seen: &'a mut [i32],
    pub numbers: &'a mut [u16],
    pub counts: BinStore,
}

// The bin of p, as the Rust has it but for the number of bins.
fn bin_index(bins: usize, p: Point) -> usize
    requires { (0 < bins) × (in_range p ≡ true) }
    ensures { result ≡ bin_index bins p }
{
    let hash = 31 * p.x as i64 + 17 * p.y as i64 + 805306368;
    hash as usize % bins
}

// Empties the bins.
pub fn clear(heads: &mut [u16], nexts: &[u16], seen: &[i32], numbers: &[u16])
    requires { 0 < length heads.old }
    ensures { Binned 0 heads.new nexts.now seen.now numbers.now }
{
    heads.fill(0);
}

impl<'a> BinMemory<'a> {
    // An empty memory in these lists, with as many bins as there are heads.
    pub fn new(
        heads: &'a mut [u16],
        nexts: &'a mut [u16],
        seen: &'a mut [i32],
        numbers: &'a mut [u16],
    ) -> BinMemory<'a>
        requires { 0 < length heads.old }
        ensures binned { IsBinned result }
        ensures empty { result.counts.count ≡ 0 }
        ensures same_lists { Same heads.entry result.heads × Same nexts.entry result.nexts × Same seen.entry result.seen × Same numbers.entry result.numbers }
        ensures kept { (result.nexts.now ≡ nexts.old) × (result.seen.now ≡ seen.old) × (result.numbers.now ≡ numbers.old) }
    {
        clear(heads, nexts, seen, numbers);
        let bins = heads.len();
        BinMemory {
            heads,
            nexts,
            seen,
            numbers,
            counts: BinStore { bins, count: 0 },
        }
    }

    // The item that holds p.
    #[tactic(auto, using(crate::proofs::Bins::Links::bin_below))]
    fn find(&self, p: Point) -> Option<usize>
        requires { IsBinned self.now × (in_range p ≡ true) }
        ensures { LookedUp self.now.counts.count self.now.seen.now p result }
    {
        let b = bin_index(self.counts.bins, p);
        let mut j = self.heads[b] as usize;
        while 0 < j {
            let i = j - 1;
            if geom::same(contour::point_at(self.seen, i), p) {
                return Some(i);
            }
            j = self.nexts[i] as usize;
        }
        None
    }

    // Stores p and its number as the next item.
    #[tactic(auto, using(crate::proofs::Bins::Links::bin_below))]
    fn store(&mut self, p: Point, number: u16)
        requires { IsBinned self.old × HasRoom self.old × (in_range p ≡ true) × IsUnseen self.old p }
        ensures { Stores self.old p number self.new }
    {
        let b = bin_index(self.counts.bins, p);
        let i = self.counts.count;
        self.nexts[i] = self.heads[b];
        self.heads[b] = (i + 1) as u16;
        contour::put_point(self.seen, i, p);
        self.numbers[i] = number;
        self.counts.count = i + 1;
    }

    // The memory after a look-up of p, and the number stored for p, which is this one if p was not sighted before.
    pub fn insert(mut self, p: Point, number: u16) -> (BinMemory<'a>, u16)
        requires { IsBinned self × HasRoom self × (in_range p ≡ true) }
        ensures { Sights self.entry p number result.0 result.1 }
    {
        let found = self.find(p);
        if let Some(i) = found {
            let told = self.numbers[i];
            return (self, told);
        }
        self.store(p, number);
        (self, number)
    }

    // The same, the memory lent.
    pub fn insert_if_not_exist(&mut self, p: Point, number: u16) -> u16
        requires { IsBinned self.old × HasRoom self.old × (in_range p ≡ true) }
        ensures { Sights self.old p number self.new result }
    {
        let (after, told) = mem::take(self).insert(p, number);
        *self = after;
        told
    }
}

// How many items there are after a look-up, and the number stored for the point.
#[derive(Clone, Copy)]
pub struct Seen {
    pub count: usize,
    pub number: u16,
}

// The same by plain parameters, with as many bins as there are heads: its callers need no memory of their own.
pub fn sight_point(
    count: usize,
    heads: &mut [u16],
    nexts: &mut [u16],
    seen: &mut [i32],
    numbers: &mut [u16],
    p: Point,
    number: u16,
) -> Seen
    requires { Binned count heads.old nexts.old seen.old numbers.old × RoomForItem count nexts.old seen.old numbers.old × (in_range p ≡ true) }
    ensures { (memory result.count seen.new numbers.new ≡ sight (memory count seen.old numbers.old) p number)
        × (result.number ≡ number_of (memory result.count seen.new numbers.new) p)
        × (result.count ≤ count + 1)
        × Binned result.count heads.new nexts.new seen.new numbers.new }
{
    let bins = heads.len();
    let mut memory = BinMemory {
        heads,
        nexts,
        seen,
        numbers,
        counts: BinStore { bins, count },
    };
    let told = memory.insert_if_not_exist(p, number);
    Seen {
        count: memory.counts.count,
        number: told,
    }
}
