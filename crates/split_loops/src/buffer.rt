// The loops of points, by a buffer and a memory of first sightings.
ghost use Rattle.std.specs.Prelude.{◌≡◌, true, cond, [], ◌∷◌, suc, ◌+◌, ◌*◌, ◌/◌, ◌≤◌, ◌<◌, ltb, length};
ghost use Rattle.geom.specs.Points.{in_range};
ghost use Rattle.lists.specs.Members.{keep};
ghost use Rattle.contour.specs.Points.{pair_up, AllInRange, Writes};
ghost use Rattle.contour.specs.Area.{is_large};
ghost use Rattle.bin_store.specs.Stores.{IsBinned};
ghost use Rattle.split_loops.specs.Loops.{buffer_point, buffer_points, rest, split_loops};
ghost use Rattle.split_loops.specs.Splitting.{loop_totals, first_points, Added, RoomFor, IsEmpty, HoldsLoops, Working, HasRoom, Splittable};

use bin_store::BinMemory;
use geom::Point;

// How many loops and points were written.
#[derive(Clone, Copy)]
pub struct LoopTotals {
    pub loops: usize,
    pub points: usize,
}

// Memory that is lent to split with: the lists of a memory of first sightings, and a buffer for all points.
#[derive(Drop)]
pub struct SplitMemory<'a> {
    pub heads: &'a mut [u16],
    pub nexts: &'a mut [u16],
    pub seen: &'a mut [i32],
    pub numbers: &'a mut [u16],
    pub buffer: &'a mut [i32],
}

// The lent lists that loops are written to, and how many stand there.
#[derive(Drop)]
struct LoopWriter<'a> {
    out: &'a mut [i32],
    lengths: &'a mut [u32],
    found: LoopTotals,
}

impl<'a> LoopWriter<'a> {
    // Writes a loop after those found, if it is large enough.
    fn add(&mut self, contour: &[i32], min_area: u64)
        requires { Splittable contour.now × (0 < length contour.now) × RoomFor (length contour.now / 2) self.old }
        ensures { Added (keep (is_large min_area) (pair_up contour.now ∷ [])) self.old self.new }
    {
        if !contour::is_large(contour, min_area) {
            return;
        }
        let n = contour.len() / 2;
        let start = 2 * self.found.points;
        contour::copy(contour, &mut self.out[start..start + contour.len()]);
        self.lengths[self.found.loops] = n as u32;
        self.found.loops += 1;
        self.found.points += n;
    }

    // Writes a rest of three or more points as the last loop.
    fn add_rest(&mut self, buffer: &[i32], min_area: u64)
        requires { Splittable buffer.now × RoomFor (length buffer.now / 2) self.old }
        ensures { Added (keep (is_large min_area) (rest (pair_up buffer.now))) self.old self.new }
    {
        if 4 < buffer.len() {
            self.add(buffer, min_area);
        }
    }
}

// Puts p after the first `len` points of the buffer and, if its number cuts, writes the loop that it closes.
fn close(
    p: Point,
    number: u16,
    min_area: u64,
    buffer: &mut [i32],
    len: usize,
    writer: &mut LoopWriter,
)
    requires { (in_range p ≡ true)
        × (len < 2048)
        × (2 * suc len ≤ length buffer.old)
        × (length buffer.old ≤ 4096)
        × AllInRange (first_points len buffer.old)
        × RoomFor (suc len) writer.old }
    ensures { (first_points (length (buffer_point number (first_points len buffer.old) p).buffer) buffer.new ≡ (buffer_point number (first_points len buffer.old) p).buffer)
        × Added (keep (is_large min_area) (buffer_point number (first_points len buffer.old) p).loops) writer.old writer.new }
{
    let from = number as usize;
    contour::put_point(buffer, len, p);
    if len < from + 2 {
        return;
    }
    writer.add(&buffer[2 * from..2 * (len + 1)], min_area);
}

// How many points the buffer has after one with this number.
fn length_after(number: u16, len: usize) -> usize
    requires { len < 2048 }
    ensures { result ≡ cond (ltb number len) number (suc len) }
{
    let from = number as usize;
    if from < len { from } else { len + 1 }
}

// One point after the other, with an empty memory: how many points the buffer has then.
fn take_points(
    points: &[i32],
    min_area: u64,
    mut store: BinMemory,
    buffer: &mut [i32],
    writer: &mut LoopWriter,
) -> usize
    requires { Splittable points.now
        × IsBinned store
        × (store.counts.count ≡ 0)
        × Working (length (pair_up points.now)) store.heads.now store.nexts.now store.seen.now store.numbers.now buffer.old
        × IsEmpty writer.old
        × (length points.now ≤ length writer.old.out.now)
        × (length (pair_up points.now) ≤ length writer.old.lengths.now) }
    ensures { (result ≡ length (buffer_points [] [] (pair_up points.now)).buffer)
        × (first_points result buffer.new ≡ (buffer_points [] [] (pair_up points.now)).buffer)
        × HoldsLoops (keep (is_large min_area) (buffer_points [] [] (pair_up points.now)).loops) writer.old writer.new }
{
    let mut len = 0;
    for i in 0..points.len() / 2 {
        let p = contour::point_at(points, i);
        let number = store.insert_if_not_exist(p, (len + 1) as u16);
        close(p, number, min_area, buffer, len, writer);
        len = length_after(number, len);
    }
    len
}

// The loops of points, written to the fronts of `out` and `lengths`. As many bins as points keep a look-up short.
pub fn split_loops(
    points: &[i32],
    min_area: u64,
    memory: SplitMemory,
    out: &mut [i32],
    lengths: &mut [u32],
) -> LoopTotals
    requires { Splittable points.now
        × HasRoom (length (pair_up points.now)) memory
        × (length points.now ≤ length out.old)
        × (length (pair_up points.now) ≤ length lengths.old) }
    ensures { (result ≡ loop_totals (split_loops min_area (pair_up points.now)))
        × Writes (split_loops min_area (pair_up points.now)) out.old lengths.old out.new lengths.new }
{
    let SplitMemory {
        heads,
        nexts,
        seen,
        numbers,
        buffer,
    } = memory;
    let bins = points.len() / 2 + 1;
    let store = BinMemory::new(&mut heads[..bins], nexts, seen, numbers);
    let mut writer = LoopWriter {
        out,
        lengths,
        found: LoopTotals {
            loops: 0,
            points: 0,
        },
    };
    let len = take_points(points, min_area, store, buffer, &mut writer);
    writer.add_rest(&buffer[..2 * len], min_area);
    writer.found
}
