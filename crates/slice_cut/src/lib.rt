// Walks cut into loops, and loops made contours: each with its role, and turned round where it must be.
#![tactic(auto)]

ghost use Rattle.std.specs.Prelude.{◌≡◌, ◌+◌, ◌*◌, ◌≤◌, length};
ghost use mathlib.Core.List.{map, flatten};
ghost use Rattle.lists.specs.Sums.{tally};
ghost use Rattle.lists.specs.Written.{written};
ghost use Rattle.contour.specs.Points.{coordinates, pair_up};
ghost use Rattle.split_loops.specs.Loops.{split_loops};
ghost use Rattle.split_loops.specs.Splitting.{loop_totals};
ghost use Rattle.split_loops.specs.Splitting.{HasRoom, Splittable};
ghost use Rattle.contour.specs.Contour.{contour_of};
ghost use Rattle.slice_cut.specs.Cutting.{walk_contours, points_of, roles_of, counts, Holds, paths_in, cut_walks, Stand};

use split_loops::{
    COORDINATES, HEADS, LoopTotals, MOST, SMALL, SMALL_COORDINATES, SMALL_HEADS, SplitMemory,
};

// How many contours and points were found.
#[derive(Clone, Copy)]
pub struct Contours {
    pub contours: usize,
    pub points: usize,
}

// Makes all loops in the lists contours.
fn finish_all(
    points: &mut [i32],
    lengths: &[u32],
    roles: &mut [u8],
    direction: bool,
    clockwise: bool,
)
    requires { Stand points.old lengths.now × (length lengths.now ≤ length roles.old) }
    ensures { (points.new ≡ written (coordinates (flatten (points_of (map (contour_of clockwise direction) (paths_in points.old lengths.now))))) points.old)
        × (roles.new ≡ written (roles_of (map (contour_of clockwise direction) (paths_in points.old lengths.now))) roles.old) }
{
    let mut from = 0;
    for (k, length) in lengths.iter().enumerate() {
        let to = from + 2 * *length as usize;
        roles[k] = contour::finish(&mut points[from..to], direction, clockwise);
        from = to;
    }
}

// The contours of one walk.
fn cut_walk(
    walk: &[i32],
    direction: bool,
    clockwise: bool,
    min_area: u64,
    memory: SplitMemory,
    points: &mut [i32],
    lengths: &mut [u32],
    roles: &mut [u8],
) -> LoopTotals
    requires { Splittable walk.now
        × HasRoom (length (pair_up walk.now)) memory
        × (length walk.now ≤ length points.old)
        × (length (pair_up walk.now) ≤ length lengths.old)
        × (length (pair_up walk.now) ≤ length roles.old) }
    ensures { (result ≡ loop_totals (split_loops min_area (pair_up walk.now)))
        × Holds (walk_contours clockwise min_area direction (pair_up walk.now)) points.old lengths.old roles.old points.new lengths.new roles.new }
{
    let found = split_loops::split_loops(walk, min_area, memory, points, lengths);
    finish_all(points, &lengths[..found.loops], roles, direction, clockwise);
    found
}

// The contours of all walks, in order. It owns the memory for up to POINTS points, and stands by itself, so that no other memory stands beside it.
#[inline(never)]
fn cut_in<const POINTS: usize, const NUMBERS: usize, const BINS: usize>(
    walks: &[i32],
    walk_lengths: &[u16],
    directions: &[u8],
    clockwise: bool,
    min_area: u64,
    points: &mut [i32],
    lengths: &mut [u32],
    roles: &mut [u8],
) -> Contours
    requires sizes { (POINTS ≤ 2048) × (NUMBERS ≡ 2 * POINTS) × (BINS ≡ POINTS + 1) }
    requires walks_stand { Stand walks.now walk_lengths.now × (length directions.now ≡ length walk_lengths.now) × (tally (λ n. n) walk_lengths.now ≤ POINTS) }
    requires room { (2 * length (flatten (paths_in walks.now walk_lengths.now)) ≤ length points.old)
        × (length (flatten (paths_in walks.now walk_lengths.now)) ≤ length lengths.old)
        × (length (flatten (paths_in walks.now walk_lengths.now)) ≤ length roles.old) }
    ensures { (result ≡ counts (cut_walks clockwise min_area (paths_in walks.now walk_lengths.now) directions.now))
        × Holds (cut_walks clockwise min_area (paths_in walks.now walk_lengths.now) directions.now) points.old lengths.old roles.old points.new lengths.new roles.new }
{
    let mut heads = [0u16; BINS];
    let mut nexts = [0u16; POINTS];
    let mut seen = [0i32; NUMBERS];
    let mut numbers = [0u16; POINTS];
    let mut buffer = [0i32; NUMBERS];
    let mut contours = 0;
    let mut at = 0;
    let mut from = 0;
    for (k, length) in walk_lengths.iter().enumerate() {
        let to = from + 2 * *length as usize;
        let found = cut_walk(
            &walks[from..to],
            directions[k] == 1,
            clockwise,
            min_area,
            SplitMemory {
                heads: &mut heads,
                nexts: &mut nexts,
                seen: &mut seen,
                numbers: &mut numbers,
                buffer: &mut buffer,
            },
            &mut points[2 * at..],
            &mut lengths[contours..],
            &mut roles[contours..],
        );
        contours += found.loops;
        at += found.points;
        from = to;
    }
    Contours {
        contours,
        points: at,
    }
}

// The contours of all walks, with memory for those of a small drawing or of any.
pub fn cut_walks(
    walks: &[i32],
    walk_lengths: &[u16],
    directions: &[u8],
    clockwise: bool,
    min_area: u64,
    points: &mut [i32],
    lengths: &mut [u32],
    roles: &mut [u8],
) -> Contours
    requires { Stand walks.now walk_lengths.now
        × (length directions.now ≡ length walk_lengths.now)
        × (2 * length (flatten (paths_in walks.now walk_lengths.now)) ≤ length points.old)
        × (length (flatten (paths_in walks.now walk_lengths.now)) ≤ length lengths.old)
        × (length (flatten (paths_in walks.now walk_lengths.now)) ≤ length roles.old) }
    ensures { (result ≡ counts (cut_walks clockwise min_area (paths_in walks.now walk_lengths.now) directions.now))
        × Holds (cut_walks clockwise min_area (paths_in walks.now walk_lengths.now) directions.now) points.old lengths.old roles.old points.new lengths.new roles.new }
{
    if walks.len() <= SMALL_COORDINATES {
        return cut_in::<SMALL, SMALL_COORDINATES, SMALL_HEADS>(
            walks,
            walk_lengths,
            directions,
            clockwise,
            min_area,
            points,
            lengths,
            roles,
        );
    }
    cut_in::<MOST, COORDINATES, HEADS>(
        walks,
        walk_lengths,
        directions,
        clockwise,
        min_area,
        points,
        lengths,
        roles,
    )
}
