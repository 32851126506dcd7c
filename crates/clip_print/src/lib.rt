// The printed lines of a clip run, put into a lent list of bytes.
#![tactic(auto)]

ghost use Rattle.std.specs.Prelude.{◌*◌, ◌≤◌, length};
ghost use Rattle.lists.specs.Sums.{tally};
ghost use Rattle.contour.specs.Points.{pair_up, cut};
ghost use Rattle.writing.specs.Puts.{Put, Room, Appended};
ghost use Rattle.clip_print.specs.Printed.{Held, point_line, path_lines, paths_lines, total_line, lines_of};

use clip_paths::Totals;
use geom::Point;
use writing::Writer;

// A point's line.
fn put_point(path: usize, point: usize, p: Point, lines: &mut Writer)
    requires { Room lines.old (point_line path point p) }
    ensures { Appended lines.old (point_line path point p) lines.new }
{
    lines.put_number(path);
    lines.put_next(point);
    lines.put_next(p.x);
    lines.put_next(p.y);
    lines.put_byte(b'\n');
}

// The lines of one path, given by its x, y pairs.
fn put_path(path: usize, points: &[i32], lines: &mut Writer)
    requires { Room lines.old (path_lines path 0 (pair_up points.now)) }
    ensures { Appended lines.old (path_lines path 0 (pair_up points.now)) lines.new }
{
    for i in 0..points.len() / 2 {
        let p = Point {
            x: points[2 * i],
            y: points[2 * i + 1],
        };
        put_point(path, i, p, lines);
    }
}

// The lines of all paths, each with as many points as its length says.
fn put_paths(points: &[i32], lengths: &[u32], lines: &mut Writer)
    requires lengths_in_bounds { 2 * tally (λ n. n) lengths.now ≤ length points.now }
    requires room { Room lines.old (paths_lines 0 (cut (length lengths.now) lengths.now (pair_up points.now))) }
    ensures { Appended lines.old (paths_lines 0 (cut (length lengths.now) lengths.now (pair_up points.now))) lines.new }
{
    let mut from = 0;
    for (k, n) in lengths.iter().enumerate() {
        let to = from + 2 * *n as usize;
        put_path(k, &points[from..to], lines);
        from = to;
    }
}

// The last line.
fn put_total(t: Totals, lines: &mut Writer)
    requires { Room lines.old (total_line t) }
    ensures { Appended lines.old (total_line t) lines.new }
{
    lines.put_bytes(b"total");
    lines.put_next(t.paths);
    lines.put_next(t.points);
    lines.put_next(t.steps);
    lines.put_next(t.travel);
    lines.put_byte(b'\n');
}

// The lines of an accepted run, at the front of a list that has room for them; tells how many bytes they have.
pub fn put_run(t: Totals, points: &[i32], lengths: &[u32], out: &mut [u8]) -> usize
    requires held { Held t.paths points.now lengths.now }
    requires points_in_bounds { length (lines_of (Ok t) (cut t.paths lengths.now (pair_up points.now))) ≤ length out.old }
    ensures { Put out.old 0 (lines_of (Ok t) (cut t.paths lengths.now (pair_up points.now))) result out.new }
{
    let mut lines = Writer::new(out);
    put_paths(points, &lengths[..t.paths], &mut lines);
    put_total(t, &mut lines);
    lines.at
}
