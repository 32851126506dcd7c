// The lines of a text.
ghost use Rattle.std.specs.Prelude.{◌≡◌, ◌==◌, ◌+◌, ◌≤◌, length, set, position};
ghost use Rattle.refusal.specs.declared.Kind.TheVariants.{BadText};
ghost use Rattle.refusal.specs.Order.{refusal};
ghost use Rattle.text.specs.Grammar.{pieces, row, rows_from, most_bytes};
ghost use Rattle.text.specs.Storing.{row_stored, list_if, rows_stored, lines_stored};

use refusal::{Kind, Refusal};

// The place of the first byte b.
pub fn find(s: &[u8], b: u8) -> Option<usize>
    ensures { result ≡ position (λ x. x == b) s.now }
{
    s.iter().position(|x| *x == b)
}

// The refusal of a bad line: 1, with its place among the lines.
pub fn bad_line(line: usize) -> Refusal
    ensures { result ≡ refusal BadText line }
{
    Refusal {
        kind: Kind::BadText,
        place: line,
    }
}

// Stores z at a place; past the end of the list nothing.
fn store(numbers: &mut [i32], at: usize, z: i32)
    ensures { numbers.new ≡ set numbers.old at z }
{
    if at < numbers.len() {
        numbers[at] = z;
    }
}

// Whether a line holds k numbers, which are stored from place `at` on.
pub fn read_line(s: &[u8], k: usize, numbers: &mut [i32], at: usize) -> bool
    requires { at + length s.now ≤ most_bytes }
    ensures { list_if result numbers.new ≡ row_stored at numbers.old (row k (pieces 44 s.now)) }
{
    let mut rest = s;
    for i in 0..k {
        let comma = find(rest, b',');
        let Some(z) = decimal::number(&rest[..comma.unwrap_or(rest.len())]) else {
            return false;
        };
        store(numbers, at + i, z);
        let Some(end) = comma else {
            return i + 1 == k;
        };
        rest = &rest[end + 1..];
    }
    false
}

// The lines of a text from its second line on, each with `width` numbers: these are stored, and it is told how many they are.
pub fn read_lines(text: &[u8], width: usize, numbers: &mut [i32]) -> Result<usize, Refusal>
    requires { length text.now ≤ most_bytes }
    ensures { lines_stored result numbers.new ≡ rows_stored 0 numbers.old (rows_from width 2 (pieces 10 text.now)) }
{
    let mut rest = text;
    let mut line = 2;
    let mut at = 0;
    while let Some(end) = find(rest, b'\n') {
        if !read_line(&rest[..end], width, numbers, at) {
            return Err(bad_line(line));
        }
        at += width;
        line += 1;
        rest = &rest[end + 1..];
    }
    if rest.is_empty() {
        Ok(at)
    } else {
        Err(bad_line(line))
    }
}
