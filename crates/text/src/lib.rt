// The comma text: lines that end in LF, first `rule,invert,boundary`, then a segment's numbers each, as many as the caller says. Any bytes, any width and any
// length of the lent list get an answer.
#![tactic(auto)]

mod lines;

ghost use Rattle.std.specs.Prelude.{◌≡◌};
ghost use Rattle.text.specs.Storing.{outcome, read_outcome};

use lines::{bad_line, find, read_line, read_lines};
use refusal::{Kind, Refusal};

// How many bytes the longest text has.
pub const MOST_BYTES: usize = 65536;

// The first line of a text.
#[derive(Clone, Copy)]
pub struct Choices {
    pub rule: i32,
    pub invert: i32,
    pub boundary: i32,
}

// What a text holds: its choices, and how many numbers come after them.
#[derive(Clone, Copy)]
pub struct Reading {
    pub choices: Choices,
    pub count: usize,
}

// Reads a text whose segments have so many numbers each. All of them go to the front of the lent list, but only if every line is good (1) and the list is long
// enough (11).
pub fn read(text: &[u8], width: usize, numbers: &mut [i32]) -> Result<Reading, Refusal>
    ensures { outcome result numbers.new ≡ read_outcome width text.now numbers.old }
{
    if MOST_BYTES < text.len() {
        return Err(bad_line(0));
    }
    let Some(end) = find(text, b'\n') else {
        return Err(bad_line(1));
    };
    let mut first = [0; 3];
    if !read_line(&text[..end], 3, &mut first, 0) {
        return Err(bad_line(1));
    }
    let rest = &text[end + 1..];
    // The first time nothing is stored.
    let count = read_lines(rest, width, &mut [])?;
    if refusal::is_short(numbers.len(), 1, count) {
        return Err(Refusal {
            kind: Kind::TooShort,
            place: 0,
        });
    }
    let _ = read_lines(rest, width, numbers);
    let [rule, invert, boundary] = first;
    Ok(Reading {
        choices: Choices {
            rule,
            invert,
            boundary,
        },
        count,
    })
}
