// A drawing's text in its two forms: read into a list of numbers, seven a segment, and put from one. The old form is from before lots.
#![tactic(auto)]

mod putting;

ghost use Rattle.std.specs.Prelude.{◌≡◌, ◌*◌, ◌≤◌, length, pos};
ghost use Rattle.lists.specs.Written.{written};
ghost use Rattle.segm.specs.Segments.{width, front, with_lot, laid};
ghost use Rattle.text.specs.Storing.{outcome};
ghost use Rattle.text_forms.specs.declared.Form.TheVariants.{Old, New};
ghost use Rattle.text_forms.specs.Forms.{old_width, fields_of};
ghost use Rattle.text_forms.specs.Reading.{refused_reading, old_segments, parsed_in, drawn_into};

use geom::Point;
pub use putting::{put_text, text_length};
use refusal::{Kind, Refusal};
use segm::Segment;
use text::Reading;

// The form with lots, and the one from before them.
#[derive(Clone, Copy)]
pub enum Form {
    Old,
    New,
}

// How many numbers of a segment a line of the old form has.
const OLD_WIDTH: usize = 6;

// How many numbers the longest text of the old form has.
const OLD_NUMBERS: usize = segm::MOST * OLD_WIDTH;

// How many numbers of a segment a line of a form has.
pub fn fields(form: Form) -> usize
    ensures { result ≡ fields_of form }
{
    match form {
        Form::Old => OLD_WIDTH,
        Form::New => segm::WIDTH,
    }
}

// The segment in a line of the old form.
#[tactic(auto, unfolding(segm::specs::Segments::front))]
fn old_segment(l: &[i32]) -> Segment
    requires { length l.now ≡ old_width }
    ensures { result ≡ with_lot (pos 0) (front l.now) }
{
    Segment {
        a: Point { x: l[0], y: l[1] },
        b: Point { x: l[2], y: l[3] },
        winding: l[4],
        bits: l[5],
        lot: 0,
    }
}

// Six numbers a segment to seven: every lot is 0.
fn add_lots(old: &[i32], numbers: &mut [i32])
    requires { length (old_segments old.now) * width ≤ length numbers.old }
    ensures { numbers.new ≡ written (laid (old_segments old.now)) numbers.old }
{
    for i in 0..old.len() / OLD_WIDTH {
        let from = i * OLD_WIDTH;
        segm::put(numbers, i, old_segment(&old[from..from + OLD_WIDTH]));
    }
}

// What a refused reading tells. The list holds the largest drawing: where it is too short there are too many segments.
fn refused(refusal: Refusal) -> Refusal
    ensures { result ≡ refused_reading refusal }
{
    match refusal.kind {
        Kind::TooShort => Refusal {
            kind: Kind::WrongLength,
            place: 0,
        },
        _ => refusal,
    }
}

// A text of the old form. The list `old` is working memory.
fn read_old(text: &[u8], old: &mut [i32], numbers: &mut [i32]) -> Result<Reading, Refusal>
    requires { (length old.old ≡ 1024 * old_width) × (length numbers.old ≡ 1024 * width) }
    ensures { outcome result numbers.new ≡ drawn_into numbers.old (parsed_in Old text.now) }
{
    let reading = text::read(text, OLD_WIDTH, old).map_err(refused)?;
    add_lots(&old[..reading.count], numbers);
    Ok(Reading {
        count: reading.count / OLD_WIDTH * segm::WIDTH,
        ..reading
    })
}

// A text of the new form.
fn read_new(text: &[u8], numbers: &mut [i32]) -> Result<Reading, Refusal>
    requires { length numbers.old ≡ 1024 * width }
    ensures { outcome result numbers.new ≡ drawn_into numbers.old (parsed_in New text.now) }
{
    text::read(text, segm::WIDTH, numbers).map_err(refused)
}

// The drawing of a text: its choices, and how many numbers its segments have, seven each; or 1, or 2.
pub fn read_form(text: &[u8], form: Form, numbers: &mut [i32]) -> Result<Reading, Refusal>
    requires { length numbers.old ≡ 1024 * width }
    ensures { outcome result numbers.new ≡ drawn_into numbers.old (parsed_in form text.now) }
{
    match form {
        Form::Old => {
            let mut old = [0; OLD_NUMBERS];
            read_old(text, &mut old, numbers)
        }
        Form::New => read_new(text, numbers),
    }
}
