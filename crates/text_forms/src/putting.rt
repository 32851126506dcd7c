// The text of a drawing, put into a list of bytes, and how many bytes it has.
ghost use Rattle.std.specs.Prelude.{◌≡◌, ◌≤◌, length};
ghost use Rattle.segm.specs.Segments.{segments};
ghost use Rattle.text.specs.Writing.{choice_numbers};
ghost use Rattle.writing.specs.Puts.{Put};
ghost use Rattle.text_forms.specs.Forms.{writing};

use super::{Form, fields};
use text::Choices;
use writing::Writer;

// The numbers of the first line.
#[tactic(auto, unfolding(text::specs::Writing::choice_numbers))]
fn first_row(c: Choices) -> [i32; 3]
    ensures { (result ≡ choice_numbers c) × (3 ≡ length result) }
{
    [c.rule, c.invert, c.boundary]
}

// How many bytes the text of a drawing has.
pub fn text_length(form: Form, c: Choices, numbers: &[i32]) -> usize
    requires { length (segments numbers.now) ≤ 1024 }
    ensures { result ≡ length (writing form c (segments numbers.now)) }
{
    let k = fields(form);
    let mut total = writing::line_length(&first_row(c));
    for i in 0..segm::count(numbers) {
        let from = i * segm::WIDTH;
        total += writing::line_length(&numbers[from..from + k]);
    }
    total
}

// The text of a drawing, at the front of a list that has room for it; tells how many bytes it has.
pub fn put_text(form: Form, c: Choices, numbers: &[i32], out: &mut [u8]) -> usize
    requires { length (writing form c (segments numbers.now)) ≤ length out.old }
    ensures { Put out.old 0 (writing form c (segments numbers.now)) result out.new }
{
    let k = fields(form);
    let mut text = Writer::new(out);
    text.put_line(&first_row(c));
    for i in 0..segm::count(numbers) {
        let from = i * segm::WIDTH;
        text.put_line(&numbers[from..from + k]);
    }
    text.at
}
