// The clip run on a comma text, and what is printed of it. Any bytes and any length of the lent lists get an answer.
#![tactic(auto)]

mod program;

ghost use Rattle.std.specs.Prelude.{◌≡◌, ◌*◌, ◌≤◌, length};
ghost use Rattle.io.specs.Counts.{IsPrefixLen};
ghost use Rattle.lists.specs.Written.{written};
ghost use Rattle.segm.specs.Segments.{width};
ghost use Rattle.string_clip.specs.Run.{lists, outcome};
ghost use Rattle.clip_print.specs.Printed.{printed};
ghost use Rattle.clip_print.specs.Lengths.{longest};
ghost use Rattle.clip_text.specs.Answer.{text_outcome, answer_to};

use clip_paths::Totals;
pub use program::run;
use refusal::Refusal;
use text_forms::Form;

// As many numbers and lengths as the largest drawing needs.
const POINTS: usize = 8 * segm::MOST;

const LENGTHS: usize = 2 * segm::MOST;

// The longest answer: 86 bytes for each of 4,096 points, 90 for the last line.
pub const LONGEST: usize = 43 * POINTS + 90;

// The clip run on a text. The list `numbers` is working memory.
fn clip_read(
    text: &[u8],
    numbers: &mut [i32],
    points: &mut [i32],
    lengths: &mut [u32],
) -> Result<Totals, Refusal>
    requires { length numbers.old ≡ 1024 * width }
    ensures { outcome result (lists points.new lengths.new) ≡ text_outcome text.now (lists points.old lengths.old) }
{
    let reading = text_forms::read_form(text, Form::New, numbers)?;
    let c = reading.choices;
    string_clip::clip(
        &numbers[..reading.count],
        c.rule,
        c.invert,
        c.boundary,
        points,
        lengths,
    )
}

// The clip run on a text: x, y pairs and one length a path, or the refusal, 1 for a malformed text.
pub fn clip_text(text: &[u8], points: &mut [i32], lengths: &mut [u32]) -> Result<Totals, Refusal>
    ensures { outcome result (lists points.new lengths.new) ≡ text_outcome text.now (lists points.old lengths.old) }
{
    let mut numbers = [0; segm::NUMBERS];
    clip_read(text, &mut numbers, points, lengths)
}

// What is printed for a text. The lists `points` and `lengths` are working memory.
fn answer_with(text: &[u8], points: &mut [i32], lengths: &mut [u32], out: &mut [u8]) -> usize
    requires { longest (length points.old) ≤ length out.old }
    ensures upper_bound { result ≤ length out.old }
    ensures value { (result ≡ length (printed (text_outcome text.now (lists points.old lengths.old))))
        × (out.new ≡ written (printed (text_outcome text.now (lists points.old lengths.old))) out.old) }
{
    match clip_text(text, points, lengths) {
        Ok(t) => clip_print::put_run(t, points, lengths, out),
        Err(refusal) => writing::put_refused(refusal.kind.number(), refusal.place, out),
    }
}

// What is printed for a text, put at the front of `out`; tells how many bytes that are.
pub fn answer(text: &[u8], out: &mut [u8; LONGEST]) -> usize
    ensures prefix_len { IsPrefixLen result out.new }
    ensures value { (result ≡ length (answer_to text.now)) × (out.new ≡ written (answer_to text.now) out.old) }
{
    let mut points = [0; POINTS];
    let mut lengths = [0; LENGTHS];
    answer_with(text, &mut points, &mut lengths, out)
}
