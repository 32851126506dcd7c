// The writer of drawing texts, and the mover of stored texts from the form without lots to the one with them and back. Any numbers, any bytes and any length of
// the lent list get an answer.
#![tactic(auto)]

ghost use Rattle.std.specs.Prelude.{◌≡◌, ◌*◌, ◌≤◌, length};
ghost use Rattle.refusal.specs.Order.{accepted};
ghost use Rattle.segm.specs.Segments.{width, segments};
ghost use Rattle.text_forms.specs.declared.Form.TheVariants.{Old, New};
ghost use Rattle.text_forms.specs.Forms.{writing};
ghost use Rattle.stored_text.specs.Outcome.{outcome, lots_of, written_unless, write_outcome, move_outcome};

use refusal::{Kind, Refusal};
use text::Choices;
use text_forms::Form;

// Writes a drawing's text and tells how many bytes it has, unless the list is too short for it (11).
fn write_text(form: Form, c: Choices, numbers: &[i32], out: &mut [u8]) -> Result<usize, Refusal>
    requires { length (segments numbers.now) ≤ 1024 }
    ensures { outcome result out.new ≡ written_unless accepted (writing form c (segments numbers.now)) out.old }
{
    if refusal::is_short(out.len(), 1, text_forms::text_length(form, c, numbers)) {
        return Err(Refusal {
            kind: Kind::TooShort,
            place: 0,
        });
    }
    Ok(text_forms::put_text(form, c, numbers, out))
}

// Writes the text of a drawing and its choices.
pub fn write(
    numbers: &[i32],
    rule: i32,
    invert: i32,
    boundary: i32,
    out: &mut [u8],
) -> Result<usize, Refusal>
    ensures { outcome result out.new ≡ write_outcome numbers.now (record { rule = rule; invert = invert; boundary = boundary }) out.old }
{
    checks::check_input(numbers, rule, invert, boundary)?;
    let c = Choices {
        rule,
        invert,
        boundary,
    };
    write_text(Form::New, c, numbers, out)
}

// Refusal 14 at the first place with a lot other than 0.
#[tactic(auto, using(crate::proofs::Lots::lost_here, crate::proofs::Lots::kept_here))]
fn first_lot(numbers: &[i32]) -> Result<(), Refusal>
    ensures { result ≡ lots_of Old (segments numbers.now) }
{
    for i in 0..segm::count(numbers) {
        let t = segm::segment_in(numbers, i);
        if t.lot != 0 {
            return Err(Refusal {
                kind: Kind::LotLost,
                place: i,
            });
        }
    }
    Ok(())
}

// Refusal 14: the old form has no room for lots.
#[tactic(auto, using(crate::proofs::Lots::none_lost))]
fn check_lots(to: Form, numbers: &[i32]) -> Result<(), Refusal>
    ensures { result ≡ lots_of to (segments numbers.now) }
{
    match to {
        Form::Old => first_lot(numbers),
        Form::New => Ok(()),
    }
}

// Moves a text. The list `numbers` is working memory.
fn move_read(
    text: &[u8],
    from: Form,
    to: Form,
    numbers: &mut [i32],
    out: &mut [u8],
) -> Result<usize, Refusal>
    requires { length numbers.old ≡ 1024 * width }
    ensures { outcome result out.new ≡ move_outcome from to text.now out.old }
{
    let reading = text_forms::read_form(text, from, numbers)?;
    let c = reading.choices;
    let drawing = &numbers[..reading.count];
    checks::check_input(drawing, c.rule, c.invert, c.boundary)?;
    check_lots(to, drawing)?;
    write_text(to, c, drawing, out)
}

// The text of the same drawing and choices in another form.
pub fn move_text(text: &[u8], from: Form, to: Form, out: &mut [u8]) -> Result<usize, Refusal>
    ensures { outcome result out.new ≡ move_outcome from to text.now out.old }
{
    let mut numbers = [0; segm::NUMBERS];
    move_read(text, from, to, &mut numbers, out)
}
