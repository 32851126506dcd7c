// What is printed for a text that is moved, and the work of the programs that move one.
#![tactic(auto)]

mod program;

ghost use Rattle.std.specs.Prelude.{◌≡◌, length};
ghost use Rattle.io.specs.Counts.{IsPrefixLen};
ghost use Rattle.lists.specs.Written.{written};
ghost use Rattle.move_print.specs.Answer.{answer_to};

pub use program::run;
use text_forms::Form;

// What is printed for a text, put at the front of `out`; tells how many bytes that are.
pub fn answer(text: &[u8], from: Form, to: Form, out: &mut [u8; text::MOST_BYTES]) -> usize
    ensures prefix_len { IsPrefixLen result out.new }
    ensures value { (result ≡ length (answer_to from to text.now)) × (out.new ≡ written (answer_to from to text.now) out.old) }
{
    match stored_text::move_text(text, from, to, out) {
        Ok(count) => count,
        Err(refusal) => writing::put_refused(refusal.kind.number(), refusal.place, out),
    }
}
