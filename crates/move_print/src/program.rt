// The work of the programs: reads a text, and writes it, moved. What is written is `answer`'s, in one call. It assumes what std's readers and writers claim of
// `read` and `write`.
use super::answer;
use std::io::{Read, Write};
use text_forms::Form;

// Reads the text that an input holds, and writes its answer.
pub fn run<R: Read, W: Write, E: Write>(
    name: &[u8],
    input: &mut R,
    from: Form,
    to: Form,
    output: &mut W,
    errors: &mut E,
) {
    let mut text = [0u8; text_io::ROOM];
    let n = text_io::read_full(input, &mut text);
    if !text_io::is_whole(name, input, n, errors) {
        return;
    }
    let mut out = [0u8; text::MOST_BYTES];
    let k = answer(&text[..n], from, to, &mut out);
    text_io::print(name, &out[..k], output, errors);
}
