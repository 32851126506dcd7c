// The program's work: reads a text, and writes its answer. What is written is `answer`'s, in one call. It assumes what std's readers and writers claim of `read` and
// `write`.
use super::{LONGEST, answer};
use std::io::{Read, Write};

// Reads the text that an input holds, and writes its answer.
pub fn run<R: Read, W: Write, E: Write>(input: &mut R, output: &mut W, errors: &mut E) {
    let mut text = [0u8; text_io::ROOM];
    let n = text_io::read_full(input, &mut text);
    if !text_io::is_whole(b"clip", input, n, errors) {
        return;
    }
    let mut out = [0u8; LONGEST];
    let k = answer(&text[..n], &mut out);
    text_io::print(b"clip", &out[..k], output, errors);
}
