// What the programs that read a text share: whether they have it to its end, and an answer written in one call. It assumes what std's readers and writers claim
// of `read` and `write`; no contract can say what these read or write.
#![tactic(auto)]

ghost use Rattle.std.specs.Prelude.{◌≤◌, length};
ghost use Rattle.io.specs.Counts.{IsPrefixLen};

use std::io::{Read, Write};

// One byte more than the longest text has: a longer one is seen to be too long.
pub const ROOM: usize = text::MOST_BYTES + 1;

// How many bytes a read put at the front of a list: none where it failed.
fn read_some<R: Read>(input: &mut R, list: &mut [u8]) -> usize
    ensures { result ≤ length list.new }
{
    input.read(list).unwrap_or(0)
}

// Reads until the list is full, the input ends or a read fails, and tells how many bytes that put at its front.
pub fn read_full<R: Read>(input: &mut R, list: &mut [u8]) -> usize
    ensures { IsPrefixLen result list.new }
{
    let mut done = 0;
    while done < list.len() {
        let n = read_some(input, &mut list[done..]);
        if n == 0 {
            break;
        }
        done += n;
    }
    done
}

// Says on standard error what a program could not do. Where that fails too there is nobody to tell.
fn complain<E: Write>(name: &[u8], what: &[u8], errors: &mut E) {
    if errors.write_all(name).is_ok() {
        let _ = errors.write_all(what);
    }
}

// Whether there is nothing left to read. A read that fails is no end: half a text must not pass for a whole one.
fn is_at_end<R: Read>(input: &mut R) -> bool {
    let mut more = [0; 1];
    input.read(&mut more).is_ok_and(|n| n == 0)
}

// Whether the n bytes that were read into `ROOM` are a whole text, or too many for one.
pub fn is_whole<R: Read, E: Write>(name: &[u8], input: &mut R, n: usize, errors: &mut E) -> bool {
    if n < ROOM && !is_at_end(input) {
        complain(name, b": the text could not be read to its end\n", errors);
        return false;
    }
    true
}

// Writes an answer.
pub fn print<W: Write, E: Write>(name: &[u8], answer: &[u8], out: &mut W, errors: &mut E) {
    if out.write_all(answer).is_err() {
        complain(name, b": the answer could not be written\n", errors);
    }
}
