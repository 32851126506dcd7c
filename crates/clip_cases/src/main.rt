// Runs the clip program's work on each file that an argument names. It assumes what std claims of the C functions that it calls for it.
#![tactic(auto)]

use std::alloc::Global;
use std::env::{Env, FillError};
use std::fs::{File, Files};
use std::io::{Error, Write};
use std::str;

// Room for the longest path.
const PATH_MAX: usize = 4096;

// Says on standard error what could not be opened, and why.
fn fail<E: Write>(path: &[u8], why: &str, errors: &mut E) {
    let _ = errors.write_all(path);
    let _ = errors.write_all(b": ");
    let _ = errors.write_all(why.as_bytes());
    let _ = errors.write_all(b"\n");
}

// What the system calls an error, without the number that std puts behind it.
fn words(text: &str) -> &str {
    match text.split_once(" (os error ") {
        Some((said, _)) => said,
        None => text,
    }
}

fn fail_by<E: Write>(alloc: Global, path: &[u8], error: Error, errors: &mut E) {
    match format!(in alloc; "{error}") {
        Ok(text) => fail(path, words(text.as_str()), errors),
        Err(_) => fail(path, "it could not be opened", errors),
    }
}

fn run_one<F: Files, W: Write, E: Write>(
    files: &F,
    alloc: Global,
    path: &[u8],
    output: &mut W,
    errors: &mut E,
) {
    let Ok(name) = str::from_utf8(path) else {
        fail(path, "its name is not UTF-8", errors);
        return;
    };
    match File::open(files, name) {
        Ok(mut input) => {
            let _ = output.write_all(path);
            let _ = output.write_all(b":\n");
            clip_text::run(&mut input, output, errors);
        }
        Err(error) => fail_by(alloc, path, error, errors),
    }
}

fn main(rt: HostRuntime) {
    for i in 1..usize::MAX {
        let mut path = [0u8; PATH_MAX];
        let length = match rt.arg(i, &mut path) {
            Ok(n) => n,
            Err(FillError::TooLong) => 0,
            Err(FillError::NotPresent) => break,
        };
        run_one(
            &rt,
            rt.alloc(),
            &path[..length],
            &mut rt.stdout(),
            &mut rt.stderr(),
        );
    }
}
