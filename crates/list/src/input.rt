// What comes from outside: the words behind the program's name, and the bytes of standard input.
ghost use Rattle.std.specs.Prelude.{IfSome};
ghost use Rattle.std.specs.Io.{ReadsAtMost};
ghost use Rattle.io.specs.Counts.{IsPrefixLen};

use std::env::{Env, FillError};
use std::io::{ErrorKind, Read, Result};

// A read that signals interrupt is made no more often.
const TRIES: usize = 1000;

// Puts the words behind the program's name into a text, a 0 after each, and gives their size, if they fit.
pub fn read_words(rt: &HostRuntime, text: &mut [u8]) -> Option<usize>
    ensures { IfSome result (λ size. IsPrefixLen size text.new) }
{
    let mut size: usize = 0;
    for i in 1..usize::MAX {
        let end = match rt.arg(i, &mut text[size..]) {
            Ok(n) => size + n,
            Err(FillError::NotPresent) => return Some(size),
            Err(FillError::TooLong) => return None,
        };
        if end == text.len() {
            return None;
        }
        text[end] = 0;
        size = end + 1;
    }
    Some(size)
}

// Reads once, and again where a signal interrupted that.
fn read_once(rt: &HostRuntime, bytes: &mut [u8]) -> Result<usize>
    ensures { ReadsAtMost result bytes.new }
{
    let mut stdin = rt.stdin();
    for _ in 1..TRIES {
        match stdin.read(bytes) {
            Err(e) if e.kind() == ErrorKind::Interrupted => {}
            answer => return answer,
        }
    }
    stdin.read(bytes)
}

// Reads standard input up to its end, or as much of it as there is room for, and gives the size of that.
pub fn read_program(rt: &HostRuntime, bytes: &mut [u8]) -> Result<usize>
    ensures { ReadsAtMost result bytes.new }
{
    let mut size: usize = 0;
    while size < bytes.len() {
        match read_once(rt, &mut bytes[size..])? {
            0 => break,
            more => size += more,
        }
    }
    Ok(size)
}
