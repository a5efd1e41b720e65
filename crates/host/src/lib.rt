// What the programs ask of their host: bytes of an input, arguments, files by name.

#![tactic(auto)]

ghost use Rattle.std.specs.Prelude.{◌≡◌, ◌≤◌, length, take};
ghost use Rattle.std.specs.Io.KnownBytes.{Consumes};

use std::env::FillError;
use std::fs::File;
use std::io;
use std::io::{Cursor, ErrorKind, Read, Write};
use std::rt::{Env, Files};

// Zeros. 4,096 hold any path.
pub fn buffer<const N: usize>() -> [u8; N]
    ensures { N ≡ length result }
{
    [0; N]
}

// Reads until `buf` is full, the input ends or a read fails. The answer is how many bytes it put at the start of `buf`, as of std's `read`,
// which may stop earlier. A loop: std's `read_to_end` wants a heap, and `read_exact` does not say how much it put.
pub fn read_full<R: Read>(from: &mut R, buf: &mut [u8]) -> usize
    ensures upper_bound { result ≤ length buf.new }
    ensures value { result ≡ length (take result buf.new) }
    ensures bytes { Consumes (R.remaining from.old) (R.remaining from.new) (take result buf.new) }
{
    let mut done = 0;
    while done < buf.len() {
        let n = read_some(from, &mut buf[done..]);
        if n == 0 {
            break;
        }
        done += n;
    }
    done
}

// One read, 0 where it fails.
fn read_some<R: Read>(from: &mut R, buf: &mut [u8]) -> usize
    ensures upper_bound { result ≤ length buf.new }
    ensures bytes { Consumes (R.remaining from.old) (R.remaining from.new) (take result buf.new) }
{
    from.read(buf).unwrap_or(0)
}

// The i-th argument, at the start of `buf`: its length, 0 where there is none or it is longer than `buf`.
// It cannot fail, and so has no `Option`: no program understands a word of no bytes.
pub fn argument<E: Env>(env: &E, i: usize, buf: &mut [u8]) -> usize
    ensures upper_bound { result ≤ length buf.new }
    ensures value { result ≡ length (take result buf.new) }
{
    env.arg(i, buf).unwrap_or(0)
}

// Whether there is an i-th argument. The name of the program is argument 0.
pub fn has_argument<E: Env>(env: &E, i: usize) -> bool {
    let mut first = [0u8; 1];
    !matches!(env.arg(i, &mut first), Err(FillError::NotPresent))
}

// The file of this name, for reading. A name that is not UTF-8 is an error.
pub fn open<R: Files>(rt: &R, path: &[u8]) -> io::Result<R::File> {
    let name = str::from_utf8(path).map_err(|_| io::Error::new(
        ErrorKind::InvalidInput,
        "the name is not UTF-8",
    ))?;
    File::open(rt, name)
}

// A line that says what failed and why.
pub fn tell_failure<P: Print>(to: &P, what: &[u8], error: &io::Error) -> io::Result<()> {
    let mut text = [0u8; 256];
    let n = put_text(error, &mut text);
    to.write_all(what)?;
    to.write_all(b": ")?;
    to.write_all(without_number(&text[..n]))?;
    to.write_all(b"\n")
}

// The error's text, at the start of `text`: its length.
fn put_text(error: &io::Error, text: &mut [u8]) -> usize
    ensures upper_bound { result ≤ length text.new }
    ensures value { result ≡ length (take result text.new) }
{
    let room = text.len();
    let mut at = Cursor::new(text);
    let _ = write!(at, "{error}");
    room.min(at.position() as usize)
}

// The text of an error of the system before the number that std puts after it.
fn without_number(text: &[u8]) -> &[u8] {
    let parts = str::from_utf8(text)
        .ok()
        .and_then(|all| all.split_once(" (os error "));
    match parts {
        Some((front, _)) => front.as_bytes(),
        None => text,
    }
}
