// refine SCHEME PASSES FLAG < cage > result
//
// Reads a mesh file from standard input, refines it and writes the result's file to standard output. On standard error it says in one line what was
// done and what the next run must be told (refine_words::lines): `next` is the flag to give it. A refusal writes `refused`, document 01's number and the place, and
// nothing to standard output. The exit status is 0 then too: the line is the answer.

#![tactic(auto)]

use call_room::kind::Kind;
use host::{argument, buffer, has_argument, read_full};
use refine_job::Written;
use refine_room::{file_bytes, run};
use refine_words::lines::{put_card, put_refused};
use refine_words::words::{flag_asked, passes_asked, scheme_asked};
use scope::answers::Refusal;
use std::io;
use std::io::Read;

// What the words ask for.
#[derive(Clone, Copy)]
struct Task {
    kind: Kind,
    passes: u32,
    flag: bool,
}

// The task of three words, or the first of them that is not understood.
fn task_asked<'a>(scheme: &'a [u8], passes: &'a [u8], flag: &'a [u8]) -> Result<Task, &'a [u8]> {
    Ok(Task {
        kind: scheme_asked(scheme).ok_or(scheme)?,
        passes: passes_asked(passes).ok_or(passes)?,
        flag: flag_asked(flag).ok_or(flag)?,
    })
}

const USAGE: &[u8] = b"usage: refine catmull PASSES update|keep < cage > result\n";

// No card for a file that did not get out whole.
const NOT_WRITTEN: &[u8] = b"not written: standard output took less than the file\n";

fn not_understood<E: Print>(err: &E, word: &[u8]) -> io::Result<()> {
    err.write_all(b"not understood: ")?;
    err.write_all(word)?;
    err.write_all(b"\n")?;
    err.write_all(USAGE)
}

fn refuse<E: Print>(err: &E, r: Refusal) -> io::Result<()> {
    let mut line = [0u8; 256];
    let n = put_refused(&mut line, r);
    err.write_all(&line[..n])
}

fn tell<E: Print>(err: &E, task: Task, w: Written) -> io::Result<()> {
    let mut line = [0u8; 256];
    let Task { kind, passes, flag } = task;
    let n = put_card(&mut line, kind, passes, flag, w.next, w.counts, w.rim);
    err.write_all(&line[..n])
}

// A file longer than the buffer is refused before it is looked at, as the counter does. Never a part of `main`: only what is run takes the stack for its
// slices, and not a word that is not understood.
#[inline(never)]
fn go<I: Read, O: Print, E: Print>(input: &mut I, out: &O, err: &E, task: Task) -> io::Result<()> {
    let mut file = file_bytes();
    let n = read_full(input, &mut file);
    let mut more = [0u8; 1];
    if 0 < read_full(input, &mut more) {
        return refuse(err, Refusal::ShortSlice);
    }
    match run(task.kind, task.passes, task.flag, &mut file, n) {
        Ok(w) => match out.write_all(&file[..w.size]) {
            Ok(()) => tell(err, task, w),
            Err(_) => err.write_all(NOT_WRITTEN),
        },
        Err(r) => refuse(err, r),
    }
}

fn main(rt: HostRuntime) -> io::Result<()> {
    let err = rt.stderr();
    if !has_argument(&rt, 3) || has_argument(&rt, 4) {
        return err.write_all(USAGE);
    }
    let mut scheme = buffer::<4096>();
    let a = argument(&rt, 1, &mut scheme);
    let mut passes = buffer::<4096>();
    let b = argument(&rt, 2, &mut passes);
    let mut flag = buffer::<4096>();
    let c = argument(&rt, 3, &mut flag);
    match task_asked(&scheme[..a], &passes[..b], &flag[..c]) {
        Ok(task) => go(&mut rt.stdin(), &rt, &err, task),
        Err(word) => not_understood(&err, word),
    }
}
