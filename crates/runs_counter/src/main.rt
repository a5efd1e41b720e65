// The counter's line about each of eleven files that its arguments name.

#![tactic(auto)]

use std::io;
use std::io::Read;
use std::rt::{Env, Files};

// A file that is not opened gets a line on standard error.
fn run<R: Env + Files + Print, E: Print>(rt: &R, err: &E, i: usize) -> io::Result<()> {
    let mut path = host::buffer::<4096>();
    let n = host::argument(rt, i, &mut path);
    match host::open(rt, &path[..n]) {
        Ok(file) => count(rt, &path[..n], file),
        Err(error) => host::tell_failure(err, &path[..n], &error),
    }
}

fn count<P: Print, F: Read + Drop>(out: &P, path: &[u8], mut from: F) -> io::Result<()> {
    let mut file = count_line::whole::new_file();
    let size = host::read_full(&mut from, &mut file);
    let mut line = [0u8; 167];
    let k = count_line::whole::say(&file[..size], &mut line);
    out.write_all(path)?;
    out.write_all(b": ")?;
    out.write_all(&line[..k])
}

fn main(rt: HostRuntime) -> io::Result<()> {
    let err = rt.stderr();
    for i in 1..=11 {
        run(&rt, &err, i)?;
    }
    Ok(())
}
