// Each cage of its arguments refined by two passes at once, and by one and then one on the file that the first left, with the flag that it
// returned: the two files, byte by byte.

#![tactic(auto)]

ghost use Rattle.std.specs.Prelude.{◌≡◌, ◌≤◌, length, take};

use call_room::kind::Kind;
use refine_room::run;
use scope::answers::Refusal;
use std::io;
use std::rt::{Env, Files};

// A file that is not opened counts as one of no bytes.
fn load<R: Files>(rt: &R, path: &[u8], buf: &mut [u8]) -> usize
    ensures upper_bound { result ≤ length buf.new }
    ensures value { result ≡ length (take result buf.new) }
{
    match host::open(rt, path) {
        Ok(mut file) => host::read_full(&mut file, buf),
        Err(_) => 0,
    }
}

// Whether the two files are the same, and the size of the first, unless a run is refused.
fn compare<R: Files>(rt: &R, path: &[u8], flag: bool) -> Result<(bool, usize), Refusal> {
    let mut two = host::buffer::<65536>();
    let n = load(rt, path, &mut two);
    let mut one = host::buffer::<65536>();
    let m = load(rt, path, &mut one);
    let twice = run(Kind::Catmull, 2, flag, &mut two, n)?;
    let first = run(Kind::Catmull, 1, flag, &mut one, m)?;
    let second = run(Kind::Catmull, 1, first.next, &mut one, first.size)?;
    Ok((two[..twice.size] == one[..second.size], twice.size))
}

// Word by word: `println!` writes a line as a whole, so that nothing of it would come out where not all of it can.
fn say<R: Files + Print>(rt: &R, path: &[u8], flag: bool) -> io::Result<()> {
    let (same, size) = compare(rt, path, flag).unwrap_or((false, 0));
    let asked: &[u8] = if flag { b" update: " } else { b" keep: " };
    let found: &[u8] = if same { b"the same " } else { b"not the same " };
    rt.write_all(path)?;
    rt.write_all(asked)?;
    rt.write_all(found)?;
    rt.print(size)?;
    rt.write_all(b" bytes\n")
}

fn both<R: Env + Files + Print>(rt: &R, i: usize) -> io::Result<()> {
    let mut path = host::buffer::<4096>();
    let n = host::argument(rt, i, &mut path);
    say(rt, &path[..n], true)?;
    say(rt, &path[..n], false)
}

fn main(rt: HostRuntime) -> io::Result<()> {
    for i in 1..=4 {
        both(&rt, i)?;
    }
    Ok(())
}
