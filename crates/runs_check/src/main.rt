// Replays recorded cases of the check. Standard input holds mesh files one after the other, each with its length in four bytes before it; a line is written for
// each: document 01's number of the reader's answer, and for 3 the rule, the kind of place (0 vertex, 1 halfedge, 2 edge, 3 face) and the index.

#![tactic(auto)]

ghost use Rattle.std.specs.Prelude.{◌≡◌, ◌≤◌, length};

use file_read::bytes::word;
use file_read::lent::Lent;
use file_read::read::read;
use scope::answers::{Refusal, Said};
use std::io;
use std::io::Read;

// Number by number: `println!` writes a line as a whole, so that nothing of it would come out where not all of it can.
fn print_refusal<P: Print>(out: &P, r: Refusal) -> io::Result<()> {
    let Said { number, values } = Said::from(r);
    out.print(number)?;
    if number == 3 {
        for value in &values {
            out.write_all(b" ")?;
            out.print(*value)?;
        }
    }
    out.write_all(b"\n")
}

// The arrays have room for the largest recorded mesh.
fn print_answer<P: Print>(out: &P, file: &[u8]) -> io::Result<()> {
    let mut outs = [0; 1024];
    let mut edges = [0; 1024];
    let mut faces = [0; 1024];
    let mut vmarks = [0; 128];
    let mut emarks = [0; 128];
    let mut fmarks = [0; 128];
    let mut points = [0.0; 384];
    let mut cage = Lent {
        outs: &mut outs,
        edges: &mut edges,
        faces: &mut faces,
        vmarks: &mut vmarks,
        emarks: &mut emarks,
        fmarks: &mut fmarks,
        points: &mut points,
    };
    match read(file, &mut cage) {
        Ok(_) => println!(out; "0"),
        Err(r) => print_refusal(out, r),
    }
}

// The next file, read into `space`, if there is one and it leaves room there.
fn next_file<'a, R: Read>(input: &mut R, space: &'a mut [u8]) -> Option<&'a [u8]> {
    let mut four = [0u8; 4];
    if host::read_full(input, &mut four) < 4 {
        return None;
    }
    let n = word(&four, 0);
    if space.len() <= n {
        return None;
    }
    if host::read_full(input, &mut space[..n]) < n {
        return None;
    }
    Some(&space[..n])
}

fn run<R: Read, P: Print>(input: &mut R, out: &P, space: &mut [u8]) -> io::Result<()> {
    for _ in 0..1000 {
        let Some(file) = next_file(input, space) else {
            break;
        };
        print_answer(out, file)?;
    }
    Ok(())
}

fn main(rt: HostRuntime) -> io::Result<()> {
    let mut space = host::buffer::<65536>();
    run(&mut rt.stdin(), &rt, &mut space)
}
