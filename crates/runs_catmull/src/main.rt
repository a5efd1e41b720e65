// Replays Catmull-Clark cases: what the Rust answered and left (oracle/vectors), and cases whose outcome document 01 says, written by tools/casefiles.py.
// Each case is run by the subdivision call into slices that hold junk, and then its answer and every word, byte and bit of all eight are compared.
//
// Standard input holds the cases one after the other. A case is 17 parts, each with its length in bytes before it, in four bytes:
//  - its name;
//  - 28 words: passes; flag; the counts of the mesh, 3; the lengths of the slices given, 7, and of those lent, 8; the answer's number and its three values,
//    then the counts and the flag that it comes with (0 in a refusal);
//  - the seven slices given: outs, edges, faces, marks of vertices, edges and faces, points;
//  - what each of the eight lent slices begins with when all is over, in the same order, the work slice last.
// A word has four bytes, a mark one, a number the eight of its bits, little-endian. After those beginnings there are zeros, but after the answers 1 to 4
// junk as it was handed in.

#![tactic(auto)]

mod case;
mod cell;
mod input;
mod judge;
mod replay;

ghost use Rattle.std.specs.Prelude.{◌≡◌, ◌≤◌, IfSome};

use crate::case::{Head, Mesh};
use crate::input::Parts;
use crate::replay::replay;
use std::io;
use std::io::Read;

// The next case, if there is one: how many differences there are.
fn step<R: Read, P: Print>(
    parts: &mut Parts<R>,
    out: &P,
    mesh: &mut Mesh,
    lent: &mut Mesh,
    work: &mut [f64; 2048],
) -> Option<u32>
    ensures { IfSome result (λ d. d ≤ 9) }
{
    let mut name = [0u8; 64];
    let n = parts.read(&mut name);
    if n == 0 {
        return None;
    }
    let mut head = [0u8; 112];
    parts.read(&mut head);
    Some(replay(parts, out, &name[..n], &Head::new(&head), mesh, lent, work))
}

// Cases, and the differences in all of them.
#[derive(Clone, Copy)]
struct Total {
    cases: u32,
    differences: u32,
}

// All cases, of which there are fewer than 1000.
fn run<R: Read, P: Print>(parts: &mut Parts<R>, out: &P) -> Total {
    let mut total = Total {
        cases: 0,
        differences: 0,
    };
    let mut mesh = Mesh::new();
    let mut lent = Mesh::new();
    let mut work = [0.0; 2048];
    for _ in 0..1000u32 {
        let Some(d) = step(parts, out, &mut mesh, &mut lent, &mut work) else {
            break;
        };
        total.cases += 1;
        total.differences += d;
    }
    total
}

// Word by word: `println!` writes a line as a whole, so that nothing of it would come out where not all of it can.
fn print_total<P: Print>(out: &P, t: Total) -> io::Result<()> {
    out.print(t.cases)?;
    out.write_all(b" cases, ")?;
    out.print(t.differences)?;
    out.write_all(b" differences\n")
}

fn main(rt: HostRuntime) -> io::Result<()> {
    let mut parts = Parts::new(rt.stdin());
    print_total(&rt, run(&mut parts, &rt))
}
