// One case: the mesh loaded, the call made, and all that it answers and leaves compared.

ghost use Rattle.std.specs.Prelude.{◌≡◌, ◌≤◌, length, take};

use crate::case::{Head, Mesh};
use crate::cell::fill_with_junk;
use crate::input::Parts;
use crate::judge::Judge;
use call_room::kind::Kind;
use call_steps::lent::Buffers;
use scope::answers::{Refusal, Said};
use scope::records::Counts;
use std::io::Read;

// The call into junk, with the given and the lent slices as long as the case says.
fn subdivide(
    head: &Head,
    mesh: &Mesh,
    lent: &mut Mesh,
    work: &mut [f64; 2048],
) -> Result<(Counts, bool), Refusal> {
    let given = mesh.given(head.counts, &head.given);
    let n = head.lent;
    lent.fill_with_junk();
    fill_with_junk(work);
    let Mesh {
        outs,
        edges,
        faces,
        vmarks,
        emarks,
        fmarks,
        points,
    } = lent;
    let mut room = Buffers {
        outs: &mut outs[..n.outs.min(4096)],
        edges: &mut edges[..n.edges.min(4096)],
        faces: &mut faces[..n.faces.min(4096)],
        vmarks: &mut vmarks[..n.vmarks.min(512)],
        emarks: &mut emarks[..n.emarks.min(512)],
        fmarks: &mut fmarks[..n.fmarks.min(512)],
        points: &mut points[..n.points.min(2048)],
        work: &mut work[..head.work.min(2048)],
    };
    call::subdivide(Kind::Catmull, head.passes, head.flag, given, &mut room)
}

// An answer as the head has it: number, three values, counts, flag.
fn in_words(r: Result<(Counts, bool), Refusal>) -> [usize; 8] {
    match r {
        Ok((c, flag)) => [0, 0, 0, 0, c.v, c.e, c.f, flag as usize],
        Err(x) => {
            let Said { number, values } = Said::from(x);
            let [a, b, c] = values;
            [
                number as usize,
                a as usize,
                b as usize,
                c as usize,
                0,
                0,
                0,
                0,
            ]
        }
    }
}

// What the call left, compared with the last eight parts of the case: the number of differences.
fn judge_slices<R: Read, P: Print>(
    judge: &Judge<P>,
    parts: &mut Parts<R>,
    head: &Head,
    lent: &Mesh,
    work: &[f64],
) -> u32
    ensures { result ≤ 8 }
{
    let room = head.lent;
    judge.slice(parts, b"outs", room.outs, &lent.outs)
        + judge.slice(parts, b"edges", room.edges, &lent.edges)
        + judge.slice(parts, b"faces", room.faces, &lent.faces)
        + judge.slice(parts, b"vmarks", room.vmarks, &lent.vmarks)
        + judge.slice(parts, b"emarks", room.emarks, &lent.emarks)
        + judge.slice(parts, b"fmarks", room.fmarks, &lent.fmarks)
        + judge.slice(parts, b"points", room.points, &lent.points)
        + judge.slice(parts, b"work", head.work, work)
}

// The case with this name and head, the rest of it read from the input: the number of differences. The mesh and what is lent are those of the case before.
pub fn replay<R: Read, P: Print>(
    parts: &mut Parts<R>,
    out: &P,
    name: &[u8],
    head: &Head,
    mesh: &mut Mesh,
    lent: &mut Mesh,
    work: &mut [f64; 2048],
) -> u32
    ensures { result ≤ 9 }
{
    mesh.read(parts);
    let answer = in_words(subdivide(head, mesh, lent, work));
    let judge = Judge {
        out,
        name,
        kept: head.is_kept(),
    };
    let place = answer.iter().zip(&head.answer).position(|(a, b)| a != b);
    judge.report(b"answer", place) + judge_slices(&judge, parts, head, lent, work)
}
