// The writer.

ghost use Rattle.std.specs.Prelude.{◌≡◌, ◌≤◌, ◌*◌, length, take};
ghost use Rattle.scope.specs.Lists.{over};
ghost use Rattle.mesh.specs.Given.{lists};
ghost use Rattle.check_mesh.specs.Checked.{answered};
ghost use Rattle.file_read.specs.Format.{all_finite, words_bytes, contents_of, file_end, file_of, write_refusal, write_leaves};
ghost use Rattle.text.specs.Text.{over_from};
ghost use Rattle.file_write.specs.Puts.{Held, Room};
ghost use Rattle.file_write.specs.Writes.{writing};

use crate::puts::put_all;
use check_mesh::entry::fits;
use mesh::given::Given;
use scope::answers::Refusal;
use scope::records::Counts;

// None is infinite or a NaN.
fn all_finite(points: &[f64]) -> bool
    ensures { result ≡ all_finite points.now }
{
    points.iter().all(|x| x.is_finite())
}

fn file_size(c: Counts) -> usize
    requires { Held c }
    ensures { result ≡ file_end c }
{
    64 + 24 * c.v + 4 * c.v + 32 * c.e + 4 * c.f + (c.v + c.e + c.f)
}

// Answers 2, 16 and 5.
#[tactic(auto, using(crate::proofs::WriteLaws::held, crate::proofs::WriteLaws::short, crate::proofs::WriteLaws::few_points, crate::proofs::WriteLaws::some_infinite, crate::proofs::WriteLaws::too_long, crate::proofs::WriteLaws::all_well))]
fn look(m: Given<'_>, room: usize) -> Result<(), Refusal>
    ensures { result ≡ answered (write_refusal m.entry.counts (lists m.entry.slices) m.entry.points.now room) }
{
    let n = m.counts.v;
    if !fits(m.slices, m.counts) || m.points.len() < 3 * n {
        return Err(Refusal::ShortSlice);
    }
    if !all_finite(&m.points[..3 * n]) {
        return Err(Refusal::NotFinite);
    }
    if room < file_size(m.counts) {
        return Err(Refusal::NoRoom);
    }
    Ok(())
}

// The format, then kind, start and count of each body.
#[tactic(auto, unfolding(file_read::specs::Format::contents_of))]
fn contents(c: Counts) -> [u32; 16]
    requires { Held c }
    ensures { result ≡ contents_of c }
{
    let outs = 64 + 24 * c.v;
    let edges = outs + 4 * c.v;
    let faces = edges + 32 * c.e;
    let marks = faces + 4 * c.f;
    let n = c.v + c.e + c.f;
    let v = c.v as u32;
    let e = c.e as u32;
    let f = c.f as u32;
    [
        1,
        1,
        64,
        v,
        2,
        outs as u32,
        v,
        3,
        edges as u32,
        e,
        4,
        faces as u32,
        f,
        5,
        marks as u32,
        n as u32,
    ]
}

// The contents, with which a file begins: the place after them.
pub fn put_contents(file: &mut [u8], c: Counts) -> usize
    requires held { Held c }
    requires in_bounds { 64 ≤ length file.old }
    ensures file_after { file.new ≡ over_from 0 (words_bytes (contents_of c)) file.old }
    ensures place { result ≡ 64 }
{
    put_all(file, 0, &contents(c))
}

// The file, where there is room for it and the numbers are finite: its length.
fn put_file(m: Given<'_>, file: &mut [u8]) -> usize
    requires { Room m.counts (lists m.slices) m.points.now file.old }
    ensures file_after { file.new ≡ over (file_of m.entry.counts (lists m.entry.slices) m.entry.points.now) file.old }
    ensures end { result ≡ file_end m.entry.counts }
{
    let c = m.counts;
    let s = m.slices;
    // Each is the place at which that part begins.
    let points = put_contents(file, c);
    let outs = put_all(file, points, &m.points[..3 * c.v]);
    let edges = put_all(file, outs, &s.outs[..c.v]);
    let faces = put_all(file, edges, &s.edges[..8 * c.e]);
    let vmarks = put_all(file, faces, &s.faces[..c.f]);
    let emarks = put_all(file, vmarks, &s.vmarks[..c.v]);
    let fmarks = put_all(file, emarks, &s.emarks[..c.e]);
    put_all(file, fmarks, &s.fmarks[..c.f])
}

// The file of a mesh, for every input: its length. A refusal writes nothing; past the file's end the slice is as it was.
#[tactic(auto, using(crate::proofs::WriteLaws::answer_none, crate::proofs::WriteLaws::answer_some, crate::proofs::WriteLaws::room_for, crate::proofs::WriteLaws::says_written, crate::proofs::WriteLaws::says_refused, crate::proofs::WriteLaws::leaves_file, crate::proofs::WriteLaws::leaves_old))]
pub fn write(m: Given<'_>, file: &mut [u8]) -> Result<usize, Refusal>
    ensures value { result ≡ writing (write_refusal m.entry.counts (lists m.entry.slices) m.entry.points.now (length file.old)) (file_end m.entry.counts) }
    ensures file_after { file.new ≡ write_leaves (write_refusal m.entry.counts (lists m.entry.slices) m.entry.points.now (length file.old)) m.entry.counts (lists m.entry.slices) m.entry.points.now file.old }
{
    look(m, file.len())?;
    Ok(put_file(m, file))
}
