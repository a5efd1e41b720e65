// What the counter says of a file, for any bytes.

ghost use Rattle.std.specs.Prelude.{◌≡◌, ◌*◌, ◌≤◌, length, take, None};
ghost use Rattle.scope.specs.Lists.{over};
ghost use Rattle.scope.specs.Check.{fault, set_mark, marked};
ghost use Rattle.scope.specs.Slices.{sizes, links_of, marks_of};
ghost use Rattle.mesh.specs.Given.{lists};
ghost use Rattle.check_mesh.specs.Checked.{links_at, marks_at};
ghost use Rattle.check_mesh.specs.Stages.{Fits};
ghost use Rattle.file_read.specs.Held.{held, SameSlices};
ghost use Rattle.count_fields.specs.Fields.{counted};
ghost use Rattle.count_line.specs.Asks.{there, MarksFit, Countable};
ghost use Rattle.count_line.specs.Line.{line_of};
ghost use Rattle.count_line.specs.Says.{mesh_says, counter_says, counter_leaves};

use crate::line::{put_line, put_refusal};
use count_fields::count::fields;
use file_read::lent::Lent;
use file_read::read::read;
use mesh::given::Slices;
use scope::answers::Said;
use scope::records::Counts;
use slices::marks::first_mark;

// Whether one of the first n marks is set.
fn is_set(marks: &[u8], n: usize) -> bool
    requires n_bound { n ≤ 1048576 }
    requires n_in_bounds { n ≤ length marks.now }
    ensures { result ≡ there (set_mark (take n marks.now)) }
{
    first_mark(marks, n as u32).is_some()
}

// Whether anything is marked deleted.
fn deleted(vmarks: &[u8], emarks: &[u8], fmarks: &[u8], c: Counts) -> bool
    requires { MarksFit c vmarks.now emarks.now fmarks.now }
    ensures { result ≡ there (marked (marks_at (take c.v vmarks.now) (take c.e emarks.now) (take c.f fmarks.now))) }
{
    is_set(fmarks, c.f) || is_set(emarks, c.e) || is_set(vmarks, c.v)
}

// The line of a mesh in which nothing is deleted.
fn count(outs: &[u32], edges: &[u32], faces: &[u32], c: Counts, out: &mut [u8]) -> usize
    requires countable { Countable c outs.now edges.now faces.now }
    requires in_bounds { 167 ≤ length out.old }
    ensures out_after { out.new ≡ over (line_of (counted (links_at c.v c.e c.f (take c.v outs.now) (take (8 * c.e) edges.now) (take c.f faces.now)))) out.old }
    ensures value { result ≡ length (line_of (counted (links_at c.v c.e c.f (take c.v outs.now) (take (8 * c.e) edges.now) (take c.f faces.now)))) }
    ensures upper_bound { result ≤ 167 }
{
    let t = fields(&outs[..c.v], &edges[..8 * c.e], &faces[..c.f], c.e);
    put_line(out, t)
}

// The line of a mesh that was read: 4 where anything is deleted.
fn tell_mesh(s: Slices<'_>, c: Counts, out: &mut [u8]) -> usize
    requires fits { Fits c (lists s) }
    requires fmarks_value { fault (links_of c (lists s)) (marks_of c (lists s)) ≡ None }
    requires in_bounds { 167 ≤ length out.old }
    ensures out_after { out.new ≡ over (mesh_says c (lists s.entry)) out.old }
    ensures value { result ≡ length (mesh_says c (lists s.entry)) }
    ensures upper_bound { result ≤ 167 }
{
    if deleted(s.vmarks, s.emarks, s.fmarks, c) {
        return put_refusal(out, 4);
    }
    count(s.outs, s.edges, s.faces, c, out)
}

// The line that document 01 says for these bytes, and how long it is. The mesh slices are the reader's.
pub fn tell(file: &[u8], cage: &mut Lent<'_>, out: &mut [u8; 167]) -> usize
    ensures same_slices { SameSlices cage.old cage.new }
    ensures out_after { out.new ≡ over (counter_says file.now (sizes (held cage.old).slices) (length cage.old.points.now)) out.old }
    ensures value { result ≡ length (counter_says file.now (sizes (held cage.old).slices) (length cage.old.points.now)) }
    ensures upper_bound { result ≤ length out.new }
    ensures after { held cage.new ≡ counter_leaves file.now (held cage.old) }
{
    if 65536 < file.len() {
        return put_refusal(out, 2);
    }
    match read(file, cage) {
        Ok(c) => tell_mesh(cage.slices(), c, out),
        Err(r) => put_refusal(out, Said::from(r).number),
    }
}
