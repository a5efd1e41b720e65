// The calls themselves. Each is a proved function of the library, its answer made flat; none asks anything of its caller.

ghost use Rattle.std.specs.Prelude.{◌≡◌, length};
ghost use Rattle.scope.specs.Answers.{said_checked};
ghost use Rattle.scope.specs.Slices.{sizes};
ghost use Rattle.scope.specs.Call.{call};
ghost use Rattle.scope.specs.Schemes.{catmull};
ghost use Rattle.mesh.specs.Given.{given};
ghost use Rattle.check_mesh.specs.Checked.{slices_at, checked};
ghost use Rattle.file_read.specs.Format.{file_counts, file_end, read_refusal, reading, lent_at, read_leaves, write_refusal, write_leaves};
ghost use Rattle.file_write.specs.Writes.{writing};
ghost use Rattle.call_steps.specs.Lent.{given_at, buffers_at};
ghost use Rattle.exports_flat.specs.Flat.{flat_of, counts_at, flat_reading, flat_writing, flag_of, flat_subdivided};

use call::subdivide;
use call_room::kind::Kind;
use call_steps::lent::Buffers;
use check_mesh::entry::check;
use exports_flat::answers::{
    Flat, FlatRead, FlatSubdivided, FlatWritten, flag_of, flat_checked, flat_reading,
    flat_subdivided, flat_writing,
};
use file_read::lent::Lent;
use file_read::read::read;
use file_write::write::write;
use mesh::given::{Given, Slices};
use scope::records::Counts;

// A mesh of v vertices, e edges and f faces, as it is handed in: C lends each slice by itself.
fn handed<'a>(
    outs: &'a [u32],
    edges: &'a [u32],
    faces: &'a [u32],
    vmarks: &'a [u8],
    emarks: &'a [u8],
    fmarks: &'a [u8],
    points: &'a [f64],
    v: usize,
    e: usize,
    f: usize,
) -> Given<'a>
    ensures { given result ≡ given_at (counts_at v e f) (slices_at outs.now edges.now faces.now vmarks.now emarks.now fmarks.now) points.now }
{
    let counts = Counts { v, e, f };
    let slices = Slices {
        outs,
        edges,
        faces,
        vmarks,
        emarks,
        fmarks,
    };
    Given {
        counts,
        slices,
        points,
    }
}

// The consistency check of a mesh of v vertices, e edges and f faces (document 01, section 2): answers 0, 2 and 3. It changes nothing.
pub fn ternaglup_check(
    outs: &[u32],
    edges: &[u32],
    faces: &[u32],
    vmarks: &[u8],
    emarks: &[u8],
    fmarks: &[u8],
    points: &[f64],
    v: usize,
    e: usize,
    f: usize,
) -> Flat
    ensures { result ≡ flat_of (said_checked (checked (counts_at v e f) (slices_at outs.now edges.now faces.now vmarks.now emarks.now fmarks.now) (length points.now))) }
{
    let g = handed(outs, edges, faces, vmarks, emarks, fmarks, points, v, e, f);
    flat_checked(check(g))
}

// The reader of a mesh file (document 01, section 5), for any bytes: answers 0, 15, 2, 16 and 3. The slices are zero past what is read, wholly zero after a refusal.
pub fn ternaglup_read(
    file: &[u8],
    outs: &mut [u32],
    edges: &mut [u32],
    faces: &mut [u32],
    vmarks: &mut [u8],
    emarks: &mut [u8],
    fmarks: &mut [u8],
    points: &mut [f64],
) -> FlatRead
    ensures value { result ≡ flat_reading (reading (read_refusal file.now (sizes (slices_at outs.old edges.old faces.old vmarks.old emarks.old fmarks.old)) (length points.old)) (file_counts file.now)) }
    ensures points_after { lent_at outs.new edges.new faces.new vmarks.new emarks.new fmarks.new points.new
        ≡ read_leaves (read_refusal file.now (sizes (slices_at outs.old edges.old faces.old vmarks.old emarks.old fmarks.old)) (length points.old)) file.now
        (lent_at outs.old edges.old faces.old vmarks.old emarks.old fmarks.old points.old) }
{
    let mut into = Lent {
        outs,
        edges,
        faces,
        vmarks,
        emarks,
        fmarks,
        points,
    };
    flat_reading(read(file, &mut into))
}

// The writer of a mesh file, for every mesh: answers 0, 2, 16 and 5. A refusal writes nothing; past the file's end the slice is as it was.
pub fn ternaglup_write(
    outs: &[u32],
    edges: &[u32],
    faces: &[u32],
    vmarks: &[u8],
    emarks: &[u8],
    fmarks: &[u8],
    points: &[f64],
    v: usize,
    e: usize,
    f: usize,
    file: &mut [u8],
) -> FlatWritten
    ensures value { result ≡ flat_writing (writing (write_refusal (counts_at v e f) (slices_at outs.now edges.now faces.now vmarks.now emarks.now fmarks.now) points.now (length file.old)) (file_end (counts_at v e f))) }
    ensures file_after { file.new
        ≡ write_leaves (write_refusal (counts_at v e f) (slices_at outs.now edges.now faces.now vmarks.now emarks.now fmarks.now) points.now (length file.old))
        (counts_at v e f) (slices_at outs.now edges.now faces.now vmarks.now emarks.now fmarks.now) points.now file.old }
{
    let m = handed(outs, edges, faces, vmarks, emarks, fmarks, points, v, e, f);
    flat_writing(write(m, file))
}

// So many Catmull-Clark passes of a mesh into another (document 01, sections 3 and 4): answers 0 to 5. An update that is not 0 moves the old points. Answers 1 to 4
// leave everything as handed in, 5 leaves zeros; when done there is the result, then zeros, and the work slice is zero.
pub fn ternaglup_catmull(
    passes: u32,
    update: u32,
    outs: &[u32],
    edges: &[u32],
    faces: &[u32],
    vmarks: &[u8],
    emarks: &[u8],
    fmarks: &[u8],
    points: &[f64],
    v: usize,
    e: usize,
    f: usize,
    newouts: &mut [u32],
    newedges: &mut [u32],
    newfaces: &mut [u32],
    newvmarks: &mut [u8],
    newemarks: &mut [u8],
    newfmarks: &mut [u8],
    newpoints: &mut [f64],
    work: &mut [f64],
) -> FlatSubdivided
    ensures value { result ≡ flat_subdivided (call catmull passes (flag_of update)
        (given_at (counts_at v e f) (slices_at outs.now edges.now faces.now vmarks.now emarks.now fmarks.now) points.now)
        (buffers_at (slices_at newouts.old newedges.old newfaces.old newvmarks.old newemarks.old newfmarks.old) newpoints.old work.old)).answer }
    ensures work_after { buffers_at (slices_at newouts.new newedges.new newfaces.new newvmarks.new newemarks.new newfmarks.new) newpoints.new work.new
        ≡ (call catmull passes (flag_of update)
        (given_at (counts_at v e f) (slices_at outs.now edges.now faces.now vmarks.now emarks.now fmarks.now) points.now)
        (buffers_at (slices_at newouts.old newedges.old newfaces.old newvmarks.old newemarks.old newfmarks.old) newpoints.old work.old)).left }
{
    let given = handed(outs, edges, faces, vmarks, emarks, fmarks, points, v, e, f);
    let mut room = Buffers {
        outs: newouts,
        edges: newedges,
        faces: newfaces,
        vmarks: newvmarks,
        emarks: newemarks,
        fmarks: newfmarks,
        points: newpoints,
        work,
    };
    let flag = flag_of(update);
    flat_subdivided(subdivide(Kind::Catmull, passes, flag, given, &mut room))
}
