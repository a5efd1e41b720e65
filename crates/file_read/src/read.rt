// The reader.

ghost use Rattle.std.specs.Prelude.{◌≡◌, [], ◌≤◌, ◌*◌, length};
ghost use Rattle.scope.specs.Slices.{sizes};
ghost use Rattle.mesh.specs.Given.{lists};
ghost use Rattle.file_read.specs.Format.{file_counts, file_slices, file_points, file_end, Finite, contents_refusal, read_refusal, reading, laid, no_slices, load_leaves, read_leaves};
ghost use Rattle.file_read.specs.Held.{held, SameSlices};

use crate::contents::{counts, finite_numbers, right};
use crate::lent::Lent;
use crate::load::load;
use check_mesh::entry::{check_links, fits};
use mesh::given::Slices;
use scope::answers::Refusal;
use scope::records::Counts;

// Answers 15, 2 and 16: what is wrong before a link is looked at, where there is room for so many numbers.
#[tactic(auto, using(crate::proofs::ContentsLaws::right_long, crate::proofs::ReadLaws::look_contents, crate::proofs::ReadLaws::look_short, crate::proofs::ReadLaws::look_few, crate::proofs::ReadLaws::right_room))]
fn look(file: &[u8], s: Slices<'_>, points: usize) -> Result<Counts, Refusal>
    ensures { result ≡ reading (contents_refusal file.now (sizes (lists s.entry)) points) (file_counts file.now) }
{
    if !right(file) {
        return Err(Refusal::BadContents);
    }
    let c = counts(file);
    if !fits(s, c) || points < 3 * c.v {
        return Err(Refusal::ShortSlice);
    }
    if !finite_numbers(file, 64, 3 * c.v) {
        return Err(Refusal::NotFinite);
    }
    Ok(c)
}

// The mesh of a file with counts c.
#[tactic(auto, using(crate::proofs::ReadLaws::fill_all))]
fn fill(file: &[u8], c: Counts, into: &mut Lent<'_>)
    requires c_value { c ≡ file_counts file.now }
    requires c_in_bounds { file_end c ≤ length file.now }
    requires finite { Finite file.now 64 (3 * c.v) }
    ensures same_slices { SameSlices into.old into.new }
    ensures after { held into.new ≡ laid (file_slices file.now) (file_points file.now) (held into.old) }
{
    let outs = 64 + 24 * c.v;
    let edges = outs + 4 * c.v;
    let faces = edges + 32 * c.e;
    let vmarks = faces + 4 * c.f;
    let emarks = vmarks + c.v;
    let fmarks = emarks + c.e;
    load(file, 64, 3 * c.v, into.points);
    load(file, outs, c.v, into.outs);
    load(file, edges, 8 * c.e, into.edges);
    load(file, faces, c.f, into.faces);
    load(file, vmarks, c.v, into.vmarks);
    load(file, emarks, c.e, into.emarks);
    load(file, fmarks, c.f, into.fmarks);
}

// Zeros in every slice.
#[tactic(auto, using(crate::proofs::ReadLaws::wipe_all))]
fn wipe(into: &mut Lent<'_>)
    ensures same_slices { SameSlices into.old into.new }
    ensures after { held into.new ≡ laid no_slices [] (held into.old) }
{
    into.outs.fill(0);
    into.edges.fill(0);
    into.faces.fill(0);
    into.vmarks.fill(0);
    into.emarks.fill(0);
    into.fmarks.fill(0);
    into.points.fill(0.0);
}

// The mesh of a file whose contents are right, whether or not it is consistent.
fn load_mesh(file: &[u8], into: &mut Lent<'_>) -> Result<Counts, Refusal>
    ensures same_slices { SameSlices into.old into.new }
    ensures value { result ≡ reading (read_refusal file.now (sizes (held into.old).slices) (length into.old.points.now)) (file_counts file.now) }
    ensures after { held into.new ≡ load_leaves (contents_refusal file.now (sizes (held into.old).slices) (length into.old.points.now)) file.now (held into.old) }
{
    let points = into.points.len();
    let c = look(file, into.slices(), points)?;
    fill(file, c, into);
    check_links(into.slices(), c)?;
    Ok(c)
}

// A mesh from a file, for any bytes. The slices are zero past what is read, wholly zero after a refusal.
pub fn read(file: &[u8], into: &mut Lent<'_>) -> Result<Counts, Refusal>
    ensures same_slices { SameSlices into.old into.new }
    ensures value { result ≡ reading (read_refusal file.now (sizes (held into.old).slices) (length into.old.points.now)) (file_counts file.now) }
    ensures after { held into.new ≡ read_leaves (read_refusal file.now (sizes (held into.old).slices) (length into.old.points.now)) file.now (held into.old) }
{
    let read = load_mesh(file, into);
    if read.is_err() {
        wipe(into);
    }
    read
}
