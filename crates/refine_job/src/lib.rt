// One run over the bytes of a mesh file: read, subdivided, written into the same bytes.

#![tactic(auto)]

ghost use Rattle.std.specs.Prelude.{◌≡◌, ◌≤◌, length};
ghost use Rattle.scope.specs.Call.{call};
ghost use Rattle.mesh.specs.Given.{lists, given};
ghost use Rattle.call_room.specs.Kinds.{scheme_of};
ghost use Rattle.file_read.specs.Held as cages;
ghost use Rattle.call_steps.specs.Lent.{given_at, lent, SameSlices};
ghost use Rattle.refine_job.specs.Job.{Within, saved_at, saved, made_at, made, left_at, refined};

use call::subdivide;
use call_room::kind::Kind;
use call_steps::lent::Buffers;
use count_fields::numbers::rim_edges;
use file_read::lent::Lent;
use file_read::read::read;
use file_write::write::write;
use mesh::given::Given;
use scope::answers::Refusal;
use scope::records::Counts;

// What was written: the length of the file, the counts of its mesh, the flag for the next run and the edges with a rim halfedge.
#[derive(Clone, Copy, Debug, PartialEq, Eq)]
pub struct Written {
    pub size: usize,
    pub counts: Counts,
    pub next: bool,
    pub rim: usize,
}

// The mesh that was made, as a file.
#[tactic(auto, using(crate::proofs::JobLaws::size_written, crate::proofs::JobLaws::saved_written, crate::proofs::JobLaws::saved_refused, crate::proofs::JobLaws::within_written, crate::proofs::JobLaws::within_refused))]
fn save(m: Given<'_>, next: bool, file: &mut [u8]) -> Result<Written, Refusal>
    ensures file_after { saved_at result file.new ≡ saved m.entry.counts next (lists m.entry.slices) m.entry.points.now file.old }
    ensures within { Within result (length file.new) }
{
    let size = write(m, file)?;
    let rim = rim_edges(m.slices.edges, m.counts.e);
    Ok(Written {
        size,
        counts: m.counts,
        next,
        rim,
    })
}

// The mesh that was made.
fn result<'a>(room: &'a Buffers<'_>, counts: Counts) -> Given<'a>
    ensures { given result ≡ given_at counts (lent room.now).result (lent room.now).points }
{
    Given {
        counts,
        slices: room.slices(),
        points: room.points,
    }
}

// So many passes of a mesh, and the result as a file.
fn make(
    kind: Kind,
    passes: u32,
    flag: bool,
    g: Given<'_>,
    room: &mut Buffers<'_>,
    file: &mut [u8],
) -> Result<Written, Refusal>
    ensures same_slices { SameSlices room.old room.new }
    ensures after { made_at result file.new (lent room.new) ≡ made (call (scheme_of kind) passes flag (given g.entry) (lent room.old)) file.old }
    ensures within { Within result (length file.new) }
{
    let (counts, next) = subdivide(kind, passes, flag, g, room)?;
    save(result(room, counts), next, file)
}

// The first n bytes of `file` are a mesh file. When done, the file of the result is at its front, which may be longer: so n stands beside the slice.
// A refusal leaves `file` as it was.
pub fn refine(
    kind: Kind,
    passes: u32,
    flag: bool,
    file: &mut [u8],
    n: usize,
    cage: &mut Lent<'_>,
    room: &mut Buffers<'_>,
) -> Result<Written, Refusal>
    requires { n ≤ length file.old }
    ensures same_cage { cages.SameSlices cage.old cage.new }
    ensures same_slices { SameSlices room.old room.new }
    ensures after { left_at result file.new (cages.held cage.new) (lent room.new) ≡ refined (scheme_of kind) passes flag n file.old (cages.held cage.old) (lent room.old) }
    ensures within { Within result (length file.new) }
{
    let counts = read(&file[..n], cage)?;
    make(kind, passes, flag, cage.mesh(counts), room, file)
}
