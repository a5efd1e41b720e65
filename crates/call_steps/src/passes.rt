// Passes in place: the new points into the work slice, the links, then the points out of it.

ghost use Rattle.std.specs.Prelude.{◌≡◌, take, ◌*◌};
ghost use Rattle.scope.specs.Lists.{lay, over};
ghost use Rattle.scope.specs.Points.{catmull_points};
ghost use Rattle.scope.specs.Schemes.{catmull};
ghost use Rattle.scope.specs.Tally.{counts_of};
ghost use Rattle.call_room.specs.Kinds.{scheme_of};
ghost use Rattle.call_room.specs.declared.kind.Kind.TheVariants.{Catmull};
ghost use Rattle.links_edits.specs.Held.{given};
ghost use Rattle.call_steps.specs.Passing.{PrepareReady, PassReady, Goes, PassFrom, WentFrom, RunFrom, WentOnFrom, Stays};
ghost use Rattle.call_steps.specs.Lent.{lent, SameSlices};

use crate::lent::Buffers;
use call_room::kind::{Kind, turn};
use links_catmull::pass::catmull_links;
use points_catmull::catmull::catmull_points;
use scope::answers::Refusal;
use scope::records::Counts;
use slices::copies::copy;

// What a scheme does to the links before its first pass. Answers the counts after it.
pub fn prepare(
    kind: Kind,
    c: Counts,
    outs: &mut [u32],
    edges: &mut [u32],
    faces: &mut [u32],
) -> Counts
    requires { PrepareReady kind c outs.old edges.old faces.old }
    ensures outs_after { outs.new ≡ lay 0 ((scheme_of kind).prepare (given c outs.old edges.old faces.old)).outs outs.old }
    ensures edges_after { edges.new ≡ lay 0 ((scheme_of kind).prepare (given c outs.old edges.old faces.old)).edges edges.old }
    ensures faces_after { faces.new ≡ lay 0 ((scheme_of kind).prepare (given c outs.old edges.old faces.old)).faces faces.old }
    ensures value { result ≡ counts_of ((scheme_of kind).prepare (given c outs.old edges.old faces.old)) }
{
    match kind {
        Kind::Catmull => c,
    }
}

// The points of the mesh after one pass of Catmull-Clark, from those before it.
fn new_points(
    outs: &[u32],
    edges: &[u32],
    faces: &[u32],
    points: &[f64],
    c: Counts,
    update: bool,
    work: &mut [f64],
)
    requires { PassReady Catmull update c outs.now edges.now faces.now points.now work.old }
    ensures { work.new ≡ over (catmull_points update (given c outs.now edges.now faces.now) (take (3 * c.v) points.now)) work.old }
{
    let v = c.v;
    let e = 8 * c.e;
    let f = c.f;
    let p = 3 * v;
    catmull_points(
        &outs[..v],
        &edges[..e],
        &faces[..f],
        &points[..p],
        c,
        update,
        work,
    );
}

// One pass of Catmull-Clark. Answers the counts after it. The slices stand apart here: the check covers no call that reads one slice of
// what is lent and writes another (`new_points`).
fn catmull_pass(
    update: bool,
    c: Counts,
    outs: &mut [u32],
    edges: &mut [u32],
    faces: &mut [u32],
    points: &mut [f64],
    work: &mut [f64],
) -> Counts
    requires { PassReady Catmull update c outs.old edges.old faces.old points.old work.old }
    ensures { Goes catmull update (given c outs.old edges.old faces.old) (take (3 * c.v) points.old) result outs.old edges.old faces.old points.old outs.new edges.new faces.new points.new }
{
    new_points(outs, edges, faces, points, c, update, work);
    let d = catmull_links(outs, edges, faces, c);
    copy(work, points, 3 * d.v);
    d
}

// One pass. Answers the counts after it, or the lowest vertex whose weight is needed and not there.
fn pass(kind: Kind, flag: bool, c: Counts, room: &mut Buffers<'_>) -> Result<Counts, u32>
    requires { PassFrom kind flag c (lent room.old) }
    ensures same_slices { SameSlices room.old room.new }
    ensures stays { Stays (lent room.old) (lent room.new) }
    ensures went { WentFrom (scheme_of kind) flag c (lent room.old) (lent room.new) result }
{
    match kind {
        Kind::Catmull => Ok(catmull_pass(
            flag,
            c,
            room.outs,
            room.edges,
            room.faces,
            room.points,
            room.work,
        )),
    }
}

// Passes one after the other, the first with this flag. Answers the counts and the flag after them, or the pass, counted from 1, that
// stopped, and its vertex.
pub fn run(
    kind: Kind,
    passes: u32,
    flag: bool,
    c: Counts,
    room: &mut Buffers<'_>,
) -> Result<(Counts, bool), Refusal>
    requires { RunFrom kind passes flag c (lent room.old) }
    ensures same_slices { SameSlices room.old room.new }
    ensures stays { Stays (lent room.old) (lent room.new) }
    ensures went_on { WentOnFrom (scheme_of kind) passes flag c (lent room.old) (lent room.new) result }
{
    let mut d = c;
    let mut next = flag;
    for n in 0..passes {
        d = pass(kind, next, d, room).map_err(|v| Refusal::NoWeight(n + 1, v))?;
        next = turn(kind, next);
    }
    Ok((d, next))
}
