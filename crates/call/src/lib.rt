// The subdivision call (document 01, section 4): its answer for every input, and what it leaves in every slice that was lent.

#![tactic(auto)]

ghost use Rattle.std.specs.Prelude.{◌≡◌};
ghost use Rattle.scope.specs.Call.{call};
ghost use Rattle.mesh.specs.Given.{given};
ghost use Rattle.call_room.specs.Kinds.{scheme_of};
ghost use Rattle.call_steps.specs.Lent.{lent, outcome_at, SameSlices};
ghost use Rattle.call.specs.Gone.{gone_from, GoFrom};

use call_room::kind::{Kind, settle};
use call_steps::lent::Buffers;
use call_steps::look::look;
use call_steps::passes::{prepare, run};
use call_steps::space::enough;
use call_steps::store::{clear_marks, copy_links, copy_mesh, wipe};
use mesh::given::Given;
use scope::answers::Refusal;
use scope::records::Counts;
use slices::copies::{clear, lay};

// One pass or more of a mesh for which there is room, the first with this flag.
fn go(
    kind: Kind,
    passes: u32,
    flag: bool,
    g: Given<'_>,
    room: &mut Buffers<'_>,
) -> Result<(Counts, bool), Refusal>
    requires { GoFrom (scheme_of kind) passes flag (given g) (lent room.old) }
    ensures same_slices { SameSlices room.old room.new }
    ensures outcome { outcome_at result (lent room.new) ≡ gone_from (scheme_of kind) passes flag (given g.entry) (lent room.old) }
{
    copy_links(g.slices, g.counts, room.outs, room.edges, room.faces);
    lay(g.points, room.points, 3 * g.counts.v, 0.0);
    let d = prepare(kind, g.counts, room.outs, room.edges, room.faces);
    match run(kind, passes, flag, d, room) {
        Ok((x, next)) => {
            clear_marks(room.vmarks, room.emarks, room.fmarks);
            clear(room.work, 0, 0.0);
            Ok((x, next))
        }
        Err(r) => {
            wipe(room);
            Err(r)
        }
    }
}

// A mesh, and so many passes of it into another. Answers 1 to 4 leave everything as handed in, 5 and 6 leave zeros; when done there is the
// result, then zeros, and the work slice is zero.
pub fn subdivide(
    kind: Kind,
    passes: u32,
    flag: bool,
    g: Given<'_>,
    room: &mut Buffers<'_>,
) -> Result<(Counts, bool), Refusal>
    ensures same_slices { SameSlices room.old room.new }
    ensures outcome { outcome_at result (lent room.new) ≡ call (scheme_of kind) passes flag (given g.entry) (lent room.old) }
{
    look(passes, g)?;
    let first = settle(kind, flag);
    let used = &g.slices.edges[..8 * g.counts.e];
    // What is lent, to look at.
    let shared: &Buffers<'_> = room;
    if !enough(
        kind,
        passes,
        first,
        used,
        g.counts,
        shared.slices(),
        shared.points,
        shared.work,
    ) {
        wipe(room);
        return Err(Refusal::NoRoom);
    }
    if passes == 0 {
        copy_mesh(g, room);
        return Ok((g.counts, flag));
    }
    go(kind, passes, first, g, room)
}
