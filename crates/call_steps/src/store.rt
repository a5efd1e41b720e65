// The result slices: a mesh copied into them, and all of them cleared.

ghost use Rattle.std.specs.Prelude.{◌≡◌, true, [], length, take, ◌*◌};
ghost use Rattle.scope.specs.Lists.{lay};
ghost use Rattle.scope.specs.Slices.{sizes, fits_with, filled, wiped};
ghost use Rattle.mesh.specs.Given.{lists};
ghost use Rattle.call_steps.specs.Stores.{Holds, Takes};
ghost use Rattle.call_steps.specs.Lent.{lent, SameSlices};

use crate::lent::Buffers;
use mesh::given::{Given, Slices};
use scope::records::Counts;
use slices::copies::{clear, lay};

// The links: as many as the counts say, then zero. This and the next two take the slices that they write and no more of what is lent, so
// that nothing has to be said of the others.
pub fn copy_links(
    s: Slices<'_>,
    c: Counts,
    newouts: &mut [u32],
    newedges: &mut [u32],
    newfaces: &mut [u32],
)
    requires takes { Takes c (length s.outs.now) (length s.edges.now) (length s.faces.now) }
    requires takes_2 { Takes c (length newouts.old) (length newedges.old) (length newfaces.old) }
    ensures newouts_after { newouts.new ≡ lay 0 (take c.v s.entry.outs.now) newouts.old }
    ensures newedges_after { newedges.new ≡ lay 0 (take (8 * c.e) s.entry.edges.now) newedges.old }
    ensures newfaces_after { newfaces.new ≡ lay 0 (take c.f s.entry.faces.now) newfaces.old }
{
    lay(s.outs, newouts, c.v, 0);
    lay(s.edges, newedges, 8 * c.e, 0);
    lay(s.faces, newfaces, c.f, 0);
}

// The marks.
pub fn copy_marks(
    s: Slices<'_>,
    c: Counts,
    newvmarks: &mut [u8],
    newemarks: &mut [u8],
    newfmarks: &mut [u8],
)
    requires holds { Holds c (length s.vmarks.now) (length s.emarks.now) (length s.fmarks.now) }
    requires holds_2 { Holds c (length newvmarks.old) (length newemarks.old) (length newfmarks.old) }
    ensures newvmarks_after { newvmarks.new ≡ lay 0 (take c.v s.entry.vmarks.now) newvmarks.old }
    ensures newemarks_after { newemarks.new ≡ lay 0 (take c.e s.entry.emarks.now) newemarks.old }
    ensures newfmarks_after { newfmarks.new ≡ lay 0 (take c.f s.entry.fmarks.now) newfmarks.old }
{
    lay(s.vmarks, newvmarks, c.v, 0);
    lay(s.emarks, newemarks, c.e, 0);
    lay(s.fmarks, newfmarks, c.f, 0);
}

// Every mark zero.
pub fn clear_marks(vmarks: &mut [u8], emarks: &mut [u8], fmarks: &mut [u8])
    ensures vmarks_after { vmarks.new ≡ lay 0 [] vmarks.old }
    ensures emarks_after { emarks.new ≡ lay 0 [] emarks.old }
    ensures fmarks_after { fmarks.new ≡ lay 0 [] fmarks.old }
{
    clear(vmarks, 0, 0);
    clear(emarks, 0, 0);
    clear(fmarks, 0, 0);
}

// Everything zero.
pub fn wipe(room: &mut Buffers<'_>)
    ensures same_slices { SameSlices room.old room.new }
    ensures after { lent room.new ≡ wiped (lent room.old) }
{
    clear(room.outs, 0, 0);
    clear(room.edges, 0, 0);
    clear(room.faces, 0, 0);
    clear_marks(room.vmarks, room.emarks, room.fmarks);
    clear(room.points, 0, 0.0);
    clear(room.work, 0, 0.0);
}

// A mesh with its marks and its points, then zeros; the work slice zero.
pub fn copy_mesh(g: Given<'_>, room: &mut Buffers<'_>)
    requires points_value { fits_with g.counts (sizes (lists g.slices)) (length g.points.now) ≡ true }
    requires newpoints_value { fits_with g.counts (sizes (lent room.old).result) (length room.old.points.now) ≡ true }
    ensures same_slices { SameSlices room.old room.new }
    ensures after { lent room.new ≡ filled g.entry.counts (lists g.entry.slices) g.entry.points.now (lent room.old) }
{
    copy_links(g.slices, g.counts, room.outs, room.edges, room.faces);
    copy_marks(g.slices, g.counts, room.vmarks, room.emarks, room.fmarks);
    lay(g.points, room.points, 3 * g.counts.v, 0.0);
    clear(room.work, 0, 0.0);
}
