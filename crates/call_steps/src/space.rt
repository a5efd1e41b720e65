// Answer 5, judged from the counts that the passes come to, before anything is written.

ghost use Rattle.std.specs.Prelude.{◌≡◌, ◌≢◌, length, ◌≤◌, ◌*◌};
ghost use Rattle.scope.specs.Slices.{sizes, fits_with};
ghost use Rattle.mesh.specs.Given.{lists};
ghost use Rattle.laws_call.specs.Laws.{Faced};
ghost use Rattle.call_room.specs.Amounts.{amounts_at, tallied};
ghost use Rattle.call_room.specs.Kinds.{scheme_of};
ghost use Rattle.call_steps.specs.Rooms.{enough_in};
ghost use Rattle.call_steps.specs.Lent.{buffers_at};

use call_room::forecast::{forecast, grow, ready};
use call_room::kind::Kind;
use call_room::tally::count_up;
use check_mesh::entry::fits;
use mesh::given::Slices;
use scope::records::Counts;

// No slice is shorter than its count, with three numbers for each vertex, and no count is over 1,048,576.
fn fits_with(s: Slices<'_>, points: &[f64], c: Counts) -> bool
    ensures { result ≡ fits_with c (sizes (lists s.entry)) (length points.now) }
{
    c.v <= points.len() / 3 && fits(s, c)
}

// Whether the result slices take what the passes make of a mesh with these edges and counts, and the work slice is long enough. The flag
// is that of the first pass.
pub fn enough(
    kind: Kind,
    passes: u32,
    flag: bool,
    from: &[u32],
    c: Counts,
    s: Slices<'_>,
    points: &[f64],
    work: &[f64],
) -> bool
    requires e_bound { c.e ≤ 1048576 }
    requires e_in_bounds { 8 * c.e ≤ length from.now }
    requires faced { passes ≢ 0 → Faced (tallied (amounts_at c from.now)) }
    ensures { result ≡ enough_in (scheme_of kind) passes flag c from.now (buffers_at (lists s.entry) points.now work.now) }
{
    if passes == 0 {
        return fits_with(s, points, c);
    }
    let Some((a, next)) = forecast(kind, passes - 1, flag, ready(kind, count_up(from, c))) else {
        return false;
    };
    let last = grow(kind, next, a);
    let d = Counts {
        v: last.v,
        e: last.e,
        f: last.f,
    };
    a.v + a.e + a.f <= work.len() / 6 && fits_with(s, points, d)
}
