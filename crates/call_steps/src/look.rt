// The looks before anything is written: answers 1 to 4.

ghost use Rattle.std.specs.Prelude.{◌≡◌, length, take};
ghost use Rattle.scope.specs.Check.{marked};
ghost use Rattle.mesh.specs.Given.{lists};
ghost use Rattle.check_mesh.specs.Checked.{answered, marks_at};
ghost use Rattle.call_steps.specs.Looks.{FewMarks, deleted_in, looked};

use check_mesh::entry::check;
use mesh::given::{Given, Slices};
use scope::answers::{Place, Refusal};
use scope::records::Counts;
use slices::marks::first_mark;

// What is marked deleted: faces, then edges, then vertices, lowest index.
fn marked(vmarks: &[u8], emarks: &[u8], fmarks: &[u8], c: Counts) -> Option<Place>
    requires { FewMarks c vmarks.now emarks.now fmarks.now }
    ensures { result ≡ marked (marks_at (take c.v vmarks.now) (take c.e emarks.now) (take c.f fmarks.now)) }
{
    first_mark(fmarks, c.f as u32)
        .map(Place::AtFace)
        .or_else(|| first_mark(emarks, c.e as u32).map(Place::AtEdge))
        .or_else(|| first_mark(vmarks, c.v as u32).map(Place::AtVertex))
}

// Whether nothing is.
fn deleted(s: Slices<'_>, c: Counts) -> Result<(), Refusal>
    requires { FewMarks c s.vmarks.now s.emarks.now s.fmarks.now }
    ensures { result ≡ answered (deleted_in c s.entry.vmarks.now s.entry.emarks.now s.entry.fmarks.now) }
{
    match marked(s.vmarks, s.emarks, s.fmarks, c) {
        Some(p) => Err(Refusal::MarkedDeleted(p)),
        None => Ok(()),
    }
}

// Answers 1 to 4, in this order.
pub fn look(passes: u32, g: Given<'_>) -> Result<(), Refusal>
    ensures { result ≡ answered (looked passes g.entry.counts (lists g.entry.slices) (length g.entry.points.now)) }
{
    if 12 < passes {
        return Err(Refusal::TooManyPasses);
    }
    check(g)?;
    if passes == 0 {
        return Ok(());
    }
    deleted(g.slices, g.counts)
}
