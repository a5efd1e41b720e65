// The rules in order, over slices that hold the mesh: the lowest broken rule and, under it, the first place.

ghost use Rattle.std.specs.Prelude.{◌≡◌, ℕ, Option};
ghost use Rattle.scope.specs.Check.{fault};
ghost use Rattle.check_mesh.specs.OnMesh.{links_in, marks_in};
ghost use Rattle.check_mesh.specs.Stages.{FromC4, Passed, told_of};
ghost use Rattle.scope.specs.declared.answers.Fault.{Fault};

use check_rounds::fast::turns_whole;
use check_rounds::low::{lowest_not_named, rule_4, rule_7, rule_8};
use check_rules::states::{LinkedMesh, Mesh, SewnMesh};
use scope::answers::{Fault, Place};

// Nothing where a search found nothing, else the rule with the place that it found.
fn pass<P: FnOnce(u32) -> Place>(rule: u32, found: Option<u32>, place: P) -> Result<(), Fault>
    requires { (i : ℕ) → P.pre place i }
    ensures { Passed (P.post place) rule found result }
{
    match found {
        Some(i) => Err(Fault {
            rule,
            place: place(i),
        }),
        None => Ok(()),
    }
}

// C4 to C9, where C1 to C3 are in order. Whether C8 is in order everywhere is found out before C7, which is quicker then.
fn judge_rounds(m: &SewnMesh) -> Result<(), Fault>
    ensures { (a : Option Fault) × FromC4 (links_in m.now.mesh) (marks_in m.now.mesh) a × (result ≡ told_of a) }
{
    pass(4, rule_4(m), Place::AtFace)?;
    pass(5, m.mesh.all_edges(), Place::AtHalfedge)?;
    pass(6, m.mesh.no_spikes(), Place::AtHalfedge)?;
    let w = turns_whole(m);
    pass(7, rule_7(m, w), Place::AtFace)?;
    pass(8, rule_8(m, w), Place::AtVertex)?;
    pass(9, lowest_not_named(m), Place::AtVertex)
}

// C1 to C9.
pub fn judge(m: &Mesh) -> Result<(), Fault>
    ensures { result ≡ told_of (fault (links_in m.now) (marks_in m.now)) }
{
    pass(1, m.vertices_linked(), Place::AtVertex)?;
    pass(1, m.halfedges_linked(), Place::AtHalfedge)?;
    pass(1, m.faces_linked(), Place::AtFace)?;
    let linked = LinkedMesh { mesh: *m };
    pass(2, linked.all_undo(), Place::AtHalfedge)?;
    pass(3, linked.all_sewn(), Place::AtHalfedge)?;
    judge_rounds(&SewnMesh { mesh: *m })
}
