// The lowest place over all halfedges, and the rules that need it.

ghost use Rattle.std.specs.Prelude.{◌≡◌, true, ℕ, ◌*◌, ◌<◌};
ghost use Rattle.check_rules.specs.Place.{Found, LowBy};
ghost use Rattle.check_rules.specs.Rule.{Looped};
ghost use Rattle.check_rounds.specs.OnMesh.{DifferOk, IsLooped, IsNamed, IsSpun, IsTurned, LoopOk, LowVertex, TurnOk};
ghost use Rattle.check_rounds.specs.OnParts.{LowNotAlone, LowOffLoop, LowOffTurn};
ghost use Rattle.check_rounds.specs.Tour.{Spun};

use crate::around::{alone_ok, loop_ok, turn_ok};
use crate::fast::low_off_loop;
use crate::parts::{SewnFaces, SewnHalves, SewnVertices};
use check_rules::states::SewnMesh;
use check_rules::there::lower;

// The lowest place of a number below n at which the test of m fails.
fn lowest<M: Copy, F: Fn(M, u32) -> bool, P: Fn(M, u32) -> u32>(
    m: M,
    n: u32,
    ok: F,
    place: P,
) -> Option<u32>
    requires can_test { (k : ℕ) → k < n → F.pre ok m k }
    requires can_place { (k : ℕ) → k < n → P.pre place m k }
    ensures { LowBy (F.post ok m) (P.post place m) n result }
{
    let mut best = None;
    for k in 0..n {
        if !ok(m, k) {
            best = lower(best, Some(place(m, k)));
        }
    }
    best
}

// The second half of C4: the lowest face with a halfedge that its loop does not hold.
pub fn lowest_off_loop(m: &SewnFaces) -> Option<u32>
    ensures { LowOffLoop m.now result }
{
    lowest(m, 2 * m.halves.ne, loop_ok, |m, h| m.halves.face(h))
}

// The second half of C7: the lowest face below nf with two halfedges of one head. That faces lie below nf isn't asked, so one at nf or above is passed over.
pub fn lowest_not_alone(m: &SewnHalves, nf: u32, w: bool) -> Option<u32>
    requires looped { Looped m.now.edges.now m.now.emarks.now m.now.ne }
    requires spun { w ≡ true → Spun m.now.edges.now m.now.emarks.now m.now.ne }
    ensures { LowNotAlone m.now nf result }
{
    lowest(m, 2 * m.ne, |m, h| alone_ok(m, w, h), SewnHalves::face).filter(|f| *f < nf)
}

// The second half of C8: the lowest vertex with a leaving halfedge that its turn does not meet.
pub fn lowest_off_turn(m: &SewnVertices) -> Option<u32>
    ensures { LowOffTurn m.now result }
{
    lowest(m, 2 * m.halves.ne, turn_ok, |m, h| m.halves.tail(h))
}

// C9: the lowest vertex with a leaving rim halfedge that it does not name.
pub fn lowest_not_named(m: &SewnMesh) -> Option<u32>
    ensures { LowVertex IsNamed m.now.mesh result }
{
    lowest(m, 2 * m.mesh.ne, SewnMesh::named_ok, |m, h| m.mesh.tail(h))
}

pub fn rule_4(m: &SewnMesh) -> Option<u32>
    ensures { Found (LoopOk m.now.mesh) m.now.mesh.nf result }
{
    let a = m.all_bear();
    let faces = SewnFaces::of(m);
    let b = if a.is_none() {
        low_off_loop(&faces)
    } else {
        lowest_off_loop(&faces)
    };
    lower(a, b)
}

pub fn rule_7(m: &SewnMesh, w: bool) -> Option<u32>
    requires looped { IsLooped m.now.mesh }
    requires spun { w ≡ true → IsSpun m.now.mesh }
    ensures { Found (DifferOk m.now.mesh) m.now.mesh.nf result }
{
    let halves = SewnHalves::of(m);
    lower(m.all_long(), lowest_not_alone(&halves, m.mesh.nf, w))
}

pub fn rule_8(m: &SewnMesh, w: bool) -> Option<u32>
    requires { w ≡ true → IsTurned m.now.mesh }
    ensures { Found (TurnOk m.now.mesh) m.now.mesh.nv result }
{
    if w {
        return None;
    }
    let vertices = SewnVertices::of(m);
    lower(m.all_leave(), lowest_off_turn(&vertices))
}
