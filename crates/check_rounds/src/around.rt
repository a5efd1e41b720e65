// The rules that need a walk, at a halfedge. Each walk is bounded by the number of halfedges.

ghost use Rattle.std.specs.Prelude.{◌≡◌, ◌≢◌, true, ◌*◌, ◌<◌};
ghost use Rattle.std.specs.List.{list_all};
ghost use Rattle.laws_check.specs.Tells.{Tells};
ghost use Rattle.mesh.specs.Rounds.{Walk, loop_at};
ghost use Rattle.mesh.specs.Words.{Has, face_at, next_at};
ghost use Rattle.check_rounds.specs.OnParts.{IsAlone, LeadsLoop, LeadsTurn};
ghost use Rattle.check_rounds.specs.Tour.{Least, Spun, apart_at, spin_at};
ghost use Rattle.check_rules.specs.Place.{Half};
ghost use Rattle.check_rules.specs.Rule.{Looped};
ghost use Rattle.scope.specs.Links.{NONE, partner};

use crate::parts::{SewnFaces, SewnHalves, SewnVertices};
use crate::steps::Reversible;
use mesh::half::{NONE, face, head, next, partner, prev};
use mesh_walk::meets::{on_loop, on_turn};
use mesh_walk::round::{ByNext, ByTurn, Round};

// Whether a is the least halfedge of its loop or turn. It looks both ways at once, so that a loop of n halfedges, each asked, costs no more than about n log n steps.
fn least<S: Reversible>(m: &SewnHalves, a: u32) -> bool
    requires { Half m.now.emarks.now m.now.ne a }
    ensures { Tells result (Least (S.at m.now.edges.now) a) }
{
    let mut y = a;
    for x in Round::<S>::new(m.edges, m.ne as usize, a) {
        if x < a || y < a {
            return false;
        }
        y = S::step_back(m.edges, y);
    }
    true
}

// Whether no other halfedge of a's loop has a's head.
fn alone(edges: &[u32], n: usize, a: u32) -> bool
    requires { Walk next_at edges.now n a }
    ensures { result ≡ list_all (apart_at edges.now a) (loop_at edges.now n a) }
{
    let v = head(edges, a);
    Round::<ByNext>::new(edges, n, a).all(|x| x == a || head(edges, x) != v)
}

// The next halfedge that ends where h ends.
fn spin(edges: &[u32], h: u32) -> u32
    requires { Has edges.now (partner h) }
    ensures { result ≡ spin_at edges.now h }
{
    prev(edges, partner(h))
}

// The same where C8 is in order: around a's loop and around its head at once, until one of the two comes back.
// A loop by hand: by two rounds and `zip` the check of the largest grid takes a quarter longer, and it may take no longer.
fn alone_quick(m: &SewnHalves, a: u32) -> bool
    requires looped { Looped m.now.edges.now m.now.emarks.now m.now.ne }
    requires spun { Spun m.now.edges.now m.now.emarks.now m.now.ne }
    requires half { Half m.now.emarks.now m.now.ne a }
    requires a_nonzero { face_at m.now.edges.now a ≢ NONE }
    ensures { Tells result (IsAlone m.now a) }
{
    let edges = m.edges;
    let v = head(edges, a);
    let f = face(edges, a);
    let mut x = next(edges, a);
    let mut y = spin(edges, a);
    let mut left = 2 * m.ne;
    while 0 < left {
        if x == a {
            return true;
        }
        if y == a {
            return true;
        }
        if head(edges, x) == v {
            return false;
        }
        if face(edges, y) == f {
            return false;
        }
        x = next(edges, x);
        y = spin(edges, y);
        left -= 1;
    }
    true
}

// C7 at a halfedge. Where w is true, C8 is in order everywhere.
pub fn alone_ok(m: &SewnHalves, w: bool, a: u32) -> bool
    requires looped { Looped m.now.edges.now m.now.emarks.now m.now.ne }
    requires spun { w ≡ true → Spun m.now.edges.now m.now.emarks.now m.now.ne }
    requires a_bound { a < 2 * m.now.ne }
    ensures { Tells result (IsAlone m.now a) }
{
    if !m.live_half(a) || m.face(a) == NONE {
        return true;
    }
    if w {
        return alone_quick(m, a);
    }
    alone(m.edges, m.ne as usize, a)
}

// C4 at a halfedge, where it is the least of its loop: that one speaks for the others.
pub fn loop_ok(m: &SewnFaces, b: u32) -> bool
    requires { b < 2 * m.now.halves.ne }
    ensures { Tells result (LeadsLoop m.now b) }
{
    let halves = &m.halves;
    let f = halves.face(b);
    if !halves.live_half(b) || f == NONE || !least::<ByNext>(halves, b) {
        return true;
    }
    on_loop(halves.edges, halves.ne as usize, b, m.faces[f as usize])
}

// C8 at a halfedge, where it is the least of its turn.
pub fn turn_ok(m: &SewnVertices, b: u32) -> bool
    requires { b < 2 * m.now.halves.ne }
    ensures { Tells result (LeadsTurn m.now b) }
{
    let halves = &m.halves;
    if !halves.live_half(b) || !least::<ByTurn>(halves, b) {
        return true;
    }
    let s = m.outs[halves.tail(b) as usize];
    s != NONE && on_turn(halves.edges, halves.ne as usize, b, s)
}
