// The rim as loops and turns meet it.

ghost use Rattle.std.specs.Prelude.{◌≡◌, ◌≢◌, length, set, ◌<◌};
ghost use Rattle.scope.specs.Links.{NONE};
ghost use Rattle.mesh.specs.Words.{next_at, turn_at, link_at};
ghost use Rattle.mesh.specs.Rounds.{Walk, loop_at, turns_at, rim_at, side_at, first_of};
ghost use Rattle.mesh_walk.specs.Adjust.{adjusted};

use crate::round::{ByNext, ByTurn, Round};
use mesh::half::{NONE, partner};
use mesh::rim::rim;

// The first rim halfedge on the turn from h, among n edges.
pub fn rim_out(edges: &[u32], n: usize, h: u32) -> Option<u32>
    requires { Walk turn_at edges.now n h }
    ensures { result ≡ first_of (rim_at edges.now) (turns_at edges.now n h) }
{
    Round::<ByTurn>::new(edges, n, h).find(|x| rim(edges, *x))
}

// The first halfedge on the loop of h whose partner is a rim halfedge.
pub fn rim_side(edges: &[u32], n: usize, h: u32) -> Option<u32>
    requires { Walk next_at edges.now n h }
    ensures { result ≡ first_of (side_at edges.now) (loop_at edges.now n h) }
{
    Round::<ByNext>::new(edges, n, h).find(|x| rim(edges, partner(*x)))
}

// Vertex v names the rim halfedge that leaves it, if there is one; else its link stays.
pub fn adjust(outs: &mut [u32], edges: &[u32], n: usize, v: u32)
    requires v_in_bounds { v < length outs.old }
    requires walk { link_at outs.old v ≢ NONE → Walk turn_at edges.now n (link_at outs.old v) }
    ensures { outs.new ≡ adjusted outs.old edges.now n v }
{
    let h = outs[v as usize];
    if h != NONE {
        if let Some(r) = rim_out(edges, n, h) {
            outs[v as usize] = r;
        }
    }
}
