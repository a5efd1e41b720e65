// How long loops and turns are. A loop and a turn have a line each over `Round`: the contracts name the definition's loop and turn.

ghost use Rattle.std.specs.Prelude.{◌≡◌, ◌≢◌, length, ◌<◌};
ghost use Rattle.scope.specs.Links.{NONE};
ghost use Rattle.mesh.specs.Words.{next_at, turn_at, link_at};
ghost use Rattle.mesh.specs.Rounds.{Walk, loop_at, turns_at, around_at};

use crate::round::{ByNext, ByTurn, Round};
use mesh::half::NONE;

// The length of the loop of h, among n edges.
pub fn loop_length(edges: &[u32], n: usize, h: u32) -> usize
    requires { Walk next_at edges.now n h }
    ensures { result ≡ length (loop_at edges.now n h) }
{
    Round::<ByNext>::new(edges, n, h).count()
}

// The length of the turn from h.
pub fn turn_length(edges: &[u32], n: usize, h: u32) -> usize
    requires { Walk turn_at edges.now n h }
    ensures { result ≡ length (turns_at edges.now n h) }
{
    Round::<ByTurn>::new(edges, n, h).count()
}

// How many halfedges leave vertex v, by the turn.
pub fn valence(outs: &[u32], edges: &[u32], n: usize, v: u32) -> usize
    requires v_in_bounds { v < length outs.now }
    requires walk { link_at outs.now v ≢ NONE → Walk turn_at edges.now n (link_at outs.now v) }
    ensures { result ≡ length (around_at outs.now edges.now n v) }
{
    let h = outs[v as usize];
    if h == NONE {
        return 0;
    }
    turn_length(edges, n, h)
}
