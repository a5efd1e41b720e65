// What loops and turns meet. Edges and their number are handed apart: in a type with `Walk` they would ask callers for it everywhere.

ghost use Rattle.std.specs.Prelude.{◌≡◌, map};
ghost use Rattle.scope.specs.Lists.{has};
ghost use Rattle.mesh.specs.Words.{head_at, next_at, turn_at};
ghost use Rattle.mesh.specs.Rounds.{Walk, loop_at, turns_at};

use crate::round::{ByNext, ByTurn, Round};
use mesh::half::head;

// Whether halfedge k lies on the loop of h, among n edges.
pub fn on_loop(edges: &[u32], n: usize, h: u32, k: u32) -> bool
    requires { Walk next_at edges.now n h }
    ensures { result ≡ has k (loop_at edges.now n h) }
{
    Round::<ByNext>::new(edges, n, h).any(|x| x == k)
}

// Whether halfedge k lies on the turn from h.
pub fn on_turn(edges: &[u32], n: usize, h: u32, k: u32) -> bool
    requires { Walk turn_at edges.now n h }
    ensures { result ≡ has k (turns_at edges.now n h) }
{
    Round::<ByTurn>::new(edges, n, h).any(|x| x == k)
}

// Whether vertex v is the head of a halfedge on the loop of h.
pub fn head_on_loop(edges: &[u32], n: usize, h: u32, v: u32) -> bool
    requires { Walk next_at edges.now n h }
    ensures { result ≡ has v (map (head_at edges.now) (loop_at edges.now n h)) }
{
    Round::<ByNext>::new(edges, n, h).any(|x| head(edges, x) == v)
}
