// Loops of rim halfedges, counted by the lowest halfedge of each.

ghost use Rattle.std.specs.Prelude.{◌≡◌, not, ◌&&◌, ◌*◌, ◌<◌, ◌≤◌, length};
ghost use Rattle.scope.specs.Lists.{number_of};
ghost use Rattle.mesh.specs.Words.{next_at};
ghost use Rattle.mesh.specs.Rounds.{Walk, loop_at, rim_at};
ghost use Rattle.count_fields.specs.Count.{Linked, below, lowest_rim};

use mesh::rim::rim;
use mesh_walk::round::{ByNext, Round};

// Whether the loop of h meets a halfedge lower than h.
fn meets_lower(edges: &[u32], n: usize, h: u32) -> bool
    requires { Walk next_at edges.now n h }
    ensures { result ≡ below h (loop_at edges.now n h) }
{
    Round::<ByNext>::new(edges, n, h).any(|x| x < h)
}

// Whether h is the lowest halfedge of a rim loop.
fn lowest_rim(edges: &[u32], n: usize, h: u32) -> bool
    requires { Walk next_at edges.now n h }
    ensures { result ≡ lowest_rim edges.now n h }
{
    rim(edges, h) && !meets_lower(edges, n, h)
}

// The rim loops.
pub fn rim_loops(edges: &[u32], faces: &[u32], n: usize) -> usize
    requires { Linked edges.now faces.now n }
    ensures value { result ≡ number_of (2 * n) (lowest_rim edges.now n) }
    ensures upper_bound { result ≤ 2 * n }
{
    (0..2 * n as u32)
        .filter(|h| lowest_rim(edges, n, *h))
        .count()
}
