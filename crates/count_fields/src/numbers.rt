// Vertices, edges, corners and the rim, counted.

ghost use Rattle.std.specs.Prelude.{◌≡◌, not, ◌*◌, ◌≤◌, eqb, length, get_or};
ghost use Rattle.scope.specs.Lists.{sum, number_of};
ghost use Rattle.scope.specs.Links.{NONE};
ghost use Rattle.mesh.specs.Rounds.{loop_at, rim_edge_at};
ghost use Rattle.count_fields.specs.Count.{Linked};

use mesh::half::NONE;
use mesh::rim::rim_edge;
use mesh_walk::lengths::loop_length;

// The sum of face lengths.
pub fn corners(edges: &[u32], faces: &[u32], n: usize) -> usize
    requires { Linked edges.now faces.now n }
    ensures { result ≡ sum (length faces.now) (λ f. length (loop_at edges.now n (get_or faces.now f 0))) }
{
    faces.iter().map(|h| loop_length(edges, n, *h)).sum()
}

// The edges with a rim halfedge.
pub fn rim_edges(edges: &[u32], n: usize) -> usize
    requires n_bound { n ≤ 1048576 }
    requires n_in_bounds { 8 * n ≤ length edges.now }
    ensures { result ≡ number_of n (rim_edge_at edges.now) }
{
    (0..n as u32).filter(|e| rim_edge(edges, *e)).count()
}

// The vertices with an edge.
pub fn joined(outs: &[u32]) -> usize
    ensures value { result ≡ number_of (length outs.now) (λ v. not (eqb (get_or outs.now v 0) NONE)) }
    ensures upper_bound { result ≤ length outs.now }
{
    outs.iter().filter(|h| **h != NONE).count()
}
