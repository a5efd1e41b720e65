// V, E, F, S and b of a mesh.

ghost use Rattle.std.specs.Prelude.{◌≡◌, not, length, ◌≤◌, ◌*◌};
ghost use Rattle.scope.specs.Lists.{number_of};
ghost use Rattle.mesh.specs.Rounds.{rim_at};
ghost use Rattle.call_room.specs.Amounts.{amounts_at};

use mesh::rim::rim;
use scope::records::Counts;

// Vertices, edges, faces, the sum of the face lengths, the edges with a rim halfedge.
#[derive(Clone, Copy)]
pub struct Amounts {
    pub v: usize,
    pub e: usize,
    pub f: usize,
    pub s: usize,
    pub b: usize,
}

// How many halfedges of the n edges have a face.
fn corners(edges: &[u32], n: u32) -> usize
    requires n_bound { n ≤ 1048576 }
    requires n_in_bounds { 8 * n ≤ length edges.now }
    ensures { result ≡ number_of (2 * n) (λ h. not (rim_at edges.now h)) }
{
    (0..2 * n).filter(|h| !rim(edges, *h)).count()
}

// The amounts of a mesh. A halfedge of the rim is its edge's only one, so S and b make up all halfedges.
pub fn count_up(edges: &[u32], c: Counts) -> Amounts
    requires e_bound { c.e ≤ 1048576 }
    requires e_in_bounds { 8 * c.e ≤ length edges.now }
    ensures { result ≡ amounts_at c edges.now }
{
    let n = c.e;
    let s = corners(edges, n as u32);
    Amounts {
        v: c.v,
        e: n,
        f: c.f,
        s,
        b: 2 * n - s,
    }
}
