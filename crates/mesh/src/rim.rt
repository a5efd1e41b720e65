// The rim: halfedges without face, their edges and vertices.

ghost use Rattle.std.specs.Prelude.{◌≡◌, ◌≢◌, length, ◌+◌, ◌*◌, ◌<◌};
ghost use Rattle.scope.specs.Links.{NONE};
ghost use Rattle.mesh.specs.Rounds.{rim_at, rim_edge_at, rim_vertex_at};
ghost use Rattle.mesh.specs.Words.{Has, link_at};

use crate::half::{NONE, face};

// Whether h is a rim halfedge.
pub fn rim(edges: &[u32], h: u32) -> bool
    requires { Has edges.now h }
    ensures { result ≡ rim_at edges.now h }
{
    face(edges, h) == NONE
}

// Whether edge e has a rim halfedge.
pub fn rim_edge(edges: &[u32], e: u32) -> bool
    requires e_bound { e < 2147483648 }
    requires has { Has edges.now (2 * e + 1) }
    ensures { result ≡ rim_edge_at edges.now e }
{
    rim(edges, 2 * e) || rim(edges, 2 * e + 1)
}

// Whether vertex v is on the rim.
pub fn rim_vertex(outs: &[u32], edges: &[u32], v: u32) -> bool
    requires v_in_bounds { v < length outs.now }
    requires has { link_at outs.now v ≢ NONE → Has edges.now (link_at outs.now v) }
    ensures { result ≡ rim_vertex_at outs.now edges.now v }
{
    let h = outs[v as usize];
    h == NONE || rim(edges, h)
}
