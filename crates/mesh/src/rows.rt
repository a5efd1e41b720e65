// The records of a mesh, loaded from its slices and stored to them, field by field: no record lies in the slices, whose form the C interface holds.
// The one link of a vertex and of a face.

ghost use Rattle.std.specs.Prelude.{◌≡◌, length, set, ◌+◌, ◌*◌, ◌<◌};
ghost use Rattle.mesh.specs.Words.{Has, half_at, put_half, edge_at, put_edge, HasPoint, point_at, put_point, link_at};

use scope::records::{Edge, Halfedge, Point};

pub fn load_halfedge(edges: &[u32], h: u32) -> Halfedge
    requires { Has edges.now h }
    ensures { result ≡ half_at edges.now h }
{
    let i = 4 * (h as usize);
    Halfedge {
        face: edges[i],
        head: edges[i + 1],
        next: edges[i + 2],
        prev: edges[i + 3],
    }
}

pub fn store_halfedge(edges: &mut [u32], h: u32, x: Halfedge)
    requires { Has edges.old h }
    ensures { edges.new ≡ put_half edges.old h x }
{
    let i = 4 * (h as usize);
    edges[i] = x.face;
    edges[i + 1] = x.head;
    edges[i + 2] = x.next;
    edges[i + 3] = x.prev;
}

pub fn load_edge(edges: &[u32], e: u32) -> Edge
    requires e_bound { e < 2147483648 }
    requires has { Has edges.now (2 * e + 1) }
    ensures { result ≡ edge_at edges.now e }
{
    Edge {
        halves: [load_halfedge(edges, 2 * e), load_halfedge(edges, 2 * e + 1)],
    }
}

pub fn store_edge(edges: &mut [u32], e: u32, x: Edge)
    requires e_bound { e < 2147483648 }
    requires has { Has edges.old (2 * e + 1) }
    ensures { edges.new ≡ put_edge edges.old e x }
{
    let [a, b] = x.halves;
    store_halfedge(edges, 2 * e, a);
    store_halfedge(edges, 2 * e + 1, b);
}

pub fn load_point(points: &[f64], v: u32) -> Point
    requires { HasPoint points.now v }
    ensures { result ≡ point_at points.now v }
{
    let i = 3 * (v as usize);
    Point {
        x: points[i],
        y: points[i + 1],
        z: points[i + 2],
    }
}

pub fn store_point(points: &mut [f64], v: u32, p: Point)
    requires { HasPoint points.old v }
    ensures { points.new ≡ put_point points.old v p }
{
    let i = 3 * (v as usize);
    points[i] = p.x;
    points[i + 1] = p.y;
    points[i + 2] = p.z;
}

// A vertex's link and a face's are read and stored alike, under the two names of document 01 that `loads` (is-out, is-start) states:
// one function for both would hide from a caller which of them it is.
// The halfedge that vertex v names.
pub fn out(outs: &[u32], v: u32) -> u32
    requires { v < length outs.now }
    ensures { result ≡ link_at outs.now v }
{
    outs[v as usize]
}

pub fn set_out(outs: &mut [u32], v: u32, h: u32)
    requires { v < length outs.old }
    ensures { outs.new ≡ set outs.old v h }
{
    outs[v as usize] = h;
}

// The halfedge that face f names.
pub fn start(faces: &[u32], f: u32) -> u32
    requires { f < length faces.now }
    ensures { result ≡ link_at faces.now f }
{
    faces[f as usize]
}

pub fn set_start(faces: &mut [u32], f: u32, h: u32)
    requires { f < length faces.old }
    ensures { faces.new ≡ set faces.old f h }
{
    faces[f as usize] = h;
}
