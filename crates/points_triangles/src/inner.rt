// The point of a vertex under Loop and sqrt3.

ghost use Rattle.std.specs.Prelude.{◌≡◌, ◌<◌, ◌*◌};
ghost use Rattle.mesh.specs.Words.{prev_at};
ghost use Rattle.points_catmull.specs.Cages.{vertices_in};
ghost use Rattle.points_catmull.specs.Sums.{head_point};
ghost use Rattle.points_triangles.specs.Vertices.{inner_move, moved_vertex, tail_point, vertex_move};

use crate::scheme::Scheme;
use mesh::half::{NONE, partner, prev};
use mesh::rim::rim;
use mesh::rows::{load_point, out};
use mesh_walk::round::ByTurn;
use points::weighted;
use points_catmull::cage::{Cage, Vertices};
use points_weights::find;
use scope::records::{Point, Weights};

// The two ways that a vertex goes: to a point, or, in the interior, by the row of its weights, the sum of its neighbours and its own point.
#[derive(Clone, Copy)]
pub enum Moved {
    To(Point),
    By(usize, Point, Point),
}

// The point that h comes from.
pub fn tail_point(cage: &Cage, h: u32) -> Point
    requires { h < 2 * cage.now.c.e }
    ensures { result ≡ tail_point cage.now.edges.now cage.now.points.now h }
{
    cage.head_point(partner(h))
}

// How the interior vertex p goes that h leaves, if its valence has weights.
fn inner_move(cage: &Cage, h: u32, p: Point) -> Option<Moved>
    requires { h < 2 * cage.now.c.e }
    ensures { result ≡ inner_move cage.now.edges.now cage.now.c.e cage.now.points.now h p }
{
    let s = cage.heads::<ByTurn>(h);
    let row = find(s.count)?;
    Some(Moved::By(row, s.total, p))
}

// Where the vertex p on the rim goes, whose rim halfedge is h.
fn rim_point<S: Scheme>(cage: &Cage, h: u32, p: Point) -> Point
    requires { h < 2 * cage.now.c.e }
    ensures { result ≡ S.rim p (head_point cage.now.edges.now cage.now.points.now h) (tail_point cage.now.edges.now cage.now.points.now (prev_at cage.now.edges.now h)) }
{
    let a = cage.head_point(h);
    let b = tail_point(cage, prev(cage.edges, h));
    S::rim(p, a, b)
}

// How the vertex v goes, if its valence has weights where it wants them.
pub fn vertex_move<S: Scheme>(vertices: &Vertices, v: u32) -> Option<Moved>
    requires { v < vertices.now.cage.c.v }
    ensures { result ≡ vertex_move S.rim (vertices_in vertices.now) vertices.now.cage.points.now v }
{
    let cage = &vertices.cage;
    let p = load_point(cage.points, v);
    let h = out(vertices.outs, v);
    if h == NONE {
        return Some(Moved::To(p));
    }
    if rim(cage.edges, h) {
        return Some(Moved::To(rim_point::<S>(cage, h, p)));
    }
    inner_move(cage, h, p)
}

// Where the vertex v goes by these rows, if its valence has weights where it wants them.
pub fn vertex_point<S: Scheme>(vertices: &Vertices, rows: &[Weights; 64], v: u32) -> Option<Point>
    requires { v < vertices.now.cage.c.v }
    ensures { result ≡ moved_vertex rows.now S.rim (vertices_in vertices.now) vertices.now.cage.points.now v }
{
    match vertex_move::<S>(vertices, v)? {
        Moved::To(p) => Some(p),
        Moved::By(row, ns, p) => Some(weighted(ns, p, rows[row])),
    }
}
