// The points of all edges under Loop.

ghost use Rattle.std.specs.Prelude.{◌≡◌, length, ◌≤◌, ◌<◌, ◌+◌, ◌*◌};
ghost use Rattle.scope.specs.Points.{loop_edge_point};
ghost use Rattle.mesh.specs.Words.{next_at};
ghost use Rattle.points_catmull.specs.Place.{place, made};
ghost use Rattle.points_catmull.specs.Cages.{edges_in};
ghost use Rattle.points_catmull.specs.Sums.{head_point};

use mesh::half::next;
use mesh::rim::rim_edge;
use mesh::rows::store_point;
use points::{loop_edge, middle};
use points_catmull::cage::Cage;
use scope::records::Point;

// The corner opposite to h in its triangle.
fn opposite(cage: &Cage, h: u32) -> Point
    requires { h < 2 * cage.now.c.e }
    ensures { result ≡ head_point cage.now.edges.now cage.now.points.now (next_at cage.now.edges.now h) }
{
    cage.head_point(next(cage.edges, h))
}

// The point of edge e.
fn edge_point(cage: &Cage, update: bool, e: u32) -> Point
    requires { e < cage.now.c.e }
    ensures { result ≡ loop_edge_point update (edges_in cage.now) cage.now.points.now e }
{
    let a = cage.head_point(2 * e);
    let b = cage.head_point(2 * e + 1);
    if !update || rim_edge(cage.edges, e) {
        return middle(a, b);
    }
    let f = opposite(cage, 2 * e);
    let g = opposite(cage, 2 * e + 1);
    loop_edge(a, b, f, g)
}

pub fn put_edges(cage: &Cage, update: bool, work: &mut [f64])
    requires { 3 * (cage.now.c.v + cage.now.c.e) ≤ length work.old }
    ensures { work.new ≡ place (3 * cage.now.c.v) (made (loop_edge_point update (edges_in cage.now) cage.now.points.now) cage.now.c.e) work.old }
{
    let at = cage.c.v as u32;
    for e in 0..cage.c.e as u32 {
        store_point(work, at + e, edge_point(cage, update, e));
    }
}
