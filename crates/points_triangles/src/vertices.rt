// The points of all vertices under Loop and sqrt3.

ghost use Rattle.std.specs.Prelude.{◌≡◌, length, ◌≤◌, ◌*◌};
ghost use Rattle.scope.specs.Points.{point_at};
ghost use Rattle.scope.specs.Schemes.{crowded};
ghost use Rattle.points_catmull.specs.Place.{place, made};
ghost use Rattle.points_catmull.specs.Cages.{vertices_in};
ghost use Rattle.points_triangles.specs.Vertices.{vertex_of};
ghost use Rattle.points_triangles.specs.Passes.{Smoothed, reached};

use crate::inner::vertex_point;
use crate::scheme::Scheme;
use mesh::rows::{load_point, store_point};
use points_catmull::cage::Vertices;
use scope::records::{Counts, Weights};

// The vertices in order, weighed by rows; or those up to the first whose valence has no weights, and its number.
pub fn put_vertices<S: Scheme>(
    vertices: &Vertices,
    rows: &[Weights; 64],
    work: &mut [f64],
) -> Result<(), u32>
    requires { 3 * vertices.now.cage.c.v ≤ length work.old }
    ensures { Smoothed (crowded (vertices_in vertices.now)) result work.new (place 0 (made (vertex_of rows.now S.rim (vertices_in vertices.now) vertices.now.cage.points.now) (reached (crowded (vertices_in vertices.now)) vertices.now.cage.c.v)) work.old) }
{
    for v in 0..vertices.cage.c.v as u32 {
        match vertex_point::<S>(vertices, rows, v) {
            Some(p) => store_point(work, v, p),
            None => return Err(v),
        }
    }
    Ok(())
}

// The old points.
pub fn put_kept(points: &[f64], c: Counts, work: &mut [f64])
    requires v_bound { c.v ≤ 1048576 }
    requires v_in_bounds { 3 * c.v ≤ length points.now }
    requires v_in_bounds_2 { 3 * c.v ≤ length work.old }
    ensures { work.new ≡ place 0 (made (point_at points.now) c.v) work.old }
{
    for v in 0..c.v as u32 {
        store_point(work, v, load_point(points, v));
    }
}
