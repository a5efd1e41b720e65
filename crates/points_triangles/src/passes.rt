// All new points of a pass of Loop and of sqrt3, or the lowest vertex that has no weights.

ghost use Rattle.std.specs.Prelude.{◌≡◌, [], length, ◌≤◌, ◌+◌, ◌*◌};
ghost use Rattle.scope.specs.Lists.{over};
ghost use Rattle.scope.specs.Schemes.{crowded};
ghost use Rattle.points_catmull.specs.Sums.{Halves, Outs, Starts, mesh_of};
ghost use Rattle.points_triangles.specs.Passes.{Smoothed, loop_wants, loop_left, sqrt_left};

use crate::edges::put_edges;
use crate::faces::put_answers;
use crate::scheme::{Loop, Scheme, Sqrt3};
use crate::vertices::{put_kept, put_vertices};
use points_catmull::cage::{Cage, Faces, Vertices};
use scope::records::Counts;

// Loop: vertices, edges.
pub fn loop_points<'a>(
    outs: &'a [u32],
    edges: &'a [u32],
    points: &'a [f64],
    c: Counts,
    update: bool,
    work: &mut [f64],
) -> Result<(), u32>
    requires halves { Halves c edges.now }
    requires outs { Outs c outs.now edges.now }
    requires v_in_bounds { 3 * c.v ≤ length points.now }
    requires e_in_bounds { 3 * (c.v + c.e) ≤ length work.old }
    ensures { Smoothed (loop_wants update (mesh_of c outs.now edges.now [])) result work.new (over (loop_left (loop_wants update (mesh_of c outs.now edges.now [])) update (mesh_of c outs.now edges.now []) points.now) work.old) }
{
    let cage = Cage { edges, points, c };
    if update {
        put_vertices::<Loop>(&Vertices { cage, outs }, &Loop::table(), work)?;
    } else {
        put_kept(points, c, work);
    }
    put_edges(&cage, update, work);
    Ok(())
}

// sqrt3: vertices, of which those on the rim move where the flag is true, then what each face gets.
pub fn sqrt_points<'a>(
    outs: &'a [u32],
    edges: &'a [u32],
    faces: &'a [u32],
    points: &'a [f64],
    c: Counts,
    flag: bool,
    work: &mut [f64],
) -> Result<(), u32>
    requires halves { Halves c edges.now }
    requires outs { Outs c outs.now edges.now }
    requires starts { Starts c faces.now }
    requires v_in_bounds { 3 * c.v ≤ length points.now }
    requires f_in_bounds { 3 * c.v + 6 * c.f ≤ length work.old }
    ensures { Smoothed (crowded (mesh_of c outs.now edges.now [])) result work.new (over (sqrt_left (crowded (mesh_of c outs.now edges.now [])) flag (mesh_of c outs.now edges.now faces.now) points.now) work.old) }
{
    let cage = Cage { edges, points, c };
    let vertices = Vertices { cage, outs };
    // The rows are the same where the rim stays.
    let rows = Sqrt3::<true>::table();
    if flag {
        put_vertices::<Sqrt3<true>>(&vertices, &rows, work)?;
    } else {
        put_vertices::<Sqrt3<false>>(&vertices, &rows, work)?;
    }
    let faces = Faces {
        cage,
        starts: faces,
    };
    put_answers(&faces, flag, work);
    Ok(())
}
