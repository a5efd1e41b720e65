// The new points of all faces under sqrt3: one centre each, or a pair on the face's rim edge.

ghost use Rattle.std.specs.Prelude.{◌≡◌, length, ◌≤◌, ◌<◌, ◌+◌, ◌*◌};
ghost use Rattle.scope.specs.Lists.{range};
ghost use Rattle.scope.specs.Points.{sqrt_answer, answers, flat, given};
ghost use Rattle.points_catmull.specs.Place.{place};
ghost use Rattle.points_catmull.specs.Cages.{edges_in, faces_in};
ghost use Rattle.points_triangles.specs.Faces.{pair_on, put_given};

use crate::inner::tail_point;
use mesh::half::{next, partner, prev};
use mesh::rows::{start, store_point};
use mesh_walk::rims::rim_side;
use points::sqrt_pair;
use points_catmull::cage::{Cage, Faces};
use scope::records::FacePoints;

// The pair on the rim edge of halfedge h, whose partner r is on the rim.
fn rim_pair(cage: &Cage, h: u32) -> FacePoints
    requires { h < 2 * cage.now.c.e }
    ensures { result ≡ pair_on (edges_in cage.now) cage.now.points.now h }
{
    let r = partner(h);
    let p1 = cage.head_point(next(cage.edges, r));
    let p2 = cage.head_point(r);
    let p3 = tail_point(cage, r);
    let p4 = tail_point(cage, prev(cage.edges, r));
    sqrt_pair(p1, p2, p3, p4)
}

// What face f gets.
fn face_answer(faces: &Faces, flag: bool, f: u32) -> FacePoints
    requires { f < faces.now.cage.c.f }
    ensures { result ≡ sqrt_answer flag (faces_in faces.now) faces.now.cage.points.now f }
{
    if flag && let Some(h) = rim_side(faces.cage.edges, faces.cage.c.e, start(faces.starts, f)) {
        rim_pair(&faces.cage, h)
    } else {
        FacePoints::Centre(faces.point(f))
    }
}

// The answer's points from place `at` on; the place behind them.
fn put_answer(work: &mut [f64], at: u32, a: FacePoints) -> u32
    requires at_bound { at ≤ 3145728 }
    requires at_in_bounds { 3 * at + 5 < length work.old }
    ensures value { result ≡ at + length (given a) }
    ensures work_after { work.new ≡ put_given work.old at a }
{
    match a {
        FacePoints::Centre(p) => {
            store_point(work, at, p);
            at + 1
        }
        FacePoints::Pair(p, q) => {
            store_point(work, at, p);
            store_point(work, at + 1, q);
            at + 2
        }
    }
}

// All faces' answers, one behind the other, behind the vertices.
pub fn put_answers(faces: &Faces, flag: bool, work: &mut [f64])
    requires { 3 * faces.now.cage.c.v + 6 * faces.now.cage.c.f ≤ length work.old }
    ensures { work.new ≡ place (3 * faces.now.cage.c.v) (flat (answers flag (faces_in faces.now) faces.now.cage.points.now (range 0 faces.now.cage.c.f))) work.old }
{
    let mut at = faces.cage.c.v as u32;
    for f in 0..faces.cage.c.f as u32 {
        let a = face_answer(faces, flag, f);
        at = put_answer(work, at, a);
    }
}
