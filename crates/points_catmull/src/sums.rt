// Sums of points around faces and vertices, in the orders of document 01, section 2.

ghost use Rattle.std.specs.Prelude.{◌≡◌, map, length, ◌≤◌, ◌<◌, ◌+◌, ◌*◌};
ghost use Rattle.scope.specs.Point.{zero_p};
ghost use Rattle.scope.specs.Points.{face_point};
ghost use Rattle.scope.specs.Lists.{round};
ghost use Rattle.mesh.specs.Rounds.{Walk};
ghost use Rattle.points_catmull.specs.Place.{place, made};
ghost use Rattle.points_catmull.specs.Cages.{faces_in};
ghost use Rattle.points_catmull.specs.Sums.{head_point, summed, more};

use crate::cage::{Cage, Faces};
use mesh::half::head;
use mesh::rows::{load_point, start, store_point};
use mesh_walk::round::{ByNext, Round, Step};
use points::{mean, zero};
use scope::records::Point;

// A sum of points, and how many they are.
#[derive(Clone, Copy)]
pub struct Sum {
    pub total: Point,
    pub count: u32,
}

impl Sum {
    // With one point more.
    pub fn plus(self, p: Point) -> Sum
        requires { self.count < 4294967295 }
        ensures { result ≡ more self p }
    {
        Sum {
            total: self.total + p,
            count: self.count + 1,
        }
    }
}

impl<'a> Cage<'a> {
    // The point that h leads to.
    pub fn head_point(&self, h: u32) -> Point
        requires { h < 2 * self.now.c.e }
        ensures { result ≡ head_point self.now.edges.now self.now.points.now h }
    {
        self.head_in(self.points, h)
    }

    // The same among other points of the vertices.
    pub fn head_in(&self, points: &[f64], h: u32) -> Point
        requires h_bound { h < 2 * self.now.c.e }
        requires v_in_bounds { 3 * self.now.c.v ≤ length points.now }
        ensures { result ≡ head_point self.now.edges.now points.now h }
    {
        load_point(points, head(self.edges, h))
    }

    // Zero plus the heads of the halfedges from h on, by the step S.
    pub fn heads<S: Step>(&self, h: u32) -> Sum
        requires { Walk S.at self.now.edges.now self.now.c.e h }
        ensures { result ≡ summed zero_p (map (head_point self.now.edges.now self.now.points.now) (round h (S.at self.now.edges.now) (2 * self.now.c.e) h)) }
    {
        let mut s = Sum {
            total: zero(),
            count: 0,
        };
        for k in Round::<S>::new(self.edges, self.c.e, h) {
            s = s.plus(self.head_point(k));
        }
        s
    }
}

impl<'a> Faces<'a> {
    // The point of face f.
    pub fn point(&self, f: u32) -> Point
        requires { f < self.now.cage.c.f }
        ensures { result ≡ face_point (faces_in self.now) self.now.cage.points.now f }
    {
        let s = self.cage.heads::<ByNext>(start(self.starts, f));
        mean(s.total, s.count)
    }

    // The points of all faces, each worked out once, behind the places of the vertices and the edges.
    pub fn put(&self, work: &mut [f64])
        requires { 3 * (self.now.cage.c.v + self.now.cage.c.e + self.now.cage.c.f) ≤ length work.old }
        ensures { work.new ≡ place (3 * (self.now.cage.c.v + self.now.cage.c.e)) (made (face_point (faces_in self.now) self.now.cage.points.now) self.now.cage.c.f) work.old }
    {
        let at = (self.cage.c.v + self.cage.c.e) as u32;
        for f in 0..self.cage.c.f as u32 {
            store_point(work, at + f, self.point(f));
        }
    }
}
