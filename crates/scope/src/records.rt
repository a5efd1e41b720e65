// The records of a mesh (document 01, section 2), and those that pass through the smoothing rules (section 3).

use std::ops::{Add, Div, Mul};

// A point is one record of three numbers. By default it is the origin, where sums begin.
#[derive(Clone, Copy, Debug, Default, PartialEq)]
pub struct Point {
    pub x: f64,
    pub y: f64,
    pub z: f64,
}

// The operators go coordinate by coordinate, each rounded once.
impl Add for Point {
    type Output = Point;

    ghost use Rattle.std.specs.Prelude.{◌≡◌};
    ghost use Rattle.scope.specs.Point.{add_p};

    ghost add_gives = { λ a b r. r ≡ add_p a b };

    #[tactic(auto, unfolding(crate::specs::Point::add_p))]
    fn add(self, rhs: Point) -> Point {
        Point {
            x: self.x + rhs.x,
            y: self.y + rhs.y,
            z: self.z + rhs.z,
        }
    }
}

impl Mul<f64> for Point {
    type Output = Point;

    ghost use Rattle.std.specs.Prelude.{◌≡◌};
    ghost use Rattle.scope.specs.Point.{scale_p};

    ghost mul_gives = { λ a s r. r ≡ scale_p a s };

    #[tactic(auto, unfolding(crate::specs::Point::scale_p))]
    fn mul(self, rhs: f64) -> Point {
        Point {
            x: self.x * rhs,
            y: self.y * rhs,
            z: self.z * rhs,
        }
    }
}

impl Div<f64> for Point {
    type Output = Point;

    ghost use Rattle.std.specs.Prelude.{◌≡◌};
    ghost use Rattle.scope.specs.Point.{over_p};

    ghost div_gives = { λ a s r. r ≡ over_p a s };

    #[tactic(auto, unfolding(crate::specs::Point::over_p))]
    fn div(self, rhs: f64) -> Point {
        Point {
            x: self.x / rhs,
            y: self.y / rhs,
            z: self.z / rhs,
        }
    }
}

// The links of a halfedge. A face that is not there is 4294967295.
#[derive(Clone, Copy, Debug, PartialEq, Eq)]
pub struct Halfedge {
    pub face: u32,
    pub head: u32,
    pub next: u32,
    pub prev: u32,
}

// An edge holds its two halfedges side by side.
#[derive(Clone, Copy, Debug, PartialEq, Eq)]
pub struct Edge {
    pub halves: [Halfedge; 2],
}

// How many vertices, edges and faces there are.
#[derive(Clone, Copy, Debug, PartialEq, Eq)]
pub struct Counts {
    pub v: usize,
    pub e: usize,
    pub f: usize,
}

// The weights of an interior vertex: its own, and that of the sum of its neighbours.
#[derive(Clone, Copy, Debug, PartialEq)]
pub struct Weights {
    pub first: f64,
    pub second: f64,
}

// The new points of a face under sqrt3: one centre, or two on its rim edge.
#[derive(Clone, Copy, Debug, PartialEq)]
pub enum FacePoints {
    Centre(Point),
    Pair(Point, Point),
}
