// Points and the smoothing rules (document 01, section 3), coordinate by coordinate, each operation rounded once, in the order that is fixed there.

#![tactic(auto, unfolding(scope::specs::Point::zero_p, scope::specs::Rules::middle, scope::specs::Rules::cc_edge, scope::specs::Rules::cc_inner, scope::specs::Rules::loop_edge, scope::specs::Rules::loop_rim, scope::specs::Rules::weighted, scope::specs::Rules::sqrt_rim, scope::specs::Rules::sqrt_pair))]

ghost use Rattle.std.specs.Prelude.{◌≡◌};
ghost use Rattle.scope.specs.Point.{over_p, zero_p};
ghost use Rattle.scope.specs.Points.{number};
ghost use Rattle.scope.specs.Rules as Rules;
ghost use Rattle.scope.specs.Rules.{cc_edge, cc_inner, loop_edge, loop_rim, sqrt_rim, sqrt_pair};

use scope::records::{FacePoints, Point, Weights};

// Where sums begin.
pub fn zero() -> Point
    ensures { result ≡ zero_p }
{
    Point::default()
}

// A sum divided by the number of its points: a face point, and a Catmull-Clark rim vertex.
pub fn mean(sum: Point, n: u32) -> Point
    ensures { result ≡ over_p sum (number n) }
{
    sum / n as f64
}

// The middle of an edge.
pub fn middle(a: Point, b: Point) -> Point
    ensures { result ≡ Rules.middle a b }
{
    (a + b) * 0.5
}

// Catmull-Clark, edge with two faces, whose points are f and g.
pub fn cc_edge(a: Point, b: Point, f: Point, g: Point) -> Point
    ensures { result ≡ cc_edge a b f g }
{
    (a + b + f + g) * 0.25
}

// Catmull-Clark, interior vertex p of valence n, with the sums of face points and of neighbours.
pub fn cc_inner(fs: Point, ns: Point, p: Point, n: u32) -> Point
    ensures { result ≡ cc_inner fs ns p n }
{
    let v = n as f64;
    ((fs + ns) / v + p * (v - 2.0)) / v
}

// Loop, edge between a and b with the opposite corners c and d.
pub fn loop_edge(a: Point, b: Point, c: Point, d: Point) -> Point
    ensures { result ≡ loop_edge a b c d }
{
    ((a + b) * 3.0 + (c + d)) / 8.0
}

// Loop, rim vertex p between a and b.
pub fn loop_rim(p: Point, a: Point, b: Point) -> Point
    ensures { result ≡ loop_rim p a b }
{
    (p * 6.0 + a + b) / 8.0
}

// Loop and sqrt3, interior vertex p with the sum of its neighbours.
pub fn weighted(ns: Point, p: Point, w: Weights) -> Point
    ensures { result ≡ Rules.weighted ns p w.first w.second }
{
    ns * w.second + p * w.first
}

// sqrt3, rim vertex p between a and b.
pub fn sqrt_rim(p: Point, a: Point, b: Point) -> Point
    ensures { result ≡ sqrt_rim p a b }
{
    ((a + b) * 4.0 + p * 19.0) / 27.0
}

// sqrt3, the two points on the rim edge between p2 and p3; p1 and p4 lie beside them on the rim.
pub fn sqrt_pair(p1: Point, p2: Point, p3: Point, p4: Point) -> FacePoints
    ensures { result ≡ sqrt_pair p1 p2 p3 p4 }
{
    FacePoints::Pair(
        (p1 + p2 * 16.0 + p3 * 10.0) / 27.0,
        (p2 * 10.0 + p3 * 16.0 + p4) / 27.0,
    )
}
