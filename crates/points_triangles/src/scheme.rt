// What Loop and sqrt3 differ in at a vertex: the weights in the interior, and where a vertex on the rim goes.

ghost use Rattle.std.specs.Prelude.{◌≡◌, List};
ghost use Rattle.scope.specs.declared.records.Point.{Point};
ghost use Rattle.scope.specs.declared.records.Weights.{Weights};
ghost use Rattle.scope.specs.Rules.{loop_rim};
ghost use Rattle.scope.specs.Weights.{loop_rows, sqrt_rows};
ghost use Rattle.points_weights.specs.Tables.{table};
ghost use Rattle.points_triangles.specs.Passes.{sqrt_rule};

use points::{loop_rim, sqrt_rim};
use points_weights::{loop_table, sqrt_table};
use scope::records::{Point, Weights};

pub trait Scheme {
    ghost rows: { List Weights };

    ghost rim: { Point → Point → Point → Point };

    // The weights by valence.
    fn table() -> [Weights; 64]
        ensures { result ≡ rows };

    // The rim vertex p between a and b.
    fn rim(p: Point, a: Point, b: Point) -> Point
        ensures { result ≡ rim p a b };
}

pub struct Loop;

impl Scheme for Loop {
    ghost rows = { table loop_rows };

    ghost rim = { loop_rim };

    fn table() -> [Weights; 64] {
        loop_table()
    }

    fn rim(p: Point, a: Point, b: Point) -> Point {
        loop_rim(p, a, b)
    }
}

// sqrt3, whose passes move the rim or leave it as it is.
pub struct Sqrt3<const MOVES_RIM: bool>;

impl<const MOVES_RIM: bool> Scheme for Sqrt3<MOVES_RIM> {
    ghost rows = { table sqrt_rows };

    ghost rim = { sqrt_rule MOVES_RIM };

    fn table() -> [Weights; 64] {
        sqrt_table()
    }

    fn rim(p: Point, a: Point, b: Point) -> Point {
        if MOVES_RIM { sqrt_rim(p, a, b) } else { p }
    }
}
