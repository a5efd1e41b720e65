// The links of one Catmull-Clark pass.

ghost use Rattle.std.specs.Prelude.{◌≡◌};
ghost use Rattle.scope.specs.Lists.{lay};
ghost use Rattle.scope.specs.Links.{Links};
ghost use Rattle.scope.specs.Passes.{catmull_pass};
ghost use Rattle.scope.specs.Tally.{counts_of};
ghost use Rattle.links_edits.specs.Held.{given};
ghost use Rattle.links_catmull.specs.Pass.{Ready};

use crate::faces::split_faces;
use links_edits::lent::Lent;
use links_split::split_edges;
use scope::records::Counts;

// The mesh that the slices hold, after one pass, in the same slices; answers its counts.
pub fn catmull_links(outs: &mut [u32], edges: &mut [u32], faces: &mut [u32], c: Counts) -> Counts
    requires { Ready c outs.old edges.old faces.old }
    ensures outs_after { outs.new ≡ lay 0 (catmull_pass (given c outs.old edges.old faces.old)).outs outs.old }
    ensures edges_after { edges.new ≡ lay 0 (catmull_pass (given c outs.old edges.old faces.old)).edges edges.old }
    ensures faces_after { faces.new ≡ lay 0 (catmull_pass (given c outs.old edges.old faces.old)).faces faces.old }
    ensures value { result ≡ counts_of (catmull_pass (given c outs.old edges.old faces.old)) }
{
    let v = c.v as u32;
    let e = c.e as u32;
    split_edges(outs, edges, v, e);
    let mut m = Lent {
        v: v + e,
        e: 2 * e,
        f: c.f as u32,
        outs,
        edges,
        faces,
    };
    split_faces(&mut m, v);
    m.counts()
}
