// The counter's fields, all at once.

ghost use Rattle.std.specs.Prelude.{◌≡◌, ◌+◌, ◌<◌, ◌≤◌, length};
ghost use Rattle.check_mesh.specs.Checked.{links_at};
ghost use Rattle.count_fields.specs.Count.{Linked};
ghost use Rattle.count_fields.specs.Fields.{shells_of, counted};

use crate::loops::rim_loops;
use crate::numbers::{corners, joined, rim_edges};

// A whole number with its sign. No signed integer, as half of -1 is -0 here (`shells_of`), and the line says so.
#[derive(Clone, Copy, Debug, PartialEq, Eq)]
pub struct Shells {
    pub minus: bool,
    pub size: usize,
}

// The fields of the counter's line.
#[derive(Clone, Copy, Debug, PartialEq, Eq)]
pub struct Tally {
    pub v: usize,
    pub e: usize,
    pub f: usize,
    pub corners: usize,
    pub rim: usize,
    pub shells: Shells,
}

// Half of (vertices with an edge, less edges, plus faces, plus rim loops).
fn half_of(joined: usize, e: usize, f: usize, loops: usize) -> Shells
    requires { joined + f + loops < 4294967296 }
    ensures { result ≡ shells_of joined e f loops }
{
    let up = joined + f + loops;
    Shells {
        minus: up < e,
        size: up.abs_diff(e) / 2,
    }
}

// The fields of the mesh whose links are these slices, with n edges.
pub fn fields(outs: &[u32], edges: &[u32], faces: &[u32], n: usize) -> Tally
    requires outs_len_bound { length outs.now ≤ 1048576 }
    requires linked { Linked edges.now faces.now n }
    ensures { result ≡ counted (links_at (length outs.now) n (length faces.now) outs.now edges.now faces.now) }
{
    let joined = joined(outs);
    let loops = rim_loops(edges, faces, n);
    Tally {
        v: outs.len(),
        e: n,
        f: faces.len(),
        corners: corners(edges, faces, n),
        rim: rim_edges(edges, n),
        shells: half_of(joined, n, faces.len(), loops),
    }
}
