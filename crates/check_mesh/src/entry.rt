// The check of a mesh in slices, for every input: answers 2 and 3 of document 01, or sound.

ghost use Rattle.std.specs.Prelude.{◌≡◌, length, ◌≤◌};
ghost use Rattle.laws_check.specs.Tells.{Tells};
ghost use Rattle.scope.specs.Slices.{sizes, fits};
ghost use Rattle.mesh.specs.Given.{lists};
ghost use Rattle.check_mesh.specs.Checked.{checked_links, checked};

use crate::judge::judge;
use check_rules::states::Mesh;
use mesh::given::{Given, Slices};
use scope::answers::Refusal;
use scope::records::Counts;

// A count is small and its slice and its marks are long enough.
fn fits_in(n: usize, room: usize, marks: usize) -> bool
    ensures { Tells result ((n ≤ 1048576) × (n ≤ room) × (n ≤ marks)) }
{
    n <= 1048576 && n <= room && n <= marks
}

// No slice is shorter than its count, and no count is over 1,048,576.
pub fn fits(s: Slices<'_>, c: Counts) -> bool
    ensures { result ≡ fits c (sizes (lists s.entry)) }
{
    fits_in(c.v, s.outs.len(), s.vmarks.len())
        && fits_in(c.e, s.edges.len() / 8, s.emarks.len())
        && fits_in(c.f, s.faces.len(), s.fmarks.len())
}

// The check of links and marks, as an edit wants it. What is past the counts is no part of the mesh.
pub fn check_links(s: Slices<'_>, c: Counts) -> Result<(), Refusal>
    ensures { result ≡ checked_links c (lists s.entry) }
{
    if !fits(s, c) {
        return Err(Refusal::ShortSlice);
    }
    judge(&Mesh {
        outs: &s.outs[..c.v],
        edges: &s.edges[..8 * c.e],
        faces: &s.faces[..c.f],
        vmarks: &s.vmarks[..c.v],
        emarks: &s.emarks[..c.e],
        fmarks: &s.fmarks[..c.f],
        nv: c.v as u32,
        ne: c.e as u32,
        nf: c.f as u32,
    })
    .map_err(Refusal::NotConsistent)
}

// The check of a mesh with its points, three numbers for each vertex.
pub fn check(g: Given<'_>) -> Result<(), Refusal>
    ensures { result ≡ checked g.entry.counts (lists g.entry.slices) (length g.entry.points.now) }
{
    if g.points.len() / 3 < g.counts.v {
        return Err(Refusal::ShortSlice);
    }
    check_links(g.slices, g.counts)
}
