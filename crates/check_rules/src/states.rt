// A mesh in slices, and what is known of it after the first rules. A later rule takes the type that says what it needs.

ghost use Rattle.check_rules.specs.Once.{Faced-prop, Rooted-prop};
ghost use Rattle.check_rules.specs.Rule.{Chained, EdgesFit, Faced, ItemsFit, Rooted, Sewn};

// The slices are long enough for the counts, and the counts are small. Not `mesh::given::Slices` and `Counts`: counts are words here, and the facts
// speak of each slice.
#[derive(Clone, Copy)]
pub struct Mesh<'a> {
    pub outs: &'a [u32],
    pub edges: &'a [u32],
    pub faces: &'a [u32],
    pub vmarks: &'a [u8],
    pub emarks: &'a [u8],
    pub fmarks: &'a [u8],
    pub nv: u32,
    pub ne: u32,
    pub nf: u32,
    pub ghost vertices: { ItemsFit outs.now vmarks.now nv },
    pub ghost halfedges: { EdgesFit edges.now emarks.now ne },
    pub ghost sides: { ItemsFit faces.now fmarks.now nf },
}

// C1 is in order.
#[derive(Clone, Copy)]
pub struct LinkedMesh<'a> {
    pub mesh: Mesh<'a>,
    pub ghost chained: { Chained mesh.edges.now mesh.emarks.now mesh.ne },
    pub ghost faced: { Faced mesh.edges.now mesh.emarks.now mesh.faces.now mesh.fmarks.now mesh.ne mesh.nf } by { Faced-prop mesh.sides.few },
    pub ghost rooted: { Rooted mesh.edges.now mesh.emarks.now mesh.outs.now mesh.vmarks.now mesh.ne mesh.nv } by { Rooted-prop mesh.halfedges.few },
}

// C1, C2 and C3 are in order.
#[derive(Clone, Copy)]
pub struct SewnMesh<'a> {
    pub mesh: Mesh<'a>,
    pub ghost sewn: { Sewn mesh.edges.now mesh.emarks.now mesh.ne },
    pub ghost faced: { Faced mesh.edges.now mesh.emarks.now mesh.faces.now mesh.fmarks.now mesh.ne mesh.nf } by { Faced-prop mesh.sides.few },
    pub ghost rooted: { Rooted mesh.edges.now mesh.emarks.now mesh.outs.now mesh.vmarks.now mesh.ne mesh.nv } by { Rooted-prop mesh.halfedges.few },
}
