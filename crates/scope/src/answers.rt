// What a call answers (document 01, section 4).

ghost use Rattle.std.specs.Prelude.{◌≡◌};
ghost use Rattle.scope.specs.Answers.{kind_of, index_of, said_of};

// Where something is wrong.
#[derive(Clone, Copy, Debug, PartialEq, Eq)]
pub enum Place {
    AtVertex(u32),
    AtHalfedge(u32),
    AtEdge(u32),
    AtFace(u32),
}

// A broken rule, C1 to C9, and the first place of it.
#[derive(Clone, Copy, Debug, PartialEq, Eq)]
pub struct Fault {
    // by its number, as document 01, `fault` and the C interface have it
    pub rule: u32,
    pub place: Place,
}

// The refusals of document 01's table, in its order. Those of the source keep its names.
#[derive(Clone, Copy, Debug, PartialEq, Eq)]
pub enum Refusal {
    TooManyPasses,
    ShortSlice,
    NotConsistent(Fault),
    MarkedDeleted(Place),
    NoRoom,
    // the pass, counted from 1, and its lowest vertex
    NoWeight(u32, u32),
    BadHandle,
    CannotInsertEdge,
    HalfedgesNotInTheSameLoop,
    NotDeletedFace,
    ComplexVertex,
    CannotSwapBoundaryEdge,
    WouldBreak,
    BadContents,
    NotFinite,
}

// Document 01's number of an answer, and the values that come with it.
#[derive(Clone, Copy, Debug, PartialEq, Eq)]
pub struct Said {
    pub number: u32,
    pub values: [u32; 3],
}

impl Place {
    // 0 vertex, 1 halfedge, 2 edge, 3 face: by number, as the C interface hands it out (`kind_of`).
    fn kind(self) -> u32
        ensures { result ≡ kind_of self }
    {
        match self {
            Place::AtVertex(_) => 0,
            Place::AtHalfedge(_) => 1,
            Place::AtEdge(_) => 2,
            Place::AtFace(_) => 3,
        }
    }

    fn index(self) -> u32
        ensures { result ≡ index_of self }
    {
        match self {
            Place::AtVertex(i) | Place::AtHalfedge(i) | Place::AtEdge(i) | Place::AtFace(i) => i,
        }
    }
}

// A refusal's number, with its values: 3 the rule, kind and index of its place, 4 kind and index, 6 pass and vertex.
impl From<Refusal> for Said {
    ghost from_gives = { λ r said. said ≡ said_of r };

    fn from(r: Refusal) -> Said {
        let (number, values) = match r {
            Refusal::TooManyPasses => (1, [0; 3]),
            Refusal::ShortSlice => (2, [0; 3]),
            Refusal::NotConsistent(Fault { rule, place }) => (
                3,
                [rule, place.kind(), place.index()],
            ),
            Refusal::MarkedDeleted(place) => (4, [place.kind(), place.index(), 0]),
            Refusal::NoRoom => (5, [0; 3]),
            Refusal::NoWeight(pass, v) => (6, [pass, v, 0]),
            Refusal::BadHandle => (7, [0; 3]),
            Refusal::CannotInsertEdge => (8, [0; 3]),
            Refusal::HalfedgesNotInTheSameLoop => (9, [0; 3]),
            Refusal::NotDeletedFace => (10, [0; 3]),
            Refusal::ComplexVertex => (11, [0; 3]),
            Refusal::CannotSwapBoundaryEdge => (12, [0; 3]),
            Refusal::WouldBreak => (14, [0; 3]),
            Refusal::BadContents => (15, [0; 3]),
            Refusal::NotFinite => (16, [0; 3]),
        };
        Said { number, values }
    }
}
