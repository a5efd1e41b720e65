// Steps that can be undone where C1, C2 and C3 are in order.

ghost use Rattle.std.specs.Prelude.{◌≡◌, ℕ, List, ◌*◌, ◌<◌};
ghost use Rattle.check_rounds.specs.Steps.{perm-next, perm-turn};
ghost use Rattle.check_rules.specs.Place.{Half};
ghost use Rattle.check_rules.specs.Rule.{Sewn};
ghost use Rattle.laws_mesh.proofs.Cycle.{Perm};
ghost use Rattle.mesh.specs.Words.{Has, next_at, prev_at};
ghost use Rattle.scope.specs.Links.{partner};

use check_rules::states::Mesh;
use mesh::half::{next, partner, prev};
use mesh_walk::round::{ByNext, ByTurn, Step};

// Undone by the edges alone, as the searches of this crate go back.
pub trait Reversible: Step {
    ghost back_at: { List ℕ → ℕ → ℕ };

    fn step_back(edges: &[u32], h: u32) -> u32
        requires has { Has edges.now h }
        requires has_partner { Has edges.now (partner h) }
        ensures { result ≡ back_at edges.now h };

    ghost undoes: { (ed em : List ℕ) (e : ℕ) → Sewn ed em e → Perm (Half em e) (2 * e) (Self.at ed) (back_at ed) };
}

impl Reversible for ByNext {
    ghost back_at = { prev_at };

    ghost undoes = { λ ed em e s. perm-next s };

    fn step_back(edges: &[u32], h: u32) -> u32 {
        prev(edges, h)
    }
}

impl Reversible for ByTurn {
    ghost back_at = { λ ed h. next_at ed (partner h) };

    ghost undoes = { λ ed em e s. perm-turn s };

    fn step_back(edges: &[u32], h: u32) -> u32 {
        next(edges, partner(h))
    }
}

// Undone on a mesh. A trait of its own, so that a step that is written for a mesh has all that a mesh knows, and no more to write.
pub trait BothWays: Step {
    ghost back_at: { List ℕ → ℕ → ℕ };

    fn back(m: &Mesh, h: u32) -> u32
        requires { h < 2 * m.now.ne }
        ensures { result ≡ back_at m.now.edges.now h };

    ghost undoes: { (ed em : List ℕ) (e : ℕ) → Sewn ed em e → Perm (Half em e) (2 * e) (Self.at ed) (back_at ed) };
}

impl BothWays for ByNext {
    ghost back_at = { prev_at };

    ghost undoes = { λ ed em e s. perm-next s };

    fn back(m: &Mesh, h: u32) -> u32 {
        ByNext::step_back(m.edges, h)
    }
}

impl BothWays for ByTurn {
    ghost back_at = { λ ed h. next_at ed (partner h) };

    ghost undoes = { λ ed em e s. perm-turn s };

    fn back(m: &Mesh, h: u32) -> u32 {
        ByTurn::step_back(m.edges, h)
    }
}

#[cfg(test)]
mod tests {
    use super::*;
    use mesh::half::NONE;

    // A triangle: halfedges 0, 2, 4 go around it from vertex 0 over 1 and 2, and 1, 3, 5 are their partners on the rim.
    #[test]
    fn goes_back_on_a_mesh(rt: HostRuntime) {
        let edges = [
            0, 1, 2, 4, NONE, 0, 5, 3, // 0 to 1
            0, 2, 4, 0, NONE, 1, 1, 5, // 1 to 2
            0, 0, 0, 2, NONE, 2, 3, 1, // 2 to 0
        ];
        let m = Mesh {
            outs: &[5, 1, 3],
            edges: &edges,
            faces: &[0],
            vmarks: &[0; 3],
            emarks: &[0; 3],
            fmarks: &[0],
            nv: 3,
            ne: 3,
            nf: 1,
        };
        for (h, by_next, by_turn) in [
            (0, 4, 5),
            (1, 3, 2),
            (2, 0, 1),
            (3, 5, 4),
            (4, 2, 3),
            (5, 1, 0),
        ] {
            assert_eq!(rt; ByNext::back(&m, h), by_next, "at {h}");
            assert_eq!(rt; ByTurn::back(&m, h), by_turn, "at {h}");
        }
    }
}
