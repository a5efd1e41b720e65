// The lines of a run: what was done and what the next run must be told, or why nothing was.

ghost use Rattle.std.specs.Prelude.{◌≡◌, ◌+◌, ◌≤◌, length};
ghost use Rattle.scope.specs.Lists.{over};
ghost use Rattle.text.specs.Pieces.{piece_text, piece_width};
ghost use Rattle.text.specs.Text.{over_from};
ghost use Rattle.refine_words.specs.Lines.{card_line, place_text, where_text, refused_line};

use crate::words::{flag_word, scheme_word};
use call_room::kind::Kind;
use scope::answers::{Fault, Place, Refusal, Said};
use scope::records::Counts;
use text::Piece::{Field, Word};
use text::{Piece, put, put_field, put_pieces};

// The line of a run that is done: what was asked, the flag for the next run, what came of it. Its words can be copied: the scheme, the
// passes and `next` are what the next run is asked with.
pub fn put_card(
    out: &mut [u8; 256],
    kind: Kind,
    passes: u32,
    flag: bool,
    next: bool,
    c: Counts,
    rim: usize,
) -> usize
    ensures out_after { out.new ≡ over (card_line kind passes flag next c rim) out.old }
    ensures value { result ≡ length (card_line kind passes flag next c rim) }
    ensures upper_bound { result ≤ length out.new }
{
    let card = [
        Word(b"refined "),
        Word(scheme_word(kind)),
        Field(b" passes ", passes as u64),
        Word(b" flag "),
        Word(flag_word(flag)),
        Word(b" next "),
        Word(flag_word(next)),
        Field(b" vertices ", c.v as u64),
        Field(b" edges ", c.e as u64),
        Field(b" faces ", c.f as u64),
        Field(b" rim ", rim as u64),
        Word(b"\n"),
    ];
    put_pieces(out, 0, &card)
}

fn place_piece(p: Place) -> Piece<'static>
    ensures text { piece_text result ≡ place_text p }
    ensures width { piece_width result ≤ 30 }
{
    match p {
        Place::AtVertex(i) => Field(b" vertex ", i as u64),
        Place::AtHalfedge(i) => Field(b" halfedge ", i as u64),
        Place::AtEdge(i) => Field(b" edge ", i as u64),
        Place::AtFace(i) => Field(b" face ", i as u64),
    }
}

// The place that an answer names.
fn put_where(out: &mut [u8], at: usize, r: Refusal) -> usize
    requires { at + 56 ≤ length out.old }
    ensures out_after { out.new ≡ over_from at (where_text r) out.old }
    ensures value { result ≡ at + length (where_text r) }
    ensures upper_bound { result ≤ at + 56 }
{
    match r {
        Refusal::NotConsistent(Fault { rule, place }) => {
            put_pieces(
                out,
                at,
                &[Field(b" rule ", rule as u64), place_piece(place)],
            )
        }
        Refusal::MarkedDeleted(place) => put_pieces(out, at, &[place_piece(place)]),
        Refusal::NoWeight(pass, v) => {
            put_pieces(
                out,
                at,
                &[Field(b" pass ", pass as u64), Field(b" vertex ", v as u64)],
            )
        }
        _ => at,
    }
}

// The line of a refusal.
pub fn put_refused(out: &mut [u8; 256], r: Refusal) -> usize
    ensures out_after { out.new ≡ over (refused_line r) out.old }
    ensures value { result ≡ length (refused_line r) }
    ensures upper_bound { result ≤ length out.new }
{
    let a = put_field(out, 0, b"refused ", Said::from(r).number as u64);
    let b = put_where(out, a, r);
    put(out, b, b"\n")
}
