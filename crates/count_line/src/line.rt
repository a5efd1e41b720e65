// The counter's line (document 01, section 5), put into a slice: the longest has 167 bytes.

ghost use Rattle.std.specs.Prelude.{◌≡◌, ◌≤◌, length};
ghost use Rattle.scope.specs.Lists.{over};
ghost use Rattle.count_line.specs.Line.{line_of, refusal_line};

use count_fields::count::Tally;
use text::Piece::{Field, Signed, Word};
use text::put_pieces;

// The line of these fields.
pub fn put_line(out: &mut [u8], t: Tally) -> usize
    requires { 167 ≤ length out.old }
    ensures out_after { out.new ≡ over (line_of t) out.old }
    ensures value { result ≡ length (line_of t) }
    ensures upper_bound { result ≤ 167 }
{
    let line = [
        Field(b"vertices ", t.v as u64),
        Field(b" edges ", t.e as u64),
        Field(b" faces ", t.f as u64),
        Field(b" corners ", t.corners as u64),
        Field(b" rim ", t.rim as u64),
        Word(b" shells "),
        Signed(t.shells.minus, t.shells.size as u64),
        Word(b"\n"),
    ];
    put_pieces(out, 0, &line)
}

// The line of a refusal.
pub fn put_refusal(out: &mut [u8], number: u32) -> usize
    requires { 167 ≤ length out.old }
    ensures out_after { out.new ≡ over (refusal_line number) out.old }
    ensures value { result ≡ length (refusal_line number) }
    ensures upper_bound { result ≤ 167 }
{
    put_pieces(out, 0, &[Field(b"refused ", number as u64), Word(b"\n")])
}
