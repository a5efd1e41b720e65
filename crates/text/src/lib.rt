// Words and decimal numbers put into a slice of bytes, one after the other. Each call answers the place after what it put.
// It is not `fmt::Write`, whose contract lets any write fail: a line that is put by these is always whole. The place stays a number beside the slice:
// docs/PROOFS.md names `put`, `put_number` and `put_signed` with it.

#![tactic(auto)]

ghost use Rattle.std.specs.Prelude.{◌≡◌, ◌++◌, ◌+◌, ◌≤◌, length};
ghost use Rattle.text.specs.Text.{over_from, decimal, signed};
ghost use Rattle.text.specs.Pieces.{piece_text, text_of, piece_width, width_of};

// A word, from there on.
pub fn put(out: &mut [u8], at: usize, word: &[u8]) -> usize
    requires { at + length word.now ≤ length out.old }
    ensures out_after { out.new ≡ over_from at word.now out.old }
    ensures value { result ≡ at + length word.now }
{
    let end = at + word.len();
    out[at..end].copy_from_slice(word);
    end
}

// A number in decimal: any has at most 20 digits. The digits before the last are those of a tenth.
pub fn put_number(out: &mut [u8], at: usize, n: u64) -> usize
    requires { at + 20 ≤ length out.old }
    ensures out_after { out.new ≡ over_from at (decimal n) out.old }
    ensures value { result ≡ at + length (decimal n) }
    ensures upper_bound { result ≤ at + 20 }
{
    if n < 10 {
        out[at] = b'0' + n as u8;
        return at + 1;
    }
    let last = put_number(out, at, n / 10);
    out[last] = b'0' + (n % 10) as u8;
    last + 1
}

// A name and its number.
pub fn put_field(out: &mut [u8], at: usize, name: &[u8], n: u64) -> usize
    requires { at + length name.now + 20 ≤ length out.old }
    ensures out_after { out.new ≡ over_from at (name.now ++ decimal n) out.old }
    ensures value { result ≡ at + length (name.now ++ decimal n) }
    ensures upper_bound { result ≤ at + length name.now + 20 }
{
    let next = put(out, at, name);
    put_number(out, next, n)
}

// A number with its sign.
pub fn put_signed(out: &mut [u8], at: usize, minus: bool, n: u64) -> usize
    requires { at + 21 ≤ length out.old }
    ensures out_after { out.new ≡ over_from at (signed minus n) out.old }
    ensures value { result ≡ at + length (signed minus n) }
    ensures upper_bound { result ≤ at + 21 }
{
    if minus {
        return put_field(out, at, b"-", n);
    }
    put_number(out, at, n)
}

// A piece of a text: a word, a name and its number, a number with its sign.
#[derive(Clone, Copy)]
pub enum Piece<'a> {
    Word(&'a [u8]),
    Field(&'a [u8], u64),
    Signed(bool, u64),
}

impl<'a> Piece<'a> {
    fn put(&self, out: &mut [u8], at: usize) -> usize
        requires { at + piece_width self.now ≤ length out.old }
        ensures out_after { out.new ≡ over_from at (piece_text self.now) out.old }
        ensures value { result ≡ at + length (piece_text self.now) }
        ensures upper_bound { result ≤ at + piece_width self.now }
    {
        match *self {
            Piece::Word(word) => put(out, at, word),
            Piece::Field(name, n) => put_field(out, at, name, n),
            Piece::Signed(minus, n) => put_signed(out, at, minus, n),
        }
    }
}

// Pieces, one after the other.
pub fn put_pieces(out: &mut [u8], at: usize, pieces: &[Piece]) -> usize
    requires { at + width_of pieces.now ≤ length out.old }
    ensures out_after { out.new ≡ over_from at (text_of pieces.now) out.old }
    ensures value { result ≡ at + length (text_of pieces.now) }
    ensures upper_bound { result ≤ at + width_of pieces.now }
{
    let mut end = at;
    for piece in pieces {
        end = piece.put(out, end);
    }
    end
}
