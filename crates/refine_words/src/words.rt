// The words that ask for a run: its scheme, its number of passes, its flag. Functions and no `TryFrom`, as neither type is this crate's.

ghost use Rattle.std.specs.Prelude.{◌≡◌, ◌≤◌, length};
ghost use Rattle.refine_words.specs.Words.{scheme_word, flag_word, scheme_asked, flag_asked, passes_asked};

use call_room::kind::Kind;

// A scheme that joins gets its word here.
pub(crate) fn scheme_word(kind: Kind) -> &'static [u8]
    ensures value { result.now ≡ scheme_word kind }
    ensures len { length result.now ≤ 7 }
{
    match kind {
        Kind::Catmull => b"catmull",
    }
}

pub(crate) fn flag_word(flag: bool) -> &'static [u8]
    ensures value { result.now ≡ flag_word flag }
    ensures len { length result.now ≤ 6 }
{
    if flag { b"update" } else { b"keep" }
}

// The scheme of a word.
pub fn scheme_asked(word: &[u8]) -> Option<Kind>
    ensures { result ≡ scheme_asked word.now }
{
    (word == scheme_word(Kind::Catmull)).then_some(Kind::Catmull)
}

// Whether old points move.
pub fn flag_asked(word: &[u8]) -> Option<bool>
    ensures { result ≡ flag_asked word.now }
{
    if word == flag_word(true) {
        Some(true)
    } else if word == flag_word(false) {
        Some(false)
    } else {
        None
    }
}

// A decimal number of one to three digits. Zeros in front are taken; a number over 12 is a number, which the call refuses. Not `parse`, which takes a sign.
pub fn passes_asked(word: &[u8]) -> Option<u32>
    ensures { result ≡ passes_asked word.now }
{
    if word.is_empty() || 3 < word.len() {
        return None;
    }
    let mut n = 0;
    for d in word {
        if !d.is_ascii_digit() {
            return None;
        }
        n = 10 * n + (*d - b'0') as u32;
    }
    Some(n)
}
