// Words, numbers and marks put into bytes, little-endian, one after another. Each call answers the place after what it put.

ghost use Rattle.std.specs.Prelude.{◌≡◌, ⊤, ℕ, List, true, ◌≤◌, ◌+◌, length};
ghost use Rattle.std.specs.Float.Ieee.Scale.{finite};
ghost use Rattle.file_read.specs.Format.{word_bytes, words_bytes, points_bytes, marks_bytes};
ghost use Rattle.text.specs.Text.{over_from};
ghost use Rattle.file_write.specs.Puts.{number_bytes, mark_bytes};
ghost use Rattle.file_write.specs.Items.{Items, AllFit, words_laws, numbers_laws, marks_laws};

use text::put;

// What a file holds one after another.
pub trait Item: Copy {
    // The bytes of one, and of a list.
    ghost bytes: { Self → List ℕ };

    ghost all_bytes: { List Self → List ℕ };

    // Those that can be written.
    ghost fit: { Self → Type 0 };

    ghost laws: { Items bytes all_bytes };

    fn put(self, file: &mut [u8], at: usize) -> usize
        requires room { at + length (bytes self) ≤ length file.old }
        requires fits { fit self }
        ensures file_after { file.new ≡ over_from at (bytes self) file.old }
        ensures place { result ≡ at + length (bytes self) };
}

impl Item for u32 {
    ghost bytes = { word_bytes };

    ghost all_bytes = { words_bytes };

    ghost fit = { λ n. ⊤ };

    ghost laws = { words_laws };

    #[tactic(auto, unfolding(file_read::specs::Format::word_bytes))]
    fn put(self, file: &mut [u8], at: usize) -> usize {
        put(file, at, &self.to_le_bytes())
    }
}

// A number that is finite, by its bits.
impl Item for f64 {
    ghost bytes = { number_bytes };

    ghost all_bytes = { points_bytes };

    ghost fit = { λ x. finite x ≡ true };

    ghost laws = { numbers_laws };

    #[tactic(auto, using(file_read::proofs::FiniteLaws::finite_no_nan, crate::proofs::PutLaws::number_le, crate::proofs::PutLaws::length_number))]
    fn put(self, file: &mut [u8], at: usize) -> usize {
        let bits = self.to_bits();
        put(file, at, &bits.to_le_bytes())
    }
}

// A mark: one that is not 0 is written as 1.
impl Item for u8 {
    ghost bytes = { mark_bytes };

    ghost all_bytes = { marks_bytes };

    ghost fit = { λ k. ⊤ };

    ghost laws = { marks_laws };

    #[tactic(auto, unfolding(crate::specs::Puts::mark_bytes))]
    fn put(self, file: &mut [u8], at: usize) -> usize {
        put(file, at, &[u8::from(self != 0)])
    }
}

pub fn put_all<T: Item>(file: &mut [u8], at: usize, items: &[T]) -> usize
    requires room { at + length (T.all_bytes items.now) ≤ length file.old }
    requires fits { AllFit T.fit items.now }
    ensures file_after { file.new ≡ over_from at (T.all_bytes items.now) file.old }
    ensures place { result ≡ at + length (T.all_bytes items.now) }
{
    let mut next = at;
    for x in items {
        next = x.put(file, next);
    }
    next
}
