// A table of keywords.
ghost use Rattle.std.specs.Prelude.{◌≡◌, ℕ, ◌<◌, Some, length, IsTrue, IfSome, slice_get};
ghost use Rattle.std.specs.List.{position};
ghost use Rattle.std.specs.Str.{bytes_eq};
ghost use Rattle.parm_keys.specs.Words.{are_distinct, are_rising, row_of, spelled};

/// The keywords of one kind of definition: N of them, in rising order of their bytes, no two the same.
#[derive(Clone, Copy, Debug)]
pub struct KeyTable<const N: usize> {
    pub(crate) words: &'static [&'static str],
    ghost rows: { length words.now ≡ N },
    ghost rising: { IsTrue (are_rising (spelled words.now)) },
    ghost distinct: { IsTrue (are_distinct (spelled words.now)) },
}

impl<const N: usize> KeyTable<N> {
    ghost use Rattle.parm_keys.specs.Tables.{words_of};

    /// The row of a word, from 0, where the table has that word. Case counts.
    pub fn find(&self, word: &[u8]) -> Option<usize>
        // A row that is answered holds the word.
        ensures found { IfSome result (λ row. slice_get (words_of self.now) row ≡ Some word.now) }
        // A row that holds the word is answered, so no other row holds it.
        ensures only { (row : ℕ) → slice_get (words_of self.now) row ≡ Some word.now → result ≡ Some row }
        ensures within { IfSome result (λ row. row < N) }
        ensures exact { result ≡ row_of (words_of self.now) word.now }
    {
        first_row(self.words, word)
    }
}

fn first_row(words: &[&'static str], word: &[u8]) -> Option<usize>
    ensures { result ≡ position (λ key. bytes_eq key.now word.now) words.now }
{
    words.iter().position(|key| key.as_bytes() == word)
}
