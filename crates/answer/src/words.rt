// The twelve words of an answer: number, place and ten value words. Every word is written, whatever the answer.

ghost use Rattle.std.specs.Prelude.{◌≡◌, List, ℕ};
ghost use Rattle.answer.specs.Words.{done_words, refused_words, value_words, words_of};

use crate::refusal::{Answer, Refusal, number_of, place_of, value_of};

// What DONE has as its value.
pub trait Value {
    // Its value words, ten at most.
    ghost words: { Self → List ℕ };

    // They, and 0 past their end.
    fn words(self) -> [u64; 10]
        ensures { result ≡ value_words (words self) };
}

// Writes the words of a refusal.
pub fn put_refused(answer: &mut [u64; 12], r: Refusal)
    ensures { answer.new ≡ refused_words r }
{
    let n = u64::from(number_of(r));
    let p = u64::from(place_of(r));
    let v = u64::from(value_of(r));
    *answer = [n, p, v, 0, 0, 0, 0, 0, 0, 0, 0, 0];
}

// Writes the words of DONE with its value words; those that the value does not use are given as 0.
pub fn put_done(answer: &mut [u64; 12], values: [u64; 10])
    ensures { answer.new ≡ done_words values }
{
    let [a, b, c, d, e, f, g, h, i, j] = values;
    *answer = [0, 0, a, b, c, d, e, f, g, h, i, j];
}

// Writes the words of what a call answers.
pub fn put<T: Value>(answer: &mut [u64; 12], res: Answer<T>)
    ensures { answer.new ≡ words_of T.words res }
{
    match res {
        Ok(value) => put_done(answer, value.words()),
        Err(r) => put_refused(answer, r),
    }
}
