// A part of a case as little-endian words of four bytes. Behind its last word every word is 0: a list leaves out the zeros
// at the end of a part.
ghost use Rattle.std.specs.Prelude.{◌≡◌, true, ◌≤◌, length};
ghost use Rattle.replay.specs.Words.{word_at, head_of, Stands, StateAt, AnswerAt};

use rules::State;
use std::array;

pub fn word_at(part: &[u8], k: usize) -> u32
    ensures { result ≡ word_at part.now k }
{
    if part.len() / 4 <= k {
        return 0;
    }
    wire::u32_at(part, 4 * k)
}

// A call by its number, and what it is told: two numbers, the first also as a word.
#[derive(Clone, Copy)]
pub struct Head {
    pub call: u32,
    pub word: u32,
    pub m: usize,
    pub n: usize,
}

pub fn read_head(part: &[u8]) -> Head
    ensures { result ≡ head_of part.now }
{
    let word = word_at(part, 1);
    Head {
        call: word_at(part, 0),
        word,
        m: word as usize,
        n: word_at(part, 2) as usize,
    }
}

// Each function below compares: true only if what is given stands in the part from word `at` on.
pub fn words_same(part: &[u8], at: usize, words: &[u32]) -> bool
    requires { at ≤ 12 }
    ensures { result ≡ true → Stands part.now at words.now }
{
    for (i, word) in words.iter().enumerate() {
        if *word != word_at(part, at + i) {
            return false;
        }
    }
    true
}

pub fn state_same(part: &[u8], at: usize, s: State) -> bool
    requires { at ≤ 7 }
    ensures { result ≡ true → StateAt part.now at s }
{
    let numbers = [s.count, s.remaining, s.current, s.start, s.end];
    words_same(part, at, &numbers) && words_same(part, at + 5, &s.marks.map(u32::from))
}

// The seven numbers of an answer, 0 where a call has none, and the state that is left.
pub fn answer_same(part: &[u8], numbers: [u32; 7], s: State) -> bool
    ensures { result ≡ true → AnswerAt part.now numbers s }
{
    words_same(part, 0, &numbers) && state_same(part, 7, s)
}

// Nothing is promised of the state: it is compared with the part afterwards.
pub fn read_state(part: &[u8]) -> State {
    State {
        marks: array::from_fn(|i| u16::try_from(word_at(part, 5 + i)).unwrap_or(0)),
        count: word_at(part, 0),
        remaining: word_at(part, 1),
        current: word_at(part, 2),
        start: word_at(part, 3),
        end: word_at(part, 4),
    }
}
