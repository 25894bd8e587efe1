// The values that a repeat counts, and the words of values in the answer slice: written, set aside, moved and cleared.
#![tactic(auto)]

ghost use Rattle.std.specs.Prelude.{◌≡◌, true, ◌∷◌, ◌+◌, ◌≤◌, ◌<◌, length, take, drop, replicate};
ghost use Rattle.std.proofs.lemmas.List.Edits.{sets};
ghost use Rattle.std.specs.Prelude.{if◌then◌else◌};
ghost use Rattle.eval_words.specs.Values.{no_value, OneMoreFits, one_more, ended_with, passed_on, denied_list, counted_values, last_value, next_from};
ghost use Rattle.eval_words.specs.Stored.{Put, WroteValue, CountedList, Aside, settled};

use eval_told::Ran;
use state_marks::Numbers;

// The most words of a list: its count, and two for each of its values.
const LIST_WORDS: usize = 515;

// How a repeat ended: how many values were counted, how many words of them were written, and the last of them.
#[derive(Clone, Copy)]
pub struct Repeated {
    pub number: u32,
    pub place: u32,
    pub tries: u32,
    pub count: u32,
    pub size: u32,
    pub len: u32,
    pub word: u32,
    pub numbers: Numbers,
}

// Writes the words of a value that is no list. How many they are comes back.
#[tactic(auto, unfolding(eval_told::specs::Told::scalar_words))]
pub fn put(out: &mut [u32], at: usize, len: u32, word: u32) -> u32
    requires { at + 2 ≤ length out.old }
    ensures { Put out.old at len word out.new result }
{
    match len {
        0 => 0,
        1 => {
            out[at] = word;
            1
        }
        _ => {
            out[at] = 1;
            out[at + 1] = word;
            2
        }
    }
}

// A value goes behind the `size` words from `at + 1` on, if values are written.
pub fn write_value(out: &mut [u32], writes: bool, at: usize, size: u32, len: u32, word: u32) -> u32
    requires { writes ≡ true → at + 1 + size + 2 ≤ length out.old }
    ensures { WroteValue writes out.old (at + 1 + size) len word out.new result }
{
    if writes {
        put(out, at + 1 + size as usize, len, word)
    } else {
        0
    }
}

// The `size` words from `at + 1` on are 0 again, if values were written.
pub fn unwrite(out: &mut [u32], writes: bool, at: usize, size: u32)
    requires { writes ≡ true → at + 1 ≤ length out.old }
    ensures { out.new ≡ (if writes then sets out.old (at + 1) (replicate size 0) else out.old) }
{
    if writes {
        wire::fill(out, at + 1, size as usize, 0);
    }
}

pub fn nothing(p: Numbers) -> Repeated
    ensures { result ≡ no_value p }
{
    Repeated {
        number: 0,
        place: 0,
        tries: 0,
        count: 0,
        size: 0,
        len: 0,
        word: 0,
        numbers: p,
    }
}

// One value more, of which `width` words were written.
pub fn one_more(all: Repeated, ran: Ran, width: u32) -> Repeated
    requires { OneMoreFits all ran width }
    ensures { result ≡ one_more all ran width }
{
    Repeated {
        tries: all.tries + ran.tries,
        count: all.count + 1,
        size: all.size + width,
        len: ran.len,
        word: ran.word,
        ..nothing(ran.numbers)
    }
}

// The last evaluation added no value, only its tries.
pub fn ended(all: Repeated, tries: u32, numbers: Numbers) -> Repeated
    requires { all.tries + tries ≤ 16512 }
    ensures { result ≡ ended_with all tries numbers }
{
    Repeated {
        number: 0,
        place: 0,
        tries: all.tries + tries,
        numbers,
        ..all
    }
}

// The child's refusal is the repeat's; the values are dropped.
pub fn passed_on(all: Repeated, ran: Ran) -> Repeated
    requires { all.tries + ran.tries ≤ 16512 }
    ensures { result ≡ passed_on all ran }
{
    Repeated {
        number: ran.number,
        place: ran.place,
        tries: all.tries + ran.tries,
        ..nothing(ran.numbers)
    }
}

pub fn refused_list(all: Repeated) -> Ran
    ensures { result ≡ denied_list all }
{
    eval_told::refusal(all.number, all.place, all.tries, all.numbers)
}

pub fn counted(all: Repeated) -> Ran
    ensures { result ≡ counted_values all }
{
    eval_told::value(all.tries, 1, all.count, all.numbers)
}

pub fn last_value(all: Repeated) -> Ran
    ensures { result ≡ last_value all }
{
    eval_told::value(all.tries, all.len, all.word, all.numbers)
}

// Where the next turn of a repeat over a leaf searches from: behind what this turn used.
#[tactic(auto, unfolding(crate::specs::Values::next_from))]
pub fn next_from(from: usize, given: u32, after: Numbers) -> usize
    ensures { result ≡ next_from from given after }
{
    if after.remaining < given {
        after.current as usize
    } else {
        from
    }
}

// Copies marks, if that is wanted.
pub fn copy_if(wanted: bool, from: &[u16; 256], to: &mut [u16; 256])
    ensures { to.new ≡ (if wanted then from.now else to.old) }
{
    if wanted {
        *to = *from;
    }
}

// A copy of the n words from `at` on.
fn lift(out: &[u32], at: usize, n: usize) -> [u32; LIST_WORDS]
    requires { (n ≤ 515) × (at + n ≤ length out.now) }
    ensures { take n result ≡ take n (drop at out.now) }
{
    let mut kept = [0u32; LIST_WORDS];
    wire::copy(&mut kept, 0, &out[at..at + n]);
    kept
}

// The n words from `at` on are handed back, and are 0 then.
pub fn set_aside(out: &mut [u32], at: usize, n: usize) -> [u32; LIST_WORDS]
    requires { (n ≤ 515) × (at + n ≤ length out.old) }
    ensures { Aside out.old at n out.new result }
{
    let kept = lift(out, at, n);
    wire::fill(out, at, n, 0);
    kept
}

// The n words from `at` on move by one, behind the 1 of an optional value that is present.
pub fn shift(out: &mut [u32], at: usize, n: usize)
    requires { (n < 515) × (at + n < length out.old) }
    ensures { out.new ≡ sets out.old at (1 ∷ take n (drop at out.old)) }
{
    let kept = lift(out, at, n);
    out[at] = 1;
    wire::copy(out, at + 1, &kept[..n]);
}

// Which words of a choice stand: the first side's were set aside, the second's, `m` of them, are there.
#[tactic(auto, unfolding(crate::specs::Stored::settled))]
pub fn settle(
    out: &mut [u32],
    at: usize,
    number: u32,
    first: bool,
    kept: &[u32],
    n: usize,
    m: usize,
)
    requires { n ≤ length kept.now }
    ensures { out.new ≡ settled number first out.old at (take n kept.now) m }
{
    if number != 0 {
        wire::fill(out, at, m, 0);
        return;
    }
    if first {
        wire::fill(out, at, m, 0);
        wire::copy(out, at, &kept[..n]);
    }
}

// A list's count goes before the words of its values.
pub fn counted_list(all: Repeated, at: usize, out: &mut [u32]) -> Ran
    requires { (all.size ≤ 514) × (at < length out.old) }
    ensures { CountedList all out.old at out.new result }
{
    out[at] = all.count;
    eval_told::value(all.tries, all.size + 1, 0, all.numbers)
}
