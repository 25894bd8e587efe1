// How the evaluation of a node ended, as numbers.
#![tactic(auto)]

ghost use Rattle.std.specs.Prelude.{◌≡◌, ◌+◌, ◌<◌};
ghost use Rattle.eval_told.specs.Results.{value_ran, refusal_ran, more_tries, written};

use state_marks::Numbers;

// What stays as it is while a line is run: the form, which of its nodes each item matches, and the items, with the sheet that they
// were split from.
#[derive(Clone, Copy)]
pub struct Line<'a> {
    pub form: &'a [u8],
    pub known: &'a [u64],
    pub sheet: &'a [u8],
    pub items: &'a [u32],
}

// Number 0 is a value, else it is the refusal's, with its place plus 1. `len` is how many words the value has. A value that is
// no list goes as one word, or as 1 and a word where it is optional and present; an absent one is the word 0. The words of a
// list stand in the answer slice. A refusal has no words.
#[derive(Clone, Copy)]
pub struct Ran {
    pub number: u32,
    pub place: u32,
    pub tries: u32,
    pub len: u32,
    pub word: u32,
    pub numbers: Numbers,
}

// A value of `len` words.
pub fn value(tries: u32, len: u32, word: u32, p: Numbers) -> Ran
    ensures { result ≡ value_ran tries len word p }
{
    Ran {
        number: 0,
        place: 0,
        tries,
        len,
        word,
        numbers: p,
    }
}

pub fn refusal(number: u32, place: u32, tries: u32, p: Numbers) -> Ran
    ensures { result ≡ refusal_ran number place tries p }
{
    Ran {
        number,
        place,
        tries,
        len: 0,
        word: 0,
        numbers: p,
    }
}

// The same result, behind other tries.
pub fn more_tries(ran: Ran, tries: u32) -> Ran
    requires { tries + ran.tries < 4294967296 }
    ensures { result ≡ more_tries ran tries }
{
    Ran {
        tries: tries + ran.tries,
        ..ran
    }
}

// The same result, whose `len` words are written.
pub fn wrote(ran: Ran, len: u32) -> Ran
    ensures { result ≡ written ran len }
{
    Ran {
        len,
        word: 0,
        ..ran
    }
}
