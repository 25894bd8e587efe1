// What a single call hands back: how it ended, and its answer in three numbers. Refused, the three are 0.
#![tactic(auto)]

ghost use Rattle.std.specs.Prelude.{◌≡◌, ◌≤◌, ◌<◌, ◌^◌};
ghost use Rattle.utf8.specs.Utf8.{decode_at};
ghost use Rattle.rules.specs.Reported.{number_of, place_told};
ghost use Rattle.call_answers.specs.Answers.{coded, yes_no, answer_with, state_with, decoding};

use rules::{Refusal, RefusedAt, State};

// From a call that leaves the state as it was. A place is itself plus 1, or 0 for none.
#[repr(C)]
#[derive(Clone, Copy)]
pub struct Answer {
    pub number: u32,
    pub place: u32,
    pub found: u32,
    pub first: u32,
    pub second: u32,
}

// From a call that changes the state. Refused, the state is the one that was given.
#[repr(C)]
#[derive(Clone, Copy)]
pub struct StateAnswer {
    pub number: u32,
    pub place: u32,
    pub found: u32,
    pub first: u32,
    pub second: u32,
    pub state: State,
}

// The character at a place. Where there is none, found is false and the numbers are 0.
#[repr(C)]
#[derive(Clone, Copy)]
pub struct Decoding {
    pub found: bool,
    pub character: u32,
    pub size: u32,
}

// Yes 1, no 0.
pub fn yes_no(b: bool) -> u32
    ensures { result ≡ yes_no b }
{
    if b {
        return 1;
    }
    0
}

// A place fits in a word.
pub fn narrow(x: usize) -> u32
    requires { x ≤ 256 }
    ensures { result ≡ x }
{
    x as u32
}

// Refused, with no place.
pub fn refused(e: Refusal) -> Answer
    ensures { result ≡ answer_with (number_of e) 0 (coded 0 0 0) }
{
    Answer {
        number: e.number(),
        place: 0,
        found: 0,
        first: 0,
        second: 0,
    }
}

// Refused at a place, if it has one.
pub fn refused_at(e: RefusedAt) -> Answer
    requires { place_told e.place < 2 ^ 32 }
    ensures { result ≡ answer_with (number_of e.refusal) (place_told e.place) (coded 0 0 0) }
{
    let r = e.told();
    Answer {
        number: r.number,
        place: r.place,
        found: 0,
        first: 0,
        second: 0,
    }
}

pub fn answered(found: u32, first: u32, second: u32) -> Answer
    ensures { result ≡ answer_with 0 0 (coded found first second) }
{
    Answer {
        number: 0,
        place: 0,
        found,
        first,
        second,
    }
}

// Refused with no place, with the state that was given.
pub fn unchanged(e: Refusal, s: State) -> StateAnswer
    ensures { result ≡ state_with (number_of e) 0 (coded 0 0 0) s }
{
    StateAnswer {
        number: e.number(),
        place: 0,
        found: 0,
        first: 0,
        second: 0,
        state: s,
    }
}

// Refused at a place, if it has one, with the state that was given.
pub fn unchanged_at(e: RefusedAt, s: State) -> StateAnswer
    requires { place_told e.place < 2 ^ 32 }
    ensures { result ≡ state_with (number_of e.refusal) (place_told e.place) (coded 0 0 0) s }
{
    let told = e.told();
    StateAnswer {
        number: told.number,
        place: told.place,
        found: 0,
        first: 0,
        second: 0,
        state: s,
    }
}

// Answered, with the state that is left.
pub fn changed(found: u32, first: u32, second: u32, s: State) -> StateAnswer
    ensures { result ≡ state_with 0 0 (coded found first second) s }
{
    StateAnswer {
        number: 0,
        place: 0,
        found,
        first,
        second,
        state: s,
    }
}

// The character of a text that begins at a byte.
pub fn decode(s: &[u8], at: usize) -> Decoding
    ensures { result ≡ decoding (decode_at s.now at) }
{
    let d = utf8::decode_at(s, at);
    match d {
        Some(c) => Decoding {
            found: true,
            character: c.value,
            size: c.size as u32,
        },
        None => Decoding {
            found: false,
            character: 0,
            size: 0,
        },
    }
}
