// The entry points on items, a state and a place. None asks anything of its input: what is not well made is refused under its
// number, a state that is not good, where there may be 16 fields, with 29, then a place or field that is not there with 28.
#![tactic(auto)]

ghost use Rattle.std.specs.Prelude.{◌≡◌, ◌+◌, ◌*◌, ◌≤◌, length};
ghost use Rattle.std.proofs.Math.Option.{some};
ghost use Rattle.rules.specs.Calls.{call_conflict, call_take_positional, call_only_once};
ghost use Rattle.split_arg.specs.Items.{record_at};
ghost use Rattle.call_answers.specs.Answers.{answer_of, state_answer_of, plain_answer, conflict_code, operand_code, place_or_none};
ghost use Rattle.rules.specs.Reported.{number_of};
ghost use Rattle.call_item.specs.Calls.{free_at, Gets, nothing_got};

use call_answers::{Answer, StateAnswer, answered, changed, refused, unchanged, yes_no};
use rules::{Refusal, State};
use state_marks::{MOST_FIELDS, field_mark, is_present, joined, numbers_of};

// The record of the item that was found, or all 0.
#[repr(C)]
#[derive(Clone, Copy)]
pub struct Got {
    pub number: u32,
    pub place: u32,
    pub item: [u32; 7],
}

// The first present place in scope and its winner, if it is in conflict.
pub fn conflict(sheet: &[u8], items: &[u32], s: State) -> Answer
    ensures { answer_of conflict_code (call_conflict sheet.now items.now s) ≡ some result }
{
    if let Err(e) = call_table::given_state(sheet, items, s, MOST_FIELDS) {
        return refused(e);
    }
    match state_value::conflict(s) {
        Some(c) => answered(1, c.place, c.winner),
        None => answered(0, 0, 0),
    }
}

// A positional: a field uses the first present Word or PosWord in scope. 28 for no such field; 20 if there is no such word.
pub fn take_positional_word(sheet: &[u8], items: &[u32], s: State, field: usize) -> StateAnswer
    ensures { state_answer_of operand_code (call_take_positional sheet.now items.now s field) ≡ some result }
{
    if let Err(e) = call_table::given_state(sheet, items, s, MOST_FIELDS) {
        return unchanged(e, s);
    }
    if MOST_FIELDS <= field {
        return unchanged(Refusal::NotThere, s);
    }
    let mut marks = s.marks;
    let taken = take::take_positional_word(items, &mut marks, numbers_of(s), field_mark(field));
    let Some(word) = taken.operand else {
        return unchanged(Refusal::Missing, s);
    };
    changed(
        1,
        word.place as u32,
        yes_no(word.strict),
        joined(marks, taken.numbers),
    )
}

// The nearest earlier place with the same name as this one. A place that 32 bits do not hold is none.
pub fn only_once(sheet: &[u8], items: &[u32], place: usize) -> Answer
    ensures { plain_answer place_or_none (call_only_once sheet.now items.now place) ≡ some result }
{
    let count = match call_table::given(sheet, items) {
        Ok(count) => count,
        Err(e) => return refused(e),
    };
    if count <= place || 0xffff_ffff < place {
        return refused(Refusal::NotThere);
    }
    let found = take_once::earlier(sheet, items, place);
    if found == 0 {
        return answered(0, 0, 0);
    }
    answered(1, found as u32 - 1, 0)
}

// Refused: no item.
fn nothing(e: Refusal) -> Got
    ensures { result ≡ nothing_got (number_of e) }
{
    Got {
        number: e.number(),
        place: 0,
        item: [0u32; 7],
    }
}

// The seven words of record i.
fn record_words(items: &[u32], i: usize) -> [u32; 7]
    requires { 7 * i + 7 ≤ length items.now }
    ensures { result ≡ record_at items.now i }
{
    let at = 7 * i;
    [
        items[at],
        items[at + 1],
        items[at + 2],
        items[at + 3],
        items[at + 4],
        items[at + 5],
        items[at + 6],
    ]
}

// Whether a place is in scope and present.
#[tactic(auto, unfolding(crate::specs::Calls::free_at))]
fn is_free(s: State, i: usize) -> bool
    requires { s.end ≤ 256 }
    ensures { result ≡ free_at s i }
{
    s.start as usize <= i && i < s.end as usize && is_present(s.marks[i])
}

// The item at a place that is in scope and present.
pub fn get(sheet: &[u8], items: &[u32], s: State, place: usize) -> Got
    ensures { Gets sheet.now items.now s place result }
{
    if let Err(e) = call_table::given_state(sheet, items, s, MOST_FIELDS) {
        return nothing(e);
    }
    if s.count as usize <= place {
        return nothing(Refusal::NotThere);
    }
    let item = if is_free(s, place) {
        record_words(items, place)
    } else {
        [0u32; 7]
    };
    Got {
        number: 0,
        place: 0,
        item,
    }
}
