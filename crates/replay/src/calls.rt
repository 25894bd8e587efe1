// Single calls on a state and on the items of a sheet.
ghost use Rattle.std.specs.Prelude.{◌≡◌, true};
ghost use Rattle.std.proofs.Math.Option.{Option, some};
ghost use Rattle.call_answers.specs.declared.Answer.{Answer as AnswerOf};
ghost use Rattle.call_answers.specs.declared.StateAnswer.{StateAnswer as StateAnswerOf};
ghost use Rattle.replay.specs.Calls.{Leaves, Changes, GetTold, EvalTold, TextTold, CallTold};

use crate::words::Head;
use crate::{cases, words};
use call_answers::{Answer, StateAnswer};
use rules::State;

// A call that leaves the state as it was.
fn leaves(numbers: &[u8], a: Answer, s: State) -> bool
    ensures { result ≡ true → (o : Option AnswerOf) → o ≡ some a → Leaves numbers.now s o }
{
    let told = [a.number, a.place, 0, 0, a.found, a.first, a.second];
    words::answer_same(numbers, told, s)
}

// A call that changes the state.
fn changes(numbers: &[u8], a: StateAnswer) -> bool
    ensures { result ≡ true → (o : Option StateAnswerOf) → o ≡ some a → Changes numbers.now o }
{
    let left = a.state;
    let told = [a.number, a.place, 0, 0, a.found, a.first, a.second];
    words::answer_same(numbers, told, left)
}

fn get(sheet: &[u8], items: &[u32], s: State, place: usize, numbers: &[u8], words: &[u8]) -> bool
    ensures { result ≡ true → GetTold sheet.now items.now s place numbers.now words.now }
{
    let got = call_item::get(sheet, items, s, place);
    let told = [got.number, got.place, 0, 0, 0, 0, 0];
    words::answer_same(numbers, told, s) && words::words_same(words, 0, &got.item)
}

fn eval(
    form: &[u8],
    sheet: &[u8],
    items: &[u32],
    s: State,
    node: usize,
    numbers: &[u8],
    words: &[u8],
) -> bool
    ensures { result ≡ true → EvalTold form.now sheet.now items.now s node numbers.now words.now }
{
    let mut answers = cases::answer_slice();
    let mut list = cases::list_slice();
    let ran = call_node::eval(form, sheet, items, &mut answers, &mut list, s, node);
    let left = ran.state;
    let told = [ran.number, ran.place, ran.tries, ran.words, 0, 0, 0];
    words::answer_same(numbers, told, left) && words::words_same(words, 0, &answers)
}

pub fn text<'a>(
    form: &'a [u8],
    sheet: &'a [u8],
    items: &[u32],
    word: u32,
    numbers: &[u8],
    bytes: &[u8],
) -> bool
    ensures { result ≡ true → TextTold form.now sheet.now items.now word numbers.now bytes.now }
{
    let mut number = 0;
    let mut place = 0;
    let part = call_text::text(form, sheet, items, word, &mut number, &mut place);
    let told = [number, place];
    words::words_same(numbers, 0, &told) && check::same(bytes, part)
}

// The other calls, on a state or two, by number. A number of no call is of no case.
pub fn call(
    h: Head,
    form: &[u8],
    sheet: &[u8],
    items: &[u32],
    s: State,
    t: State,
    numbers: &[u8],
    words: &[u8],
) -> bool
    ensures { result ≡ true → CallTold h form.now sheet.now items.now s t numbers.now words.now }
{
    let k = h.call;
    match k {
        5 => eval(form, sheet, items, s, h.m, numbers, words),
        6 => get(sheet, items, s, h.m, numbers, words),
        7 => changes(numbers, call_state::remove(s, h.m, h.n)),
        8 => leaves(numbers, call_state::pick_winner(s, t), s),
        9 => changes(numbers, call_state::save_conflicts(s, t, h.m)),
        10 => changes(numbers, call_state::set_scope(s, h.m, h.n)),
        11 => leaves(numbers, call_state::adjacent_scope(s, t), s),
        12 => leaves(numbers, call_state::adjacently_available_from(s, h.m), s),
        13 => leaves(numbers, call_item::conflict(sheet, items, s), s),
        14 => changes(
            numbers,
            call_item::take_positional_word(sheet, items, s, h.m),
        ),
        15 => leaves(numbers, call_item::only_once(sheet, items, h.m), s),
        16 => leaves(
            numbers,
            call_form::matches_arg(form, sheet, items, s, h.m, h.n),
            s,
        ),
        17 => changes(
            numbers,
            call_form::take_flag(form, sheet, items, s, h.m, h.n),
        ),
        18 => changes(
            numbers,
            call_form::take_arg(form, sheet, items, s, h.m, h.n),
        ),
        19 => changes(numbers, call_form::take_cmd(form, sheet, items, s, h.m)),
        _ => false,
    }
}
