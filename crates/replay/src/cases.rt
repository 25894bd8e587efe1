// A case: a call by its number, what it is given, and what it must answer.
ghost use Rattle.std.specs.Prelude.{◌≡◌, true, cond, length};
ghost use Rattle.replay.specs.Words.{Stands};
ghost use Rattle.replay.specs.Cases.{utf8_words, check_words, SplitTold, WholeRunTold, StatesTold, ItemTold, AnswerTold};

use crate::words::Head;
use crate::{calls, words};
use eval_missing::MISSING_WORDS;
use run_fields::ANSWER_WORDS;
use split_arg::ITEM_WORDS;

// The slices that are lent to the calls. They are not 0, so that a word that is not written is seen.
fn item_slice() -> [u32; ITEM_WORDS]
    ensures { 1792 ≡ length result }
{
    [0xffff_ffff; ITEM_WORDS]
}

pub fn answer_slice() -> [u32; ANSWER_WORDS]
    ensures { 8240 ≡ length result }
{
    [0xffff_ffff; ANSWER_WORDS]
}

pub fn list_slice() -> [u32; MISSING_WORDS]
    ensures { 192 ≡ length result }
{
    [0xffff_ffff; MISSING_WORDS]
}

fn flag(yes: bool) -> u32
    ensures { result ≡ cond yes 1 0 }
{
    if yes { 1 } else { 0 }
}

// Whether the bytes are well-formed; whether there is a first character, its value and its size.
fn utf8(bytes: &[u8], numbers: &[u8]) -> bool
    ensures { result ≡ true → Stands numbers.now 0 (utf8_words bytes.now) }
{
    let valid = flag(utf8::valid(bytes));
    let first = utf8::decode_at(bytes, 0);
    match first {
        Some(c) => {
            let told = [valid, 1, c.value, c.size as u32];
            words::words_same(numbers, 0, &told)
        }
        None => {
            let told = [valid, 0, 0, 0];
            words::words_same(numbers, 0, &told)
        }
    }
}

// The number and the place of each of the two checks.
fn check(form: &[u8], sheet: &[u8], numbers: &[u8]) -> bool
    ensures { result ≡ true → Stands numbers.now 0 (check_words form.now sheet.now) }
{
    let f = call_check::form_check(form);
    let s = call_check::sheet_check(sheet);
    let told = [f.number, f.place, s.number, s.place];
    words::words_same(numbers, 0, &told)
}

// The answer, and the item slice.
fn split(form: &[u8], sheet: &[u8], numbers: &[u8], words: &[u8]) -> bool
    ensures { result ≡ true → SplitTold form.now sheet.now numbers.now words.now }
{
    let mut items = item_slice();
    let split = call_check::split(form, sheet, &mut items);
    let s = split.state;
    let told = [split.number, split.place, 0, 0, 0, 0, 0];
    words::answer_same(numbers, told, s) && words::words_same(words, 0, &items)
}

// The answer, and the answer slice.
fn run(form: &[u8], sheet: &[u8], numbers: &[u8], words: &[u8]) -> bool
    ensures { result ≡ true → WholeRunTold form.now sheet.now numbers.now words.now }
{
    let mut items = item_slice();
    let mut answers = answer_slice();
    let mut list = list_slice();
    let ran = run::run(form, sheet, &mut items, &mut answers, &mut list);
    let s = ran.state;
    let told = [ran.number, ran.place, ran.tries, ran.words, 0, 0, 0];
    words::answer_same(numbers, told, s) && words::words_same(words, 0, &answers)
}

// A call on the states that are given.
fn on_states(
    h: Head,
    form: &[u8],
    sheet: &[u8],
    items: &[u32],
    given: &[u8],
    second: &[u8],
    numbers: &[u8],
    words: &[u8],
) -> bool
    ensures { result ≡ true → StatesTold h form.now sheet.now items.now given.now second.now numbers.now words.now }
{
    let s = words::read_state(given);
    if !words::state_same(given, 0, s) {
        return false;
    }
    let t = words::read_state(second);
    if !words::state_same(second, 0, t) {
        return false;
    }
    calls::call(h, form, sheet, items, s, t, numbers, words)
}

// A call on the items of the sheet.
fn on_items<'a>(
    h: Head,
    form: &'a [u8],
    sheet: &'a [u8],
    given: &[u8],
    second: &[u8],
    numbers: &[u8],
    words: &[u8],
) -> bool
    ensures { result ≡ true → ItemTold h form.now sheet.now given.now second.now numbers.now words.now }
{
    let mut items = item_slice();
    call_check::split(form, sheet, &mut items);
    if h.call == 4 {
        return calls::text(form, sheet, &items, h.word, numbers, words);
    }
    on_states(h, form, sheet, &items, given, second, numbers, words)
}

// Whether the proved code answers as the case says.
pub fn same<'a>(
    h: Head,
    form: &'a [u8],
    sheet: &'a [u8],
    given: &[u8],
    second: &[u8],
    numbers: &[u8],
    words: &[u8],
) -> bool
    ensures { result ≡ true → AnswerTold h form.now sheet.now given.now second.now numbers.now words.now }
{
    let k = h.call;
    match k {
        0 => utf8(form, numbers),
        1 => check(form, sheet, numbers),
        2 => split(form, sheet, numbers, words),
        3 => run(form, sheet, numbers, words),
        _ => on_items(h, form, sheet, given, second, numbers, words),
    }
}
