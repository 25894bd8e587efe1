// The entry points with a form, items and a state. None asks anything of its input: what is not well made is refused under its
// number, a state that is not good for the form's number of fields with 29, and then 28 where the form has no such node, name or
// field, or the items no such place.
#![tactic(auto)]

ghost use Rattle.std.specs.Prelude.{◌≡◌, true, ℕ, ◌+◌, ◌≤◌};
ghost use Rattle.std.proofs.Math.Option.{some};
ghost use Rattle.rules.specs.Base.{is_some};
ghost use Rattle.rules.specs.Form.{name_count};
ghost use Rattle.rules.specs.Accept.{Accepted, accepted, check_form};
ghost use Rattle.rules.specs.State.{command_mark, parsed};
ghost use Rattle.rules.specs.Take.{matches_arg, take_flag, take_arg, take_cmd};
ghost use Rattle.rules.specs.Calls.{from_raw, call_matches, call_take_flag, call_take_arg, call_take_cmd};
ghost use Rattle.form_layout.specs.Layout.{GoodNames};
ghost use Rattle.take_search.specs.Search.{HasItem};
ghost use Rattle.call_answers.specs.Answers.{yes_code, taken_code, answer_of, state_answer_of};
ghost use Rattle.call_table.specs.Given.{HasState};
ghost use Rattle.call_form.specs.Given.{HasForm, Tests};
ghost use Rattle.call_form.specs.Keys.{key_names, no_key, Keyed, command_at};
ghost use Rattle.call_form.specs.Answered.{SmallValue, value_answer, TakeAnswer, TestAnswer};

use call_answers::{
    Answer, StateAnswer, answered, changed, narrow, refused, refused_at, unchanged, unchanged_at,
    yes_no,
};
use form_codes::codes_of;
use form_layout::Kind;
use rules::{Refusal, RefusedAt, State};
use state_marks::{COMMAND, field_mark, joined, numbers_of};
use take::{NoArgument, Word};
use take_search::Names;

// What a node looks for. Kind 1 is a flag, 2 an argument, 0 neither.
#[derive(Clone, Copy)]
pub struct Key {
    pub kind: u32,
    pub names: Names,
}

// The tests of the input, in the order of the numbers: 1 to 4, then 6, 5, 7, 30 and 29, for the fields of the form.
fn given(form: &[u8], sheet: &[u8], items: &[u32], s: State) -> Result<(), RefusedAt>
    ensures { Tests form.now sheet.now items.now s result }
{
    form_check::check(form)?;
    let fields = form_layout::field_count(form);
    call_table::given_state(sheet, items, s, fields)?;
    Ok(())
}

pub fn no_key() -> Key
    ensures { result ≡ no_key }
{
    let names = Names {
        first: 0,
        count: 0,
        adjacent: false,
    };
    Key { kind: 0, names }
}

// The names of node k, if it is a flag or an argument.
pub fn key_at(form: &[u8], k: usize) -> Key
    requires { (a : Accepted) × (check_form form.now ≡ accepted a) }
    ensures { Keyed form.now k result }
{
    if form_layout::node_count(form) <= k {
        return no_key();
    }
    let x = form_layout::node_at(form, k);
    match x.kind {
        Kind::Flag => Key {
            kind: 1,
            names: Names {
                first: x.p,
                count: x.q,
                adjacent: false,
            },
        },
        Kind::Argument => Key {
            kind: 2,
            names: Names {
                first: x.p,
                count: x.q,
                adjacent: x.r % 2 == 1,
            },
        },
        _ => no_key(),
    }
}

// Whether name record k is short or long.
fn is_command(form: &[u8], k: usize) -> bool
    requires { (a : Accepted) × (check_form form.now ≡ accepted a) }
    ensures { result ≡ is_some (command_at form.now k) }
{
    k < form_layout::name_count(form) && form_layout::name_at(form, k).kind <= 1
}

// Whether item i has one of the names.
fn matched(form: &[u8], sheet: &[u8], items: &[u32], i: usize, key: Key) -> Answer
    requires { GoodNames form.now × (key.names.first + key.names.count ≤ name_count form.now) × HasItem sheet.now items.now i }
    ensures { TestAnswer sheet.now items.now i (matches_arg (key_names form.now key) key.names.adjacent) result }
{
    let codes = codes_of(form);
    let found = take_search::matches(form, &codes, sheet, items, i, key.names);
    answered(yes_no(found), 0, 0)
}

fn flag_taken(
    form: &[u8],
    sheet: &[u8],
    items: &[u32],
    s: State,
    key: Key,
    mark: u16,
) -> StateAnswer
    requires { HasForm form.now sheet.now items.now s × (key.names.first + key.names.count ≤ name_count form.now) × (parsed mark ≡ true) }
    ensures { TakeAnswer yes_code sheet.now items.now s (λ is. take_flag mark is (key_names form.now key) (from_raw s)) result }
{
    let codes = codes_of(form);
    let mut marks = s.marks;
    let taken = take::take_flag(
        form,
        &codes,
        sheet,
        items,
        &mut marks,
        numbers_of(s),
        key.names.first,
        key.names.count,
        mark,
    );
    changed(yes_no(taken.found), 0, 0, joined(marks, taken.numbers))
}

// What is told of a value, with the state that is left. Refused with 22, the place is the key's, and the state is the one that
// was given.
fn value_answer(value: Result<Option<Word>, NoArgument>, left: State, s: State) -> StateAnswer
    requires { SmallValue value }
    ensures { result ≡ value_answer value left s }
{
    match value {
        Ok(None) => changed(0, 0, 0, left),
        Ok(Some(word)) => changed(1, narrow(word.place), 0, left),
        Err(e) => unchanged_at(RefusedAt::at(Refusal::NoArgument, e.key), s),
    }
}

fn arg_taken(form: &[u8], sheet: &[u8], items: &[u32], s: State, key: Key, mark: u16) -> StateAnswer
    requires { HasForm form.now sheet.now items.now s × (key.names.first + key.names.count ≤ name_count form.now) × (parsed mark ≡ true) }
    ensures { TakeAnswer taken_code sheet.now items.now s (λ is. take_arg mark is (key_names form.now key) key.names.adjacent (from_raw s)) result }
{
    let codes = codes_of(form);
    let mut marks = s.marks;
    let taken = take::take_arg(
        form,
        &codes,
        sheet,
        items,
        &mut marks,
        numbers_of(s),
        key.names,
        mark,
    );
    value_answer(taken.value, joined(marks, taken.numbers), s)
}

fn cmd_taken(sheet: &[u8], items: &[u32], s: State, word: &[u8]) -> StateAnswer
    requires { (fields : ℕ) × HasState fields sheet.now items.now s }
    ensures { TakeAnswer yes_code sheet.now items.now s (λ is. take_cmd command_mark is word.now (from_raw s)) result }
{
    let mut marks = s.marks;
    let taken = take::take_cmd(sheet, items, &mut marks, numbers_of(s), word, COMMAND);
    changed(yes_no(taken.found), 0, 0, joined(marks, taken.numbers))
}

// Whether the item at a place has one of the names of a flag or an argument.
pub fn matches_arg(
    form: &[u8],
    sheet: &[u8],
    items: &[u32],
    s: State,
    node: usize,
    place: usize,
) -> Answer
    ensures { answer_of yes_code (call_matches form.now sheet.now items.now s node place) ≡ some result }
{
    if let Err(e) = given(form, sheet, items, s) {
        return refused_at(e);
    }
    let key = key_at(form, node);
    if key.kind == 0 || s.count as usize <= place {
        return refused(Refusal::NotThere);
    }
    matched(form, sheet, items, place, key)
}

// A flag: a field uses the first present item in scope that has one of its names. 28 for no such flag or field.
pub fn take_flag(
    form: &[u8],
    sheet: &[u8],
    items: &[u32],
    s: State,
    node: usize,
    field: usize,
) -> StateAnswer
    ensures { state_answer_of yes_code (call_take_flag form.now sheet.now items.now s node field) ≡ some result }
{
    if let Err(e) = given(form, sheet, items, s) {
        return unchanged_at(e, s);
    }
    let key = key_at(form, node);
    if key.kind != 1 || form_layout::field_count(form) <= field {
        return unchanged(Refusal::NotThere, s);
    }
    flag_taken(form, sheet, items, s, key, field_mark(field))
}

// An argument: a field uses its key, and the value behind it. 28 for no such argument or field.
pub fn take_arg(
    form: &[u8],
    sheet: &[u8],
    items: &[u32],
    s: State,
    node: usize,
    field: usize,
) -> StateAnswer
    ensures { state_answer_of taken_code (call_take_arg form.now sheet.now items.now s node field) ≡ some result }
{
    if let Err(e) = given(form, sheet, items, s) {
        return unchanged_at(e, s);
    }
    let key = key_at(form, node);
    if key.kind != 2 || form_layout::field_count(form) <= field {
        return unchanged(Refusal::NotThere, s);
    }
    arg_taken(form, sheet, items, s, key, field_mark(field))
}

// A command: the name of a record, which only the first present item in scope may be.
pub fn take_cmd(form: &[u8], sheet: &[u8], items: &[u32], s: State, record: usize) -> StateAnswer
    ensures { state_answer_of yes_code (call_take_cmd form.now sheet.now items.now s «record») ≡ some result }
{
    if let Err(e) = given(form, sheet, items, s) {
        return unchanged_at(e, s);
    }
    if !is_command(form, record) {
        return unchanged(Refusal::NotThere, s);
    }
    cmd_taken(sheet, items, s, form_layout::name_bytes(form, record))
}
