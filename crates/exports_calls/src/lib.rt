// The library for C and Rust: single calls on states, items, nodes and refusals, and the step through all short sheets. A slice is
// passed as two arguments, the pointer and the count.
#![tactic(auto)]

ghost use Rattle.std.specs.Prelude.{◌≡◌, length};
ghost use Rattle.std.proofs.Math.Option.{some, none};
ghost use Rattle.rules.specs.Outcome.{refuse, can_catch, wrong_input, combine_with};
ghost use Rattle.rules.specs.Calls.{call_remove, call_pick_winner, call_save_conflicts, call_set_scope, call_adjacent_scope, call_available_from};
ghost use Rattle.rules.specs.Calls.{call_conflict, call_take_positional, call_only_once};
ghost use Rattle.rules.specs.Calls.{call_matches, call_take_flag, call_take_arg, call_take_cmd};
ghost use Rattle.rules.specs.Calls.{call_eval};
ghost use Rattle.rules_preview.specs.Preview.{preview_flag, preview_arg, preview_positional, preview_cmd};
ghost use Rattle.eval_error.specs.Refusals.{refusal_of, refused_of};
ghost use Rattle.call_answers.specs.Answers.{answer_of, state_answer_of, plain_answer};
ghost use Rattle.call_answers.specs.Answers.{yes_code as done_code, pick_code, scope_code, scope_or_none, conflict_code, operand_code, place_or_none, taken_code};
ghost use Rattle.call_item.specs.Calls.{Gets};
ghost use Rattle.call_preview.specs.Previews.{preview_answer_of};
ghost use Rattle.call_lent.specs.Joined.{joined};
ghost use Rattle.call_find.specs.Records.{call_find};
ghost use Rattle.call_node.specs.Node.{evaluated_answer};
ghost use Rattle.rules_short.specs.Short.{next_sheet};
ghost use Rattle.short_sheets.specs.Answers.{Reports};

use call_answers::{Answer, StateAnswer};
use call_find::ItemRecord;
use call_item::Got;
use call_preview::PreviewAnswer;
use rules::{Refused, State};
use run_fields::RunAnswer;
use short_sheets::NextSheet;

#[unsafe(no_mangle)]
pub extern "C" fn silverpoise_remove(s: State, place: usize, field: usize) -> StateAnswer
    ensures { state_answer_of done_code (call_remove s place field) ≡ some result }
{
    call_state::remove(s, place, field)
}

#[unsafe(no_mangle)]
pub extern "C" fn silverpoise_pick_winner(s: State, t: State) -> Answer
    ensures { answer_of pick_code (call_pick_winner s t) ≡ some result }
{
    call_state::pick_winner(s, t)
}

#[unsafe(no_mangle)]
pub extern "C" fn silverpoise_save_conflicts(s: State, loser: State, winner: usize) -> StateAnswer
    ensures { state_answer_of done_code (call_save_conflicts s loser winner) ≡ some result }
{
    call_state::save_conflicts(s, loser, winner)
}

#[unsafe(no_mangle)]
pub extern "C" fn silverpoise_set_scope(s: State, from: usize, to: usize) -> StateAnswer
    ensures { state_answer_of done_code (call_set_scope s from to) ≡ some result }
{
    call_state::set_scope(s, from, to)
}

#[unsafe(no_mangle)]
pub extern "C" fn silverpoise_adjacent_scope(s: State, original: State) -> Answer
    ensures { answer_of scope_or_none (call_adjacent_scope s original) ≡ some result }
{
    call_state::adjacent_scope(s, original)
}

#[unsafe(no_mangle)]
pub extern "C" fn silverpoise_adjacently_available_from(s: State, from: usize) -> Answer
    ensures { answer_of scope_code (call_available_from s from) ≡ some result }
{
    call_state::adjacently_available_from(s, from)
}

#[unsafe(no_mangle)]
pub extern "C" fn silverpoise_can_catch(number: u32) -> bool
    ensures { result ≡ can_catch (refuse number none) }
{
    eval_error::can_catch(number)
}

#[unsafe(no_mangle)]
pub extern "C" fn silverpoise_wrong_input(number: u32) -> bool
    ensures { result ≡ wrong_input (refuse number none) }
{
    eval_error::wrong_input(number)
}

#[unsafe(no_mangle)]
pub extern "C" fn silverpoise_combine_with(a: Refused, b: Refused) -> Refused
    ensures { result ≡ refused_of (combine_with (refusal_of a) (refusal_of b)) }
{
    eval_error::combine_with(a, b)
}

#[unsafe(no_mangle)]
pub extern "C" fn silverpoise_conflict(sheet: &[u8], items: &[u32], s: State) -> Answer
    ensures { answer_of conflict_code (call_conflict sheet.now items.now s) ≡ some result }
{
    call_item::conflict(sheet, items, s)
}

#[unsafe(no_mangle)]
pub extern "C" fn silverpoise_take_positional_word(
    sheet: &[u8],
    items: &[u32],
    s: State,
    field: usize,
) -> StateAnswer
    ensures { state_answer_of operand_code (call_take_positional sheet.now items.now s field) ≡ some result }
{
    call_item::take_positional_word(sheet, items, s, field)
}

#[unsafe(no_mangle)]
pub extern "C" fn silverpoise_only_once(sheet: &[u8], items: &[u32], place: usize) -> Answer
    ensures { plain_answer place_or_none (call_only_once sheet.now items.now place) ≡ some result }
{
    call_item::only_once(sheet, items, place)
}

#[unsafe(no_mangle)]
pub extern "C" fn silverpoise_get(sheet: &[u8], items: &[u32], s: State, place: usize) -> Got
    ensures { Gets sheet.now items.now s place result }
{
    call_item::get(sheet, items, s, place)
}

#[unsafe(no_mangle)]
pub extern "C" fn silverpoise_matches_arg(
    form: &[u8],
    sheet: &[u8],
    items: &[u32],
    s: State,
    node: usize,
    place: usize,
) -> Answer
    ensures { answer_of done_code (call_matches form.now sheet.now items.now s node place) ≡ some result }
{
    call_form::matches_arg(form, sheet, items, s, node, place)
}

#[unsafe(no_mangle)]
pub extern "C" fn silverpoise_take_flag(
    form: &[u8],
    sheet: &[u8],
    items: &[u32],
    s: State,
    node: usize,
    field: usize,
) -> StateAnswer
    ensures { state_answer_of done_code (call_take_flag form.now sheet.now items.now s node field) ≡ some result }
{
    call_form::take_flag(form, sheet, items, s, node, field)
}

#[unsafe(no_mangle)]
pub extern "C" fn silverpoise_take_arg(
    form: &[u8],
    sheet: &[u8],
    items: &[u32],
    s: State,
    node: usize,
    field: usize,
) -> StateAnswer
    ensures { state_answer_of taken_code (call_take_arg form.now sheet.now items.now s node field) ≡ some result }
{
    call_form::take_arg(form, sheet, items, s, node, field)
}

#[unsafe(no_mangle)]
pub extern "C" fn silverpoise_take_cmd(
    form: &[u8],
    sheet: &[u8],
    items: &[u32],
    s: State,
    record: usize,
) -> StateAnswer
    ensures { state_answer_of done_code (call_take_cmd form.now sheet.now items.now s «record») ≡ some result }
{
    call_form::take_cmd(form, sheet, items, s, record)
}

#[unsafe(no_mangle)]
pub extern "C" fn silverpoise_preview_flag(
    form: &[u8],
    sheet: &[u8],
    items: &[u32],
    s: State,
    node: usize,
    field: usize,
) -> PreviewAnswer
    ensures { preview_answer_of done_code (preview_flag form.now sheet.now items.now s node field) ≡ some result }
{
    call_preview::preview_flag(form, sheet, items, s, node, field)
}

#[unsafe(no_mangle)]
pub extern "C" fn silverpoise_preview_arg(
    form: &[u8],
    sheet: &[u8],
    items: &[u32],
    s: State,
    node: usize,
    field: usize,
) -> PreviewAnswer
    ensures { preview_answer_of taken_code (preview_arg form.now sheet.now items.now s node field) ≡ some result }
{
    call_preview::preview_arg(form, sheet, items, s, node, field)
}

#[unsafe(no_mangle)]
pub extern "C" fn silverpoise_preview_positional_word(
    sheet: &[u8],
    items: &[u32],
    s: State,
    field: usize,
) -> PreviewAnswer
    ensures { preview_answer_of operand_code (preview_positional sheet.now items.now s field) ≡ some result }
{
    call_preview::preview_positional_word(sheet, items, s, field)
}

#[unsafe(no_mangle)]
pub extern "C" fn silverpoise_preview_cmd(
    form: &[u8],
    sheet: &[u8],
    items: &[u32],
    s: State,
    record: usize,
) -> PreviewAnswer
    ensures { preview_answer_of done_code (preview_cmd form.now sheet.now items.now s «record») ≡ some result }
{
    call_preview::preview_cmd(form, sheet, items, s, record)
}

#[unsafe(no_mangle)]
pub extern "C" fn silverpoise_eval(
    form: &[u8],
    sheet: &[u8],
    items: &[u32],
    answers: &mut [u32],
    list: &mut [u32],
    s: State,
    node: usize,
) -> RunAnswer
    ensures { evaluated_answer (call_eval form.now sheet.now items.now answers.old list.old s node) ≡ some (record { answer = result; answers = answers.new; list = list.new }) }
{
    call_node::eval(form, sheet, items, answers, list, s, node)
}

#[unsafe(no_mangle)]
pub extern "C" fn silverpoise_remove_in_place(s: &mut State, place: usize, field: usize) -> Answer
    ensures { state_answer_of done_code (call_remove s.old place field) ≡ some (joined result s.new) }
{
    call_lent::remove(s, place, field)
}

#[unsafe(no_mangle)]
pub extern "C" fn silverpoise_take_flag_in_place(
    s: &mut State,
    form: &[u8],
    sheet: &[u8],
    items: &[u32],
    node: usize,
    field: usize,
) -> Answer
    ensures { state_answer_of done_code (call_take_flag form.now sheet.now items.now s.old node field) ≡ some (joined result s.new) }
{
    call_lent::take_flag(s, form, sheet, items, node, field)
}

#[unsafe(no_mangle)]
pub extern "C" fn silverpoise_find(
    form: &[u8],
    sheet: &[u8],
    items: &[ItemRecord],
    s: State,
    node: usize,
) -> Answer
    ensures { plain_answer place_or_none (call_find form.now sheet.now items.now s node) ≡ some result }
{
    call_find::find(form, sheet, items, s, node)
}

// The short sheet behind this one, for whoever wants to see them all.
#[unsafe(no_mangle)]
pub extern "C" fn silverpoise_next_sheet(alphabet: &[u8], sheet: &[u8], out: &mut [u8]) -> NextSheet
    ensures { Reports (next_sheet alphabet.now sheet.now (length out.old)) result out.new }
{
    short_sheets::next_sheet(alphabet, sheet, out)
}
