// The entry points on states alone. None asks anything of its input: a state that is not good, where there may be 16 fields, is
// refused with 29, then a place, scope or field that is not there with 28.
#![tactic(auto)]

ghost use Rattle.std.specs.Prelude.{◌≡◌};
ghost use Rattle.std.proofs.Math.Option.{some, none};
ghost use Rattle.std.specs.Prelude.{if◌then◌else◌};
ghost use Rattle.rules.specs.Outcome.{ok, refused as refused_with, refuse};
ghost use Rattle.rules.specs.Calls.{from_raw};
ghost use Rattle.rules.specs.Calls.{call_remove, call_pick_winner, call_save_conflicts, call_set_scope, call_adjacent_scope, call_available_from};
ghost use Rattle.call_answers.specs.Answers.{yes_code, pick_code, scope_code, scope_or_none, answer_of, state_answer_of};
ghost use Rattle.call_state.specs.Entries.{both_in};

use call_answers::{Answer, StateAnswer, answered, changed, refused, unchanged, yes_no};
use rules::{Refusal, State};
use state_marks::{MOST_FIELDS, field_mark};

// Refusal 29: whether both states are good ones over the first's items.
fn both_good(s: State, t: State) -> bool
    ensures { both_in s t ≡ (if result then ok (from_raw t) else refused_with (refuse 29 none)) }
{
    let count = s.count as usize;
    state_marks::good(s, count, MOST_FIELDS) && state_marks::good(t, count, MOST_FIELDS)
}

// A place in scope that is present becomes used by a field, and the current one. 28 for no such place or field.
pub fn remove(s: State, place: usize, field: usize) -> StateAnswer
    ensures { state_answer_of yes_code (call_remove s place field) ≡ some result }
{
    if !state_marks::good(s, s.count as usize, MOST_FIELDS) {
        return unchanged(Refusal::BadState, s);
    }
    if s.count as usize <= place || MOST_FIELDS <= field {
        return unchanged(Refusal::NotThere, s);
    }
    changed(1, 0, 0, state_value::remove(s, place, field_mark(field)))
}

// Whether the first state wins, and the place that decides.
pub fn pick_winner(s: State, t: State) -> Answer
    ensures { answer_of pick_code (call_pick_winner s t) ≡ some result }
{
    if !both_good(s, t) {
        return refused(Refusal::BadState);
    }
    let picked = state_value::pick_winner(s, t);
    let place = match picked.place {
        Some(i) => i as u32 + 1,
        None => 0,
    };
    answered(yes_no(picked.first), place, 0)
}

// What the loser used and the winner did not is in conflict with place `winner`.
pub fn save_conflicts(s: State, loser: State, winner: usize) -> StateAnswer
    ensures { state_answer_of yes_code (call_save_conflicts s loser winner) ≡ some result }
{
    if !both_good(s, loser) {
        return unchanged(Refusal::BadState, s);
    }
    if s.count as usize <= winner {
        return unchanged(Refusal::NotThere, s);
    }
    changed(1, 0, 0, state_value::save_conflicts(s, loser, winner))
}

// The places from..to become the scope.
pub fn set_scope(s: State, from: usize, to: usize) -> StateAnswer
    ensures { state_answer_of yes_code (call_set_scope s from to) ≡ some result }
{
    let count = s.count as usize;
    if !state_marks::good(s, count, MOST_FIELDS) {
        return unchanged(Refusal::BadState, s);
    }
    if to < from || count < to {
        return unchanged(Refusal::NotThere, s);
    }
    changed(1, 0, 0, state_value::set_scope(s, from, to))
}

// From the scope's start up to the first place that is present here and in the original.
pub fn adjacent_scope(s: State, original: State) -> Answer
    ensures { answer_of scope_or_none (call_adjacent_scope s original) ≡ some result }
{
    if !both_good(s, original) {
        return refused(Refusal::BadState);
    }
    match state_value::adjacent_scope(s, original) {
        Some(scope) => answered(1, scope.start, scope.end),
        None => answered(0, 0, 0),
    }
}

// The present places from `from` on, up to the first that is used.
pub fn adjacently_available_from(s: State, from: usize) -> Answer
    ensures { answer_of scope_code (call_available_from s from) ≡ some result }
{
    let count = s.count as usize;
    if !state_marks::good(s, count, MOST_FIELDS) {
        return refused(Refusal::BadState);
    }
    if count < from {
        return refused(Refusal::NotThere);
    }
    let scope = state_value::adjacently_available_from(s, from);
    answered(1, scope.start, scope.end)
}
