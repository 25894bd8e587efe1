// Calls that change a state where it lies. Each hands the state by value to the entry point of the same name, which tests its
// input, and stores the state that comes back. Refused, that is the state that was given.
#![tactic(auto)]

ghost use Rattle.std.specs.Prelude.{◌≡◌};
ghost use Rattle.std.proofs.Math.Option.{some};
ghost use Rattle.rules.specs.Calls.{call_remove, call_take_flag};
ghost use Rattle.call_answers.specs.Answers.{yes_code, state_answer_of};
ghost use Rattle.call_lent.specs.Joined.{answer_part, joined};

use call_answers::{Answer, StateAnswer};
use rules::State;

// An answer without its state.
fn answer_of(a: StateAnswer) -> Answer
    ensures { result ≡ answer_part a }
{
    Answer {
        number: a.number,
        place: a.place,
        found: a.found,
        first: a.first,
        second: a.second,
    }
}

// A place in scope that is present becomes used by a field, and the current one. 28 for no such place or field.
pub fn remove(s: &mut State, place: usize, field: usize) -> Answer
    ensures { state_answer_of yes_code (call_remove s.old place field) ≡ some (joined result s.new) }
{
    let removed = call_state::remove(*s, place, field);
    *s = removed.state;
    answer_of(removed)
}

// A flag: a field uses the first present item in scope that has one of its names. 28 for no such flag or field.
pub fn take_flag(
    s: &mut State,
    form: &[u8],
    sheet: &[u8],
    items: &[u32],
    node: usize,
    field: usize,
) -> Answer
    ensures { state_answer_of yes_code (call_take_flag form.now sheet.now items.now s.old node field) ≡ some (joined result s.new) }
{
    let taken = call_form::take_flag(form, sheet, items, *s, node, field);
    *s = taken.state;
    answer_of(taken)
}
