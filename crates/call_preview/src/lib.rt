// What a take would do. Each preview makes the take on the state that it has by value, and finds the places that were used by
// comparing the marks before and after: at most two. It is refused as the take is, with no places.
#![tactic(auto)]

ghost use Rattle.std.specs.Prelude.{◌≡◌, ◌&&◌, ◌≤◌, ◌<◌, length, get_or, drop};
ghost use Rattle.std.proofs.Math.Option.{some};
ghost use Rattle.rules.specs.State.{parsed, present};
ghost use Rattle.rules_preview.specs.Preview.{used_from, used_between, preview_flag, preview_arg, preview_positional, preview_cmd};
ghost use Rattle.state_marks.specs.Lent.{first_or};
ghost use Rattle.call_answers.specs.Answers.{yes_code, taken_code, operand_code};
ghost use Rattle.call_preview.specs.Previews.{places_of, preview_with, preview_answer_of, Marks, FewUsed};

use call_answers::StateAnswer;
use rules::State;
use state_marks::{is_parsed, is_present};

// A state has so many marks.
const MARKS: usize = 256;

// How many places a take would use, and the two: each as itself, or 0 where there is none.
#[derive(Clone, Copy)]
pub struct Places {
    pub count: u32,
    pub lower: u32,
    pub upper: u32,
}

// The answer of the take, the places in the same way, and the state that would result.
#[repr(C)]
#[derive(Clone, Copy)]
pub struct PreviewAnswer {
    pub number: u32,
    pub place: u32,
    pub found: u32,
    pub first: u32,
    pub second: u32,
    pub places: u32,
    pub lower: u32,
    pub upper: u32,
    pub state: State,
}

// Whether a place was present before and is used after.
fn is_used(before: &[u16; 256], after: &[u16; 256], i: usize) -> bool
    requires { i < 256 }
    ensures { result ≡ (present (get_or before.now i 0) && parsed (get_or after.now i 0)) }
{
    is_present(before[i]) && is_parsed(after[i])
}

// The lowest such place from one on; 256 if there is none.
fn next_used(before: &[u16; 256], after: &[u16; 256], from: usize) -> usize
    requires { Marks before.now after.now × (from ≤ 256) }
    ensures { (result ≡ first_or 256 (used_from from (drop from before.now) (drop from after.now))) × (result ≤ 256) }
{
    for i in from..MARKS {
        if is_used(before, after, i) {
            return i;
        }
    }
    MARKS
}

// The places used between the marks before and those after.
fn places_between(before: &[u16; 256], after: &[u16; 256]) -> Places
    requires { Marks before.now after.now × (length (used_between before.now after.now) ≤ 2) }
    ensures { result ≡ places_of (used_between before.now after.now) }
{
    let lower = next_used(before, after, 0);
    if lower == MARKS {
        return Places {
            count: 0,
            lower: 0,
            upper: 0,
        };
    }
    let upper = next_used(before, after, lower + 1);
    if upper == MARKS {
        return Places {
            count: 1,
            lower: lower as u32,
            upper: 0,
        };
    }
    Places {
        count: 2,
        lower: lower as u32,
        upper: upper as u32,
    }
}

// A take's answer, with the places that it used of the state that it was given.
fn shown(s: State, taken: StateAnswer) -> PreviewAnswer
    requires { FewUsed s taken }
    ensures { result ≡ preview_with s.marks taken }
{
    let left = taken.state;
    let used = places_between(&s.marks, &left.marks);
    PreviewAnswer {
        number: taken.number,
        place: taken.place,
        found: taken.found,
        first: taken.first,
        second: taken.second,
        places: used.count,
        lower: used.lower,
        upper: used.upper,
        state: left,
    }
}

// The four previews. One generic function would be no plainer: each passes its take the arguments that this take has.

// What `take_flag` would do.
pub fn preview_flag(
    form: &[u8],
    sheet: &[u8],
    items: &[u32],
    s: State,
    node: usize,
    field: usize,
) -> PreviewAnswer
    ensures { preview_answer_of yes_code (preview_flag form.now sheet.now items.now s node field) ≡ some result }
{
    shown(s, call_form::take_flag(form, sheet, items, s, node, field))
}

// What `take_arg` would do.
pub fn preview_arg(
    form: &[u8],
    sheet: &[u8],
    items: &[u32],
    s: State,
    node: usize,
    field: usize,
) -> PreviewAnswer
    ensures { preview_answer_of taken_code (preview_arg form.now sheet.now items.now s node field) ≡ some result }
{
    shown(s, call_form::take_arg(form, sheet, items, s, node, field))
}

// What `take_positional_word` would do.
pub fn preview_positional_word(sheet: &[u8], items: &[u32], s: State, field: usize) -> PreviewAnswer
    ensures { preview_answer_of operand_code (preview_positional sheet.now items.now s field) ≡ some result }
{
    shown(s, call_item::take_positional_word(sheet, items, s, field))
}

// What `take_cmd` would do. A command that is not taken is no refusal: `current` is then cleared.
pub fn preview_cmd(
    form: &[u8],
    sheet: &[u8],
    items: &[u32],
    s: State,
    record: usize,
) -> PreviewAnswer
    ensures { preview_answer_of yes_code (preview_cmd form.now sheet.now items.now s «record») ≡ some result }
{
    shown(s, call_form::take_cmd(form, sheet, items, s, record))
}
