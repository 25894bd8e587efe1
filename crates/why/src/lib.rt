// Why a place was left over: the run, and where it ends in 27 the reason for a place that is present.
#![tactic(auto)]

ghost use Rattle.std.specs.Prelude.{◌≡◌, length};
ghost use Rattle.std.proofs.Math.Option.{some};
ghost use Rattle.rules.specs.Why.{refused_before, why as why_of};
ghost use Rattle.why.specs.Explained.{left_in, unexplained, why_answer};

use rules::{Refusal, State};
use state_marks::is_present;

// The number and place of a refusal, or a reason from 1 on. The detail is a place plus 1, or a character.
#[repr(C)]
#[derive(Clone, Copy)]
pub struct WhyAnswer {
    pub number: u32,
    pub place: u32,
    pub reason: u32,
    pub detail: u32,
}

// Refused as the run: 1 to 9, and 14.
#[tactic(auto, unfolding(rules::specs::Why::refused_before))]
fn refused_before(number: u32) -> bool
    ensures { result ≡ refused_before number }
{
    matches!(number, 1..=9 | 14)
}

fn refused(number: u32, place: u32) -> WhyAnswer
    ensures { result ≡ unexplained number place }
{
    WhyAnswer {
        number,
        place,
        reason: 0,
        detail: 0,
    }
}

// Whether a run that ended under this number left the place over.
#[tactic(auto, unfolding(crate::specs::Explained::left_in))]
fn is_left(number: u32, s: State, place: usize) -> bool
    ensures { result ≡ left_in number s place }
{
    number == Refusal::LeftOver.number()
        && place < s.count as usize
        && place < s.marks.len()
        && is_present(s.marks[place])
}

// A form, a sheet and a place: the run, with what it leaves in the slices, and the reason. 28 where there is no such place, it is used,
// or the run did not end in 27.
pub fn why(
    form: &[u8],
    sheet: &[u8],
    place: usize,
    items: &mut [u32],
    answers: &mut [u32],
    list: &mut [u32],
) -> WhyAnswer
    ensures { why_answer (why_of form.now sheet.now place (length items.old) (length answers.old) (length list.old)) ≡ some (record { answer = result; items = items.new; answers = answers.new; list = list.new }) }
{
    let ran = run::run(form, sheet, items, answers, list);
    if refused_before(ran.number) {
        return refused(ran.number, ran.place);
    }
    let s = ran.state;
    if !is_left(ran.number, s, place) {
        return refused(Refusal::NotThere.number(), 0);
    }
    let found = why_reason::find_reason(form, sheet, items, &s.marks, place);
    WhyAnswer {
        number: 0,
        place: 0,
        reason: found.kind.number(),
        detail: found.detail,
    }
}
