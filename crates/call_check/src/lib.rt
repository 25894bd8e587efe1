// The entry points. None asks anything of its input: what is not well made is refused under its number.
#![tactic(auto)]

ghost use Rattle.std.specs.Prelude.{◌≡◌, ◌<◌, ◌^◌, length};
ghost use Rattle.std.proofs.Math.Option.{some};
ghost use Rattle.rules.specs.Outcome.{ok};
ghost use Rattle.rules.specs.Sheet.{sheet_fault};
ghost use Rattle.rules.specs.Accept.{check_form};
ghost use Rattle.rules.specs.Codes.{check_code, kind_code, place_of};
ghost use Rattle.rules.specs.Calls.{call_kind, call_portable, call_split, split_refused};
ghost use Rattle.rules.specs.Reported.{number_of, place_told};
ghost use Rattle.call_check.specs.Reader.{sheet_code, told, yes_code, splitting_of, SplitAnswers, told_of, SmallPlace, Tells, Admits};

use call_answers::yes_no;
use rules::{Refusal, Refused, RefusedAt, State};
use split_arg::ITEM_WORDS;
use split_args::Ended;

// An answer that is a number: refused, it is 0 and the refusal stands beside it. A place is itself plus 1, or 0 for none.
#[repr(C)]
#[derive(Clone, Copy)]
pub struct Told {
    pub number: u32,
    pub place: u32,
    pub answer: u32,
}

// How splitting ended, and the state that the items start in.
#[repr(C)]
#[derive(Clone, Copy)]
pub struct SplitAnswer {
    pub number: u32,
    pub place: u32,
    pub state: State,
}

// Whether a form is accepted: 1 to 4 if not, with the record or node at fault.
pub fn form_check(form: &[u8]) -> Refused
    ensures { result ≡ check_code (check_form form.now) }
{
    match form_check::check(form) {
        Ok(()) => Refused {
            number: 0,
            place: 0,
        },
        Err(e) => e.told(),
    }
}

// Whether a sheet is well made: 5 or 6 if not.
pub fn sheet_check(sheet: &[u8]) -> Refused
    ensures { result ≡ sheet_code (sheet_fault sheet.now) }
{
    let number = match split_sheet::check(sheet) {
        Ok(()) => 0,
        Err(e) => e.number(),
    };
    Refused { number, place: 0 }
}

fn answered(answer: Result<u32, RefusedAt>) -> Told
    requires { SmallPlace answer }
    ensures { result ≡ told_of answer }
{
    match answer {
        Ok(answer) => Told {
            number: 0,
            place: 0,
            answer,
        },
        Err(e) => {
            let r = e.told();
            Told {
                number: r.number,
                place: r.place,
                answer: 0,
            }
        }
    }
}

fn kind_number(form: &[u8], node: usize) -> Result<u32, RefusedAt>
    ensures { Tells (told kind_code (call_kind form.now node)) result }
{
    form_check::check(form)?;
    if form_layout::node_count(form) <= node {
        return Err(RefusedAt::from(Refusal::NotThere));
    }
    Ok(form_fields::kind(form, node))
}

// The kind of a node, by number.
pub fn kind(form: &[u8], node: usize) -> Told
    ensures { told kind_code (call_kind form.now node) ≡ some result }
{
    answered(kind_number(form, node))
}

fn portable_mark(form: &[u8]) -> Result<u32, RefusedAt>
    ensures { Tells (told yes_code (call_portable form.now)) result }
{
    form_check::check(form)?;
    Ok(yes_no(form_fields::is_portable(form)))
}

// The portable mark.
pub fn portable(form: &[u8]) -> Told
    ensures { told yes_code (call_portable form.now) ≡ some result }
{
    answered(portable_mark(form))
}

// Refused because of the input: all 0, and no items.
fn split_refused(e: RefusedAt, items: &mut [u32]) -> Ended
    requires { place_told e.place < 2 ^ 32 }
    ensures { SplitAnswers (ok (split_refused (length items.old) (number_of e.refusal) (place_of (place_told e.place)))) items.new result }
{
    wire::fill(items, 0, items.len(), 0);
    let r = e.told();
    Ended {
        number: r.number,
        place: r.place,
        count: 0,
        marker: 0,
    }
}

// The tests of the input: 1 to 4, then 6 and 5, then 7.
fn admit(form: &[u8], sheet: &[u8], items: &[u32]) -> Result<(), RefusedAt>
    ensures { Admits form.now sheet.now items.now result }
{
    form_check::check(form)?;
    split_sheet::check(sheet)?;
    if items.len() < ITEM_WORDS {
        return Err(RefusedAt::from(Refusal::ShortSlice));
    }
    Ok(())
}

// What the input is refused with, or its items.
fn split_input(form: &[u8], sheet: &[u8], items: &mut [u32]) -> Ended
    ensures { SplitAnswers (call_split form.now sheet.now (length items.old)) items.new result }
{
    if let Err(e) = admit(form, sheet, items) {
        return split_refused(e, items);
    }
    let codes = form_codes::codes_of(form);
    split_line::split(form, &codes, sheet, items)
}

// From a form and a sheet to items and a state.
pub fn split(form: &[u8], sheet: &[u8], items: &mut [u32]) -> SplitAnswer
    ensures { call_split form.now sheet.now (length items.old) ≡ ok (splitting_of result items.new) }
{
    let ended = split_input(form, sheet, items);
    let state = split_args::state_of(ended.count, ended.marker);
    SplitAnswer {
        number: ended.number,
        place: ended.place,
        state,
    }
}
