// The run: from a form and a sheet to values or a refusal. It asks nothing of its input.
#![tactic(auto)]

ghost use Rattle.std.specs.Prelude.{◌≡◌, ◌≤◌, ◌<◌, ◌^◌, length, replicate};
ghost use Rattle.std.proofs.Math.Option.{some};
ghost use Rattle.rules.specs.Outcome.{ok};
ghost use Rattle.rules.specs.Sheet.{sheet_area};
ghost use Rattle.rules.specs.Accept.{Accepted, accepted, check_form};
ghost use Rattle.rules.specs.Run.{refused_input};
ghost use Rattle.rules.specs.Run as Run;
ghost use Rattle.rules.specs.Codes.{place_of};
ghost use Rattle.rules.specs.Reported.{place_told, told, tested, reported};
ghost use Rattle.split_args.specs.Construct.{Unmarked};
ghost use Rattle.run_fields.specs.Line.{Starts};
ghost use Rattle.run.specs.Runner.{run_answer, ended, answer_of, CheckedInput, AfterSplit, InputTested, LineTested, ItemsBegin, RunsListed};

use eval_missing::{MISSING, MISSING_WORDS};
use eval_told::Line;
use rules::{Refusal, RefusedAt};
use run_fields::{ANSWER_WORDS, Reached, RunAnswer};
use split_arg::ITEM_WORDS;
use split_args::Ended;
use state_marks::Numbers;

// The words of a table for a line with fewer items than this.
const FEW_WORDS: usize = 32;

// Refused because of the input: all three slices all 0, an empty state.
pub fn refused_input(
    number: u32,
    place: u32,
    items: &mut [u32],
    answers: &mut [u32],
    list: &mut [u32],
) -> Reached
    ensures { run_answer (ok (refused_input (length items.old) (length answers.old) (length list.old) number (place_of place))) ≡ ended (answer_of result (replicate 256 0)) items.new answers.new list.new }
{
    wire::fill(items, 0, items.len(), 0);
    wire::fill(answers, 0, answers.len(), 0);
    wire::fill(list, 0, list.len(), 0);
    let none = Numbers {
        count: 0,
        remaining: 0,
        current: 0,
        start: 0,
        end: 0,
    };
    run_fields::refused(number, place, 0, 0, none)
}

// The same of a refusal by name.
pub fn refuse_input(
    fault: RefusedAt,
    items: &mut [u32],
    answers: &mut [u32],
    list: &mut [u32],
) -> Reached
    requires { place_told fault.place < 2 ^ 32 }
    ensures { run_answer (ok (refused_input (length items.old) (length answers.old) (length list.old) (told fault).number (place_of (told fault).place))) ≡ ended (answer_of result (replicate 256 0)) items.new answers.new list.new }
{
    let answer = fault.told();
    refused_input(answer.number, answer.place, items, answers, list)
}

// The fields over the table of which nodes each item matches. Refused with 20, the list tells what the refused field lacks.
fn run_known(
    line: &Line,
    marks: &mut [u16; 256],
    p: Numbers,
    first: usize,
    answers: &mut [u32],
    list: &mut [u32],
) -> Reached
    requires { Starts line.now.form.now line.now.known.now line.now.sheet.now line.now.items.now marks.old p first answers.old × (192 ≤ length list.old) }
    ensures { (a : Accepted) → check_form line.now.form.now ≡ accepted a → RunsListed (sheet_area line.now.sheet.now) line.now.items.now first a.fields marks.old p marks.new answers.old answers.new list.old list.new result }
{
    let all = run_fields::run_fields(line, marks, p, first, answers);
    if all.number == MISSING {
        let node = form_layout::field_at(line.form, all.field);
        let mark = state_marks::field_mark(first + all.field);
        eval_missing::list_missing(line, marks, all.numbers, node, list, mark);
    }
    all
}

// The fields of a form, of which the first has number `first`, on items in a state, whose numbers tell the scope. Which nodes each
// item matches is worked out once, before the first field, in a table that is short if the line is.
pub fn run_items(
    form: &[u8],
    codes: &[u32],
    sheet: &[u8],
    items: &[u32],
    marks: &mut [u16; 256],
    p: Numbers,
    first: usize,
    answers: &mut [u32],
    list: &mut [u32],
) -> Reached
    requires { ItemsBegin form.now codes.now sheet.now items.now marks.old p first answers.old list.old }
    ensures { (a : Accepted) → check_form form.now ≡ accepted a → RunsListed (sheet_area sheet.now) items.now first a.fields marks.old p marks.new answers.old answers.new list.old list.new result }
{
    let count = p.count as usize;
    if count < FEW_WORDS {
        let mut few = [0u64; FEW_WORDS]; // 256 bytes to clear, not 2,056
        take_table::known(form, codes, sheet, items, count, &mut few);
        let line = Line {
            form,
            known: &few,
            sheet,
            items,
        };
        return run_known(&line, marks, p, first, answers, list);
    }
    let mut known = run_fields::nothing_known();
    take_table::known(form, codes, sheet, items, count, &mut known);
    let line = Line {
        form,
        known: &known,
        sheet,
        items,
    };
    run_known(&line, marks, p, first, answers, list)
}

// A line that was split, over marks, an answer slice and a list that are 0: splitting's refusal, or the fields on the state that the
// items start in.
pub fn run_split(
    form: &[u8],
    codes: &[u32],
    sheet: &[u8],
    items: &[u32],
    answers: &mut [u32],
    list: &mut [u32],
    marks: &mut [u16; 256],
    split: Ended,
) -> Reached
    requires { AfterSplit form.now codes.now sheet.now items.now answers.old list.old marks.old split }
    ensures { run_answer (Run.run form.now sheet.now (length items.now) (length answers.old) (length list.old)) ≡ ended (answer_of result marks.new) items.now answers.new list.new }
{
    let p = split_args::begin(split.count, split.marker, marks);
    if split.number != 0 {
        return run_fields::refused(split.number, split.place, 0, 0, p);
    }
    run_items(form, codes, sheet, items, marks, p, 0, answers, list)
}

// An accepted form, a checked sheet, and room in the slices: the items, then the fields.
fn run_checked(
    form: &[u8],
    sheet: &[u8],
    items: &mut [u32],
    answers: &mut [u32],
    list: &mut [u32],
    marks: &mut [u16; 256],
) -> Reached
    requires { CheckedInput form.now sheet.now items.old answers.old list.old × Unmarked marks.old }
    ensures { run_answer (Run.run form.now sheet.now (length items.old) (length answers.old) (length list.old)) ≡ ended (answer_of result marks.new) items.new answers.new list.new }
{
    wire::fill(answers, 0, answers.len(), 0);
    wire::fill(list, 0, list.len(), 0);
    let mut codes = form_codes::no_codes();
    form_codes::codes(form, &mut codes);
    let split = split_line::split(form, &codes, sheet, items);
    run_split(form, &codes, sheet, items, answers, list, marks, split)
}

// The refusals of a sheet, then of slices of these lengths, and then of such a list.
pub fn line_fault(sheet: &[u8], items: usize, answers: usize, list: usize) -> Result<(), Refusal>
    ensures { LineTested sheet.now items answers list (tested result) }
{
    split_sheet::check(sheet)?;
    if items < ITEM_WORDS || answers < ANSWER_WORDS {
        return Err(Refusal::ShortSlice);
    }
    if list < MISSING_WORDS {
        return Err(Refusal::ShortList);
    }
    Ok(())
}

// The form's refusals before those of the line.
fn input_fault(
    form: &[u8],
    sheet: &[u8],
    items: usize,
    answers: usize,
    list: usize,
) -> Result<(), RefusedAt>
    ensures { InputTested form.now sheet.now items answers list (reported result) }
{
    form_check::check(form)?;
    line_fault(sheet, items, answers, list)?;
    Ok(())
}

// The run over marks that are 0.
pub fn run_input(
    form: &[u8],
    sheet: &[u8],
    items: &mut [u32],
    answers: &mut [u32],
    list: &mut [u32],
    marks: &mut [u16; 256],
) -> Reached
    requires { Unmarked marks.old }
    ensures { run_answer (Run.run form.now sheet.now (length items.old) (length answers.old) (length list.old)) ≡ ended (answer_of result marks.new) items.new answers.new list.new }
{
    match input_fault(form, sheet, items.len(), answers.len(), list.len()) {
        Ok(()) => run_checked(form, sheet, items, answers, list, marks),
        Err(fault) => refuse_input(fault, items, answers, list),
    }
}

// A form and a sheet, to items, answer words, a list of what is missing, and a state. The state is put together once, here.
pub fn run(
    form: &[u8],
    sheet: &[u8],
    items: &mut [u32],
    answers: &mut [u32],
    list: &mut [u32],
) -> RunAnswer
    ensures { run_answer (Run.run form.now sheet.now (length items.old) (length answers.old) (length list.old)) ≡ some (record { answer = result; items = items.new; answers = answers.new; list = list.new }) }
{
    let mut marks = split_args::unmarked();
    let all = run_input(form, sheet, items, answers, list, &mut marks);
    RunAnswer {
        number: all.number,
        place: all.place,
        tries: all.tries,
        words: all.words,
        state: state_marks::joined(marks, all.numbers),
    }
}
