// `eval` of one node of a form on a state, as an entry point.
#![tactic(auto)]

ghost use Rattle.std.specs.Prelude.{◌≡◌, true, ◌≤◌, ◌<◌, ◌^◌, length};
ghost use Rattle.std.proofs.Math.Option.{some};
ghost use Rattle.rules.specs.Sheet.{sheet_area, sheet_fault};
ghost use Rattle.rules.specs.Form.{read_form};
ghost use Rattle.rules.specs.Reported.{place_told, told};
ghost use Rattle.rules.specs.Accept.{length_good, field_of};
ghost use Rattle.rules.specs.State.{field_mark};
ghost use Rattle.rules.specs.Calls.{call_eval};
ghost use Rattle.form_layout.specs.Layout.{GoodNames};
ghost use Rattle.take_table.specs.Known.{Known};
ghost use Rattle.call_table.specs.Given.{Holds};
ghost use Rattle.call_node.specs.Node.{evaluated_answer, unchanged_by, answer_of, Admits, ClearedAnswers, Runs};

use eval_list::Field;
use eval_missing::{MISSING, MISSING_WORDS};
use eval_told::{Line, Ran};
use rules::{Refusal, RefusedAt, State};
use run_fields::{ANSWER_WORDS, RunAnswer};
use split_arg::ITEM_WORDS;
use take_table::TABLE_WORDS;

// Which nodes each of the items matches.
fn known_of(form: &[u8], sheet: &[u8], items: &[u32], count: usize) -> [u64; TABLE_WORDS]
    requires { GoodNames form.now × (sheet_fault sheet.now ≡ 0) × Holds (sheet_area sheet.now) items.now count × (count ≤ 256) }
    ensures { Known form.now (sheet_area sheet.now) items.now count result }
{
    let codes = form_codes::codes_of(form);
    let mut known = run_fields::nothing_known();
    take_table::known(form, &codes, sheet, items, count, &mut known);
    known
}

// Refusals 1 to 7, then 14, 30, 29 and 28, in this order.
fn admit(
    form: &[u8],
    sheet: &[u8],
    items: &[u32],
    answers: &[u32],
    list: &[u32],
    s: State,
    node: usize,
) -> Result<(), RefusedAt>
    ensures { Admits form.now sheet.now items.now answers.now list.now s node result }
{
    form_check::check(form)?;
    split_sheet::check(sheet)?;
    if items.len() < ITEM_WORDS || answers.len() < ANSWER_WORDS {
        return Err(RefusedAt::from(Refusal::ShortSlice));
    }
    if list.len() < MISSING_WORDS {
        return Err(RefusedAt::from(Refusal::ShortList));
    }
    let Some(count) = call_table::check(sheet, items) else {
        return Err(RefusedAt::from(Refusal::BadItem));
    };
    let fields = form_layout::field_count(form);
    if !state_marks::good(s, count, fields) {
        return Err(RefusedAt::from(Refusal::BadState));
    }
    if form_layout::node_count(form) <= node {
        return Err(RefusedAt::from(Refusal::NotThere));
    }
    Ok(())
}

// The mark of what a node uses: that of the field whose tree has it.
fn node_mark(form: &[u8], node: usize) -> u16
    requires { length_good form.now ≡ true }
    ensures { result ≡ field_mark (field_of (read_form form.now) node) }
{
    state_marks::field_mark(form_fields::field_of(form, node))
}

fn answered(ran: Ran, marks: [u16; 256]) -> RunAnswer
    ensures { result ≡ answer_of ran marks }
{
    RunAnswer {
        number: ran.number,
        place: ran.place,
        tries: ran.tries,
        words: ran.len,
        state: state_marks::joined(marks, ran.numbers),
    }
}

// Refused before the run: nothing is tried, and the state is the one that was given.
fn unchanged(e: RefusedAt, s: State) -> RunAnswer
    requires { place_told e.place < 2 ^ 32 }
    ensures { result ≡ unchanged_by (told e) s }
{
    let r = e.told();
    RunAnswer {
        number: r.number,
        place: r.place,
        tries: 0,
        words: 0,
        state: s,
    }
}

// The run, on input that was not refused. The words go to the front of an answer slice that is all 0, and what is missing to the
// front of a list that is all 0.
fn run_admitted(
    form: &[u8],
    sheet: &[u8],
    items: &[u32],
    answers: &mut [u32],
    list: &mut [u32],
    s: State,
    node: usize,
) -> RunAnswer
    requires { ClearedAnswers form.now sheet.now items.now answers.old list.old s node }
    ensures { Runs form.now sheet.now items.now (length answers.old) (length list.old) s node answers.new list.new result }
{
    let known = known_of(form, sheet, items, s.count as usize);
    let mut marks = s.marks;
    let p = state_marks::numbers_of(s);
    let field = Field { node, at: 0 };
    let mark = node_mark(form, node);
    let line = Line {
        form,
        known: &known,
        sheet,
        items,
    };
    let ran = run_fields::run_value(&line, &mut marks, p, field, answers, mark);
    if ran.number == MISSING {
        eval_missing::list_missing(&line, &marks, ran.numbers, node, list, mark);
        return answered(ran, marks);
    }
    answered(ran, marks)
}

// The evaluation of one node on a state over the items of a slice. Refused with 1 to 7, 14 or 28 to 30, nothing is changed; else
// the answer slice holds the words of the value, the list what is missing, and each 0 behind them.
pub fn eval(
    form: &[u8],
    sheet: &[u8],
    items: &[u32],
    answers: &mut [u32],
    list: &mut [u32],
    s: State,
    node: usize,
) -> RunAnswer
    ensures { evaluated_answer (call_eval form.now sheet.now items.now answers.old list.old s node) ≡ some (record { answer = result; answers = answers.new; list = list.new }) }
{
    if let Err(e) = admit(form, sheet, items, answers, list, s, node) {
        return unchanged(e, s);
    }
    wire::fill(answers, 0, answers.len(), 0);
    wire::fill(list, 0, list.len(), 0);
    run_admitted(form, sheet, items, answers, list, s, node)
}
