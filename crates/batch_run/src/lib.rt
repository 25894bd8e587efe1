// A batch: one form, many sheets. The form is checked once, and what splitting and the fields ask of it is worked out once.
#![tactic(auto)]

ghost use Rattle.std.specs.Prelude.{◌≡◌, ◌<◌, ◌^◌, List, ℕ, length};
ghost use Rattle.std.proofs.Math.Option.{some};
ghost use Rattle.rules.specs.Accept.{Accepted, accepted, check_form};
ghost use Rattle.rules.specs.Codes.{check_code};
ghost use Rattle.rules.specs.Reported.{place_told, told, tested};
ghost use Rattle.rules.specs.Batch.{sheet_count, run_batch};
ghost use Rattle.batch_line.specs.Known.{FormKnown};
ghost use Rattle.batch_parts.specs.Parts.{PartFits};
ghost use Rattle.batch_run.specs.Sheets.{PartReported, BatchFits, SheetsRan};
ghost use Rattle.batch_run.specs.Told.{batch_answer};

use eval_missing::MISSING_WORDS;
use rules::{Refusal, RefusedAt};
use run_fields::{ANSWER_WORDS, Reached};
use split_arg::ITEM_WORDS;

// A sheet is run into part k of each slice.
fn run_part(
    form: &[u8],
    codes: &[u32],
    flags: &[u32],
    arguments: &[u32],
    sheet: &[u8],
    k: usize,
    items: &mut [u32],
    answers: &mut [u32],
    list: &mut [u32],
) -> Reached
    requires { FormKnown form.now codes.now flags.now arguments.now × PartFits 1792 k items.old × PartFits 8240 k answers.old × PartFits 192 k list.old }
    ensures { PartReported form.now sheet.now k items.old items.new answers.old answers.new list.old list.new result }
{
    let i = ITEM_WORDS * k;
    let a = ANSWER_WORDS * k;
    let l = MISSING_WORDS * k;
    batch_line::run_sheet(
        form,
        codes,
        flags,
        arguments,
        sheet,
        &mut items[i..i + ITEM_WORDS],
        &mut answers[a..a + ANSWER_WORDS],
        &mut list[l..l + MISSING_WORDS],
    )
}

// Part k of each slice gets what a refused form leaves. Apart from `run_part`: that is the same whatever the sheet is, and needs no
// codes and no letters.
fn refuse_part(
    fault: RefusedAt,
    k: usize,
    items: &mut [u32],
    answers: &mut [u32],
    list: &mut [u32],
) -> Reached
    requires { PartFits 1792 k items.old × PartFits 8240 k answers.old × PartFits 192 k list.old × (place_told fault.place < 2 ^ 32) }
    ensures { (form sheet : List ℕ) → told fault ≡ check_code (check_form form) → PartReported form sheet k items.old items.new answers.old answers.new list.old list.new result }
{
    let i = ITEM_WORDS * k;
    let a = ANSWER_WORDS * k;
    let l = MISSING_WORDS * k;
    batch_line::refuse_sheet(
        fault,
        &mut items[i..i + ITEM_WORDS],
        &mut answers[a..a + ANSWER_WORDS],
        &mut list[l..l + MISSING_WORDS],
    )
}

// All sheets, one after the other, none of which stops the others.
fn run_sheets(
    form: &[u8],
    codes: &[u32],
    flags: &[u32],
    arguments: &[u32],
    batch: &[u8],
    records: &mut [u32],
    items: &mut [u32],
    answers: &mut [u32],
    list: &mut [u32],
)
    requires { FormKnown form.now codes.now flags.now arguments.now × BatchFits batch.now records.old items.old answers.old list.old }
    ensures { SheetsRan form.now batch.now (sheet_count batch.now) records.old records.new items.old items.new answers.old answers.new list.old list.new }
{
    for k in 0..batch_check::sheet_count(batch) {
        let sheet = batch_check::sheet_at(batch, k);
        let r = run_part(
            form, codes, flags, arguments, sheet, k, items, answers, list,
        );
        batch_parts::write_record(records, k, r);
    }
}

// The same for a form that is refused.
fn refuse_sheets(
    fault: RefusedAt,
    batch: &[u8],
    records: &mut [u32],
    items: &mut [u32],
    answers: &mut [u32],
    list: &mut [u32],
)
    requires { BatchFits batch.now records.old items.old answers.old list.old × (place_told fault.place < 2 ^ 32) }
    ensures { (form : List ℕ) → told fault ≡ check_code (check_form form) → SheetsRan form batch.now (sheet_count batch.now) records.old records.new items.old items.new answers.old answers.new list.old list.new }
{
    for k in 0..batch_check::sheet_count(batch) {
        let r = refuse_part(fault, k, items, answers, list);
        batch_parts::write_record(records, k, r);
    }
}

// The sheets of a batch that is well made, with an accepted form: its codes and its letters are worked out here, once.
fn run_known(
    form: &[u8],
    batch: &[u8],
    records: &mut [u32],
    items: &mut [u32],
    answers: &mut [u32],
    list: &mut [u32],
)
    requires { ((a : Accepted) × (check_form form.now ≡ accepted a)) × BatchFits batch.now records.old items.old answers.old list.old }
    ensures { SheetsRan form.now batch.now (sheet_count batch.now) records.old records.new items.old items.new answers.old answers.new list.old list.new }
{
    let mut codes = form_codes::no_codes();
    form_codes::codes(form, &mut codes);
    let mut flags = form_codes::no_codes();
    let mut arguments = form_codes::no_codes();
    let counts = form_letters::letters(form, &codes, &mut flags, &mut arguments);
    let n = counts.flags;
    let m = counts.arguments;
    run_sheets(
        form,
        &codes,
        &flags[0..n],
        &arguments[0..m],
        batch,
        records,
        items,
        answers,
        list,
    )
}

// A batch that is well made, and slices with room for it, of which what lies past the parts is 0.
fn run_form(
    form: &[u8],
    batch: &[u8],
    records: &mut [u32],
    items: &mut [u32],
    answers: &mut [u32],
    list: &mut [u32],
)
    requires { BatchFits batch.now records.old items.old answers.old list.old }
    ensures { SheetsRan form.now batch.now (sheet_count batch.now) records.old records.new items.old items.new answers.old answers.new list.old list.new }
{
    match form_check::check(form) {
        Ok(()) => run_known(form, batch, records, items, answers, list),
        Err(fault) => refuse_sheets(fault, batch, records, items, answers, list),
    }
}

// A form and a batch: a record for each sheet, and its parts of the slices. A batch that is not well made, or a slice that is too short
// for it, comes before all else.
pub fn run_batch(
    form: &[u8],
    batch: &[u8],
    records: &mut [u32],
    items: &mut [u32],
    answers: &mut [u32],
    list: &mut [u32],
) -> Result<(), Refusal>
    ensures { batch_answer (run_batch form.now batch.now (length records.old) (length items.old) (length answers.old) (length list.old)) ≡ some (record { answer = record { number = tested result; place = 0 }; records = records.new; items = items.new; answers = answers.new; list = list.new }) }
{
    if !batch_check::fits(batch, records.len(), items.len(), answers.len(), list.len()) {
        batch_parts::clear_parts(0, records, items, answers, list);
        return Err(Refusal::BadBatch);
    }
    let n = batch_check::sheet_count(batch);
    batch_parts::clear_parts(n, records, items, answers, list);
    run_form(form, batch, records, items, answers, list);
    Ok(())
}
