// A careful run of a batch: the run of the batch, and then each sheet that was accepted is looked at.
#![tactic(auto)]

ghost use Rattle.std.specs.Prelude.{◌≡◌, ◌≤◌, length, replicate};
ghost use Rattle.std.proofs.Math.Option.{some};
ghost use Rattle.rules.specs.Reported.{tested};
ghost use Rattle.rules_careful.specs.CarefulBatch.{careful_batch};
ghost use Rattle.batch_parts.specs.Parts.{PartFits, Replaced};
ghost use Rattle.batch_run.specs.Told.{batch_answer};
ghost use Rattle.careful_batch.specs.Looked.{CountsItems, KindsFirst, HasRun, MisreadTold, refused_words, HoldsWords, HasPart, LookedPart, HasBatch, LookedBatch};

use batch_check::RECORD_WORDS;
use rules::Refusal;
use run_fields::ANSWER_WORDS;
use split_arg::ITEM_WORDS;
use wire::wide;

// How many items a part holds. A record does not say so: a kind of 0 ends them. By halves, since a loop over all of them would cost a
// third of what looking at them does.
fn item_count(items: &[u32]) -> usize
    requires { KindsFirst items.now }
    ensures { CountsItems items.now result }
{
    items[..ITEM_WORDS]
        .as_chunks::<7>()
        .0
        .partition_point(|item| item[0] != 0)
}

// The lowest misread place plus 1, or 0 for none.
fn misread_place(sheet: &[u8], items: &[u32]) -> u32
    requires { HasRun sheet.now items.now }
    ensures { MisreadTold sheet.now items.now result }
{
    let count = item_count(items);
    let place = careful_words::first_misread(sheet, items, 0, count);
    if place == count {
        return 0;
    }
    place as u32 + 1
}

// Record k becomes 50 at this place with no words, its tries stay; and its part of the answers becomes 0. Behind its words that is 0.
fn refuse_part(k: usize, place: u32, records: &mut [u32], answers: &mut [u32])
    requires { PartFits 4 k records.old × PartFits 8240 k answers.old × HoldsWords k records.old answers.old }
    ensures replaced { Replaced 4 k (refused_words k place records.old) records.old records.new }
    ensures replaced_2 { Replaced 8240 k (replicate 8240 0) answers.old answers.new }
{
    let at = RECORD_WORDS * k;
    let words = wide(records[at + 3]);
    records[at] = Refusal::Misread.number();
    records[at + 1] = place;
    records[at + 3] = 0;
    wire::fill(answers, ANSWER_WORDS * k, words, 0);
}

// Sheet k: 50 in its record, and no answers, where it was accepted and a place is misread. Its items and its list stay.
fn look_part(sheet: &[u8], k: usize, records: &mut [u32], items: &[u32], answers: &mut [u32])
    requires { HasPart sheet.now k records.old items.now answers.old }
    ensures { LookedPart sheet.now k records.old records.new items.now answers.old answers.new }
{
    let at = RECORD_WORDS * k;
    if records[at] != 0 {
        return;
    }
    let i = ITEM_WORDS * k;
    let place = misread_place(sheet, &items[i..i + ITEM_WORDS]);
    if place == 0 {
        return;
    }
    refuse_part(k, place, records, answers);
}

// All sheets of a batch that was run.
fn look_sheets(batch: &[u8], records: &mut [u32], items: &[u32], answers: &mut [u32])
    requires { HasBatch batch.now records.old items.now answers.old }
    ensures { LookedBatch batch.now records.old records.new items.now answers.old answers.new }
{
    for k in 0..batch_check::sheet_count(batch) {
        let sheet = batch_check::sheet_at(batch, k);
        look_part(sheet, k, records, items, answers);
    }
}

// A form and a batch, as its run; but each sheet gets what the careful run reports on it, except the letter of 50.
pub fn careful_batch(
    form: &[u8],
    batch: &[u8],
    records: &mut [u32],
    items: &mut [u32],
    answers: &mut [u32],
    list: &mut [u32],
) -> Result<(), Refusal>
    ensures { batch_answer (careful_batch form.now batch.now (length records.old) (length items.old) (length answers.old) (length list.old)) ≡ some (record { answer = record { number = tested result; place = 0 }; records = records.new; items = items.new; answers = answers.new; list = list.new }) }
{
    batch_run::run_batch(form, batch, records, items, answers, list)?;
    look_sheets(batch, records, items, answers);
    Ok(())
}
