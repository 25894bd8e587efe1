// The library for C and Rust: batches. It stands apart from `exports` for the reason that `exports_commands` does.
#![tactic(auto)]

ghost use Rattle.std.specs.Prelude.{◌≡◌, length};
ghost use Rattle.std.proofs.Math.Option.{some};
ghost use Rattle.rules.specs.Batch.{run_batch};
ghost use Rattle.rules.specs.Reported.{tested};
ghost use Rattle.rules_careful.specs.CarefulBatch.{careful_batch};
ghost use Rattle.batch_run.specs.Told.{batch_answer};

use rules::{Refusal, Refused};

// A batch's refusal has no place.
fn ended(ran: Result<(), Refusal>) -> Refused
    ensures { result ≡ record { number = tested ran; place = 0 } }
{
    match ran {
        Ok(()) => Refused {
            number: 0,
            place: 0,
        },
        Err(refusal) => Refused {
            number: refusal.number(),
            place: 0,
        },
    }
}

#[unsafe(no_mangle)]
pub extern "C" fn silverpoise_run_batch(
    form: &[u8],
    batch: &[u8],
    records: &mut [u32],
    items: &mut [u32],
    answers: &mut [u32],
    list: &mut [u32],
) -> Refused
    ensures { batch_answer (run_batch form.now batch.now (length records.old) (length items.old) (length answers.old) (length list.old)) ≡ some (record { answer = result; records = records.new; items = items.new; answers = answers.new; list = list.new }) }
{
    ended(batch_run::run_batch(form, batch, records, items, answers, list))
}

// As the batch, but each sheet is read carefully: a record may have 50. Its letter is told by `silverpoise_careful` on that sheet.
#[unsafe(no_mangle)]
pub extern "C" fn silverpoise_careful_batch(
    form: &[u8],
    batch: &[u8],
    records: &mut [u32],
    items: &mut [u32],
    answers: &mut [u32],
    list: &mut [u32],
) -> Refused
    ensures { batch_answer (careful_batch form.now batch.now (length records.old) (length items.old) (length answers.old) (length list.old)) ≡ some (record { answer = result; records = records.new; items = items.new; answers = answers.new; list = list.new }) }
{
    ended(careful_batch::careful_batch(form, batch, records, items, answers, list))
}
