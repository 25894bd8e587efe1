// A batch of sheets: its count, its offsets, room for what its sheets leave, and its sheets.
#![tactic(auto)]

ghost use Rattle.std.specs.Prelude.{◌≡◌, ◌&&◌, ◌≤◌, length};
ghost use Rattle.wire.specs.Wire.{entry_of};
ghost use Rattle.rules.specs.Batch.{sheet_count, batch_good, parts_fit};
ghost use Rattle.batch_check.specs.Sheets.{HasSheet};

use eval_missing::MISSING_WORDS;
use run_fields::ANSWER_WORDS;
use split_arg::ITEM_WORDS;
use wire::{COUNT_BYTES, WIDE_OFFSET};

// The most sheets of a batch.
pub const SHEETS: usize = 32;

// The words of a record. The parts of a sheet have those of a single run's slices.
pub const RECORD_WORDS: usize = 4;

pub fn sheet_count(batch: &[u8]) -> usize
    requires { 2 ≤ length batch.now }
    ensures { result ≡ sheet_count batch.now }
{
    wire::u16_at(batch, 0) as usize
}

// Whether slices of these lengths have room for n sheets.
#[tactic(auto, unfolding(rules::specs::Batch::parts_fit))]
fn has_room(n: usize, records: usize, items: usize, answers: usize, list: usize) -> bool
    requires { n ≤ 32 }
    ensures { result ≡ parts_fit n records items answers list }
{
    RECORD_WORDS * n <= records
        && ITEM_WORDS * n <= items
        && ANSWER_WORDS * n <= answers
        && MISSING_WORDS * n <= list
}

// Whether a batch is well made, and slices of these lengths have room for its sheets.
#[tactic(auto, unfolding(rules::specs::Batch::batch_good))]
pub fn fits(batch: &[u8], records: usize, items: usize, answers: usize, list: usize) -> bool
    ensures { result ≡ (batch_good batch.now && parts_fit (sheet_count batch.now) records items answers list) }
{
    if batch.len() < COUNT_BYTES {
        return false;
    }
    let n = sheet_count(batch);
    n <= SHEETS
        && wire::table_good(batch, WIDE_OFFSET, n)
        && has_room(n, records, items, answers, list)
}

// Sheet k.
pub fn sheet_at(batch: &[u8], k: usize) -> &[u8]
    requires { HasSheet batch.now k }
    ensures { result.now ≡ entry_of 4 (sheet_count batch.now) batch.now k }
{
    let n = sheet_count(batch);
    wire::entry(batch, WIDE_OFFSET, n, k)
}
