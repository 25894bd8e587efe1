// Records and parts: one for each sheet of a batch, one after the other in a slice.
#![tactic(auto)]

ghost use Rattle.std.specs.Prelude.{◌≡◌, ◌*◌, ◌≤◌, length};
ghost use Rattle.rules.specs.BatchAnswered.{Roomy};
ghost use Rattle.batch_parts.specs.Parts.{PartFits, Replaced, cleared_past, reached_words};

use batch_check::RECORD_WORDS;
use eval_missing::MISSING_WORDS;
use run_fields::{ANSWER_WORDS, Reached};
use split_arg::ITEM_WORDS;

// All words from `from` on become 0.
fn clear_past(out: &mut [u32], from: usize)
    requires { from ≤ length out.old }
    ensures { out.new ≡ cleared_past from out.old }
{
    wire::fill(out, from, out.len() - from, 0);
}

// Past the records and parts of n sheets all becomes 0.
pub fn clear_parts(
    n: usize,
    records: &mut [u32],
    items: &mut [u32],
    answers: &mut [u32],
    list: &mut [u32],
)
    requires { (n ≤ 32) × Roomy n (length records.old) (length items.old) (length answers.old) (length list.old) }
    ensures records_after { records.new ≡ cleared_past (4 * n) records.old }
    ensures after { items.new ≡ cleared_past (1792 * n) items.old }
    ensures answers_after { answers.new ≡ cleared_past (8240 * n) answers.old }
    ensures list_after { list.new ≡ cleared_past (192 * n) list.old }
{
    clear_past(records, RECORD_WORDS * n);
    clear_past(items, ITEM_WORDS * n);
    clear_past(answers, ANSWER_WORDS * n);
    clear_past(list, MISSING_WORDS * n);
}

// Record k.
pub fn write_record(records: &mut [u32], k: usize, r: Reached)
    requires { PartFits 4 k records.old }
    ensures { Replaced 4 k (reached_words r) records.old records.new }
{
    let at = RECORD_WORDS * k;
    records[at] = r.number;
    records[at + 1] = r.place;
    records[at + 2] = r.tries;
    records[at + 3] = r.words;
}
