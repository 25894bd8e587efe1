// A list: a counted offset table (see wire) whose first entry is the command that made the list, and whose others are the
// cases, seven parts each.
ghost use Rattle.std.specs.Prelude.{◌≡◌, true, ℕ, ◌<◌};
ghost use Rattle.replay.specs.List.{HasCase, CaseTold, case_at};

use crate::{cases, words};

// What came of a list: one that is no table has no cases.
#[derive(Clone, Copy)]
pub struct Tally {
    pub cases: u64,
    pub differ: u64,
}

fn case_same(list: &[u8], count: usize, at: usize) -> bool
    requires { HasCase list.now count at }
    ensures { result ≡ true → CaseTold list.now count at }
{
    let head = wire::entry(list, 2, count, at);
    let form = wire::entry(list, 2, count, at + 1);
    let sheet = wire::entry(list, 2, count, at + 2);
    let given = wire::entry(list, 2, count, at + 3);
    let second = wire::entry(list, 2, count, at + 4);
    let numbers = wire::entry(list, 2, count, at + 5);
    let words = wire::entry(list, 2, count, at + 6);
    cases::same(
        words::read_head(head),
        form,
        sheet,
        given,
        second,
        numbers,
        words,
    )
}

fn no_cases() -> Tally
    ensures { result.cases ≡ 0 }
{
    Tally {
        cases: 0,
        differ: 0,
    }
}

pub fn replay(list: &[u8]) -> Tally
    ensures { result.differ ≡ 0 → (k : ℕ) → k < result.cases → case_at list.now k }
{
    if list.len() < 2 {
        return no_cases();
    }
    let count = wire::u16_at(list, 0) as usize;
    if !wire::table_good(list, 2, count) {
        return no_cases();
    }
    let cases = count.saturating_sub(1) / 7;
    let mut differ = 0;
    for k in 0..cases {
        if !case_same(list, count, 7 * k + 1) {
            differ += 1;
        }
    }
    Tally {
        cases: cases as u64,
        differ,
    }
}
