// The items that a lent slice holds (refusal 30), and the input that every call on items is given.
#![tactic(auto)]

ghost use Rattle.std.specs.Prelude.{◌≡◌, ◌&&◌, List, [], ◌∷◌, ℕ, ◌+◌, ◌*◌, ◌/◌, ◌≤◌, leb, length, get_or, drop};
ghost use Rattle.rules.specs.Base.{is_some};
ghost use Rattle.rules.specs.Tree.{zeros};
ghost use Rattle.rules.specs.Sheet.{sheet_area, sheet_fault};
ghost use Rattle.rules.specs.Calls.{item_from, items_from, records_in};
ghost use Rattle.split_arg.specs.Items.{record_at};
ghost use Rattle.call_table.specs.Given.{Trims, Checks, Gives, GivesState};

use rules::{Refusal, State};
use split_arg::ITEM_WORDS;

// Record i, as a part of the slice.
fn words_at(items: &[u32], i: usize) -> &[u32]
    requires { 7 * i + 7 ≤ length items.now }
    ensures { result.now ≡ record_at items.now i }
{
    &items[7 * i..7 * i + 7]
}

pub fn all_zero(words: &[u32]) -> bool
    ensures { result ≡ zeros words.now }
{
    let mut zero = true;
    for word in words {
        zero &= *word == 0;
    }
    zero
}

// Whether the words behind the last whole record are all 0.
fn tail_good(items: &[u32]) -> bool
    ensures { result ≡ zeros (drop (7 * (length items.now / 7)) items.now) }
{
    all_zero(&items[7 * (items.len() / 7)..])
}

// The whole records up to the last that is not all 0: their number.
fn trimmed_count(items: &[u32]) -> usize
    ensures { Trims items.now result }
{
    for i in (0..items.len() / 7).rev() {
        if !all_zero(words_at(items, i)) {
            return i + 1;
        }
    }
    0
}

// Whether a part lies in an area. The sum is taken wide.
fn part_good(offset: u32, size: u32, area: usize) -> bool
    ensures { result ≡ leb (offset + size) area }
{
    offset as usize + size as usize <= area
}

// A Short has no name.
fn short_good(r: &[u32]) -> bool
    requires { length r.now ≡ 7 }
    ensures { result ≡ (leb (get_or r.now 1 0) 1 && zeros (get_or r.now 3 0 ∷ get_or r.now 4 0 ∷ [])) }
{
    r[1] <= 1 && all_zero(&r[3..5])
}

// A Long has no character, and its name lies in the area.
fn long_good(r: &[u32], area: usize) -> bool
    requires { length r.now ≡ 7 }
    ensures { result ≡ ((leb (get_or r.now 1 0) 1 && zeros (get_or r.now 2 0 ∷ [])) && leb (get_or r.now 3 0 + get_or r.now 4 0) area) }
{
    r[1] <= 1 && r[2] == 0 && part_good(r[3], r[4], area)
}

// Whether a record is an item over an area of this length.
pub fn record_good(r: &[u32], area: usize) -> bool
    requires { length r.now ≡ 7 }
    ensures { (bytes : List ℕ) → length bytes ≡ area → result ≡ is_some (item_from bytes r.now) }
{
    if !part_good(r[5], r[6], area) {
        return false;
    }
    match r[0] {
        1 => short_good(r),
        2 => long_good(r, area),
        3 | 4 | 5 => all_zero(&r[1..5]),
        _ => false,
    }
}

// Whether each of the first n records is an item.
fn records_good(items: &[u32], n: usize, area: usize) -> bool
    requires { 7 * n ≤ length items.now }
    ensures { (bytes : List ℕ) → length bytes ≡ area → result ≡ is_some (items_from bytes (records_in n items.now)) }
{
    for i in 0..n {
        if !record_good(words_at(items, i), area) {
            return false;
        }
    }
    true
}

// How many items the slice holds over the sheet's area, if each record is well made.
pub fn check(sheet: &[u8], items: &[u32]) -> Option<usize>
    requires { sheet_fault sheet.now ≡ 0 }
    ensures { Checks (sheet_area sheet.now) items.now result }
{
    let area = sheet.len() - wire::area_start(2, split_sheet::count(sheet));
    let count = trimmed_count(items);
    if tail_good(items) && records_good(items, count, area) {
        return Some(count);
    }
    None
}

// How many items there are, or refusals 5, 6, 7 and 30, in the order of the calls.
pub fn given(sheet: &[u8], items: &[u32]) -> Result<usize, Refusal>
    ensures { Gives sheet.now items.now result }
{
    split_sheet::check(sheet)?;
    if items.len() < ITEM_WORDS {
        return Err(Refusal::ShortSlice);
    }
    check(sheet, items).ok_or(Refusal::BadItem)
}

// The same, and then 29, for a state over these items, used by fields below `fields`.
pub fn given_state(sheet: &[u8], items: &[u32], s: State, fields: usize) -> Result<(), Refusal>
    ensures { GivesState fields sheet.now items.now s result }
{
    let count = given(sheet, items)?;
    if !state_marks::good(s, count, fields) {
        return Err(Refusal::BadState);
    }
    Ok(())
}
