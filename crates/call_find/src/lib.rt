// A search over a lent slice of item records: the first present item in scope that has one of the names of a flag or an
// argument. It asks nothing of its input: what is not well made is refused under its number, a state that is not good for the
// form's number of fields with 29, and then 28 where the form has no such node.
#![tactic(auto)]

ghost use Rattle.std.specs.Prelude.{◌≡◌, ◌+◌, ◌≤◌, ◌<◌};
ghost use Rattle.std.proofs.Math.Option.{some};
ghost use Rattle.call_answers.specs.Answers.{place_or_none, plain_answer};
ghost use Rattle.call_find.specs.Records.{words_of, call_find};
ghost use Rattle.call_find.specs.Scan.{Started, ReachedAt, CanMatch, judged, unseen, turned, Finishes};

use call_answers::{Answer, answered, narrow, refused, refused_at};
use call_form::Key;
use rules::{Refusal, RefusedAt, State};
use state_marks::is_present;

// An item as the seven words of its record.
#[repr(C)]
#[derive(Clone, Copy)]
pub struct ItemRecord {
    pub kind: u32,
    pub adjacent: u32,
    pub character: u32,
    pub name_offset: u32,
    pub name_length: u32,
    pub text_offset: u32,
    pub text_length: u32,
}

// What the records are searched for.
#[derive(Clone, Copy)]
struct Search {
    area: usize,
    fields: usize,
    key: Key,
    codes: [u32; 128],
}

// The records so far: how many there are up to the last that is not all 0, and the first of them that is looked for: its
// place plus 2, or 0 for none yet, or 1 where one of them is no item.
#[derive(Clone, Copy)]
struct Seen {
    found: usize,
    count: usize,
}

fn words_of(x: ItemRecord) -> [u32; 7]
    ensures { result ≡ words_of x }
{
    [
        x.kind,
        x.adjacent,
        x.character,
        x.name_offset,
        x.name_length,
        x.text_offset,
        x.text_length,
    ]
}

// Refusals 1 to 4, then 6 and 5; else the number of fields and the names of the node.
fn started(form: &[u8], sheet: &[u8], node: usize) -> Result<Search, RefusedAt>
    ensures { Started form.now sheet.now node result }
{
    form_check::check(form)?;
    split_sheet::check(sheet)?;
    let fields = form_layout::field_count(form);
    let key = call_form::key_at(form, node);
    let codes = form_codes::codes_of(form);
    let area = sheet.len() - wire::area_start(2, split_sheet::count(sheet));
    Ok(Search {
        area,
        fields,
        key,
        codes,
    })
}

// Whether a place is present and in scope.
fn is_reached(s: State, i: usize) -> bool
    ensures { ReachedAt s i result }
{
    if i < s.start as usize || s.end as usize <= i || 256 <= i {
        return false;
    }
    is_present(s.marks[i])
}

fn nothing_seen() -> Seen
    ensures { result ≡ unseen }
{
    Seen { found: 0, count: 0 }
}

// One record: 1 where it is no item, else what was found before it, or its place plus 2 if it is the first that has a name.
fn judge(
    form: &[u8],
    sheet: &[u8],
    item: ItemRecord,
    i: usize,
    s: State,
    search: Search,
    found: usize,
) -> usize
    requires { CanMatch form.now sheet.now search }
    ensures { result ≡ judged form.now sheet.now s search item i found }
{
    let words = words_of(item);
    if !call_table::record_good(&words, search.area) {
        return 1;
    }
    if found != 0 {
        return found;
    }
    if !is_reached(s, i) {
        return 0;
    }
    if take_search::matches(form, &search.codes, sheet, &words, 0, search.key.names) {
        return i + 2;
    }
    0
}

// The next record: one that is all 0 is left out, and behind such a one none is an item.
fn turn(
    form: &[u8],
    sheet: &[u8],
    item: ItemRecord,
    i: usize,
    s: State,
    search: Search,
    seen: Seen,
) -> Seen
    requires { CanMatch form.now sheet.now search × (i + 1 < 18446744073709551616) }
    ensures { result ≡ turned form.now sheet.now s search item i seen }
{
    let words = words_of(item);
    if call_table::all_zero(&words) {
        return seen;
    }
    if seen.count != i {
        return Seen {
            found: 1,
            count: i + 1,
        };
    }
    let found = judge(form, sheet, item, i, s, search, seen.found);
    Seen {
        found,
        count: i + 1,
    }
}

// After all records: refusals 30, 29 and 28, or what was found.
fn finish(s: State, search: Search, seen: Seen) -> Answer
    requires { seen.found ≤ seen.count + 1 }
    ensures { Finishes s search seen result }
{
    if seen.found == 1 {
        return refused(Refusal::BadItem);
    }
    if !state_marks::good(s, seen.count, search.fields) {
        return refused(Refusal::BadState);
    }
    if search.key.kind == 0 {
        return refused(Refusal::NotThere);
    }
    if seen.found == 0 {
        return answered(0, 0, 0);
    }
    answered(1, narrow(seen.found - 2), 0)
}

// The first present item in scope that has one of the names of a flag or an argument; an adjacent argument's only where the
// item has its value in its own word.
pub fn find(form: &[u8], sheet: &[u8], items: &[ItemRecord], s: State, node: usize) -> Answer
    ensures { plain_answer place_or_none (call_find form.now sheet.now items.now s node) ≡ some result }
{
    let search = match started(form, sheet, node) {
        Ok(search) => search,
        Err(e) => return refused_at(e),
    };
    let mut seen = nothing_seen();
    for (i, item) in items.iter().enumerate() {
        seen = turn(form, sheet, *item, i, s, search, seen);
    }
    finish(s, search, seen)
}
