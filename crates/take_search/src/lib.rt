// Which items have one of a node's names, and the searches for the first such item and for the first operand.
#![tactic(auto)]

ghost use Rattle.std.specs.Prelude.{◌≡◌, not, ◌||◌, List, ℕ, ◌+◌, ◌*◌, ◌≤◌, ◌<◌, length, get_or, take, drop};
ghost use Rattle.std.proofs.Math.Option.{some};
ghost use Rattle.std.proofs.Math.ListN.{get_elem?};
ghost use Rattle.rules.specs.Base.{contains};
ghost use Rattle.rules.specs.Form.{Name, name_count, read_form};
ghost use Rattle.rules.specs.Tree.{long_of};
ghost use Rattle.rules.specs.Sheet.{sheet_area};
ghost use Rattle.rules.specs.Split.{Item as RulesItem};
ghost use Rattle.rules.specs.Take.{contains_name, matches_arg, is_operand};
ghost use Rattle.rules.specs.Calls.{item_from};
ghost use Rattle.split_arg.specs.Items.{record_at};
ghost use Rattle.form_layout.specs.Layout.{HasName, GoodNames};
ghost use Rattle.form_codes.specs.Codes.{named_at};
ghost use Rattle.take_search.specs.Items.{HasPart, part_bytes, operand_kind};
ghost use Rattle.take_search.specs.Search.{HasNames, HasItem, HasItems, Sought};

use split_arg::{Item, Part};

// The names of a node: `count` records of the form from `first` on. An adjacent argument takes only an item that has its value
// in its own word.
#[derive(Clone, Copy)]
pub struct Names {
    pub first: usize,
    pub count: usize,
    pub adjacent: bool,
}

// Whether one of `count` codes from `first` on is that of a character.
fn has_short(codes: &[u32], first: usize, count: usize, character: u32) -> bool
    requires { first + count ≤ length codes.now }
    ensures { result ≡ contains (take count (drop first codes.now)) (character + 1) }
{
    let want = u64::from(character) + 1;
    for code in &codes[first..first + count] {
        if u64::from(*code) == want {
            return true;
        }
    }
    false
}

// Whether name record k is long, and this name.
pub fn is_long(form: &[u8], k: usize, name: &[u8]) -> bool
    requires { HasName form.now k }
    ensures { (x : Name) → get_elem? (read_form form.now).names k ≡ some x → result ≡ contains_name (long_of (read_form form.now).area x) name.now }
{
    let x = form_layout::name_at(form, k);
    x.kind == 1 && form_layout::name_bytes(form, k) == name
}

// Whether one of `count` name records from `first` on is this long name.
fn has_long(form: &[u8], name: &[u8], first: usize, count: usize) -> bool
    requires { GoodNames form.now × (first + count ≤ name_count form.now) }
    ensures { result ≡ contains_name (named_at form.now first count).longs name.now }
{
    for k in first..first + count {
        if is_long(form, k, name) {
            return true;
        }
    }
    false
}

// The bytes of a part of the sheet's area.
pub fn part_bytes(sheet: &[u8], x: Part) -> &[u8]
    requires { HasPart sheet.now x }
    ensures { result.now ≡ part_bytes (sheet_area sheet.now) x }
{
    let area = wire::area_start(2, split_sheet::count(sheet));
    let from = area + x.offset as usize;
    let to = from + x.length as usize;
    &sheet[from..to]
}

// An adjacent argument takes only an item that has its value in its own word.
fn fits(adjacent: bool, own: bool) -> bool
    ensures { result ≡ (not adjacent || own) }
{
    !adjacent || own
}

// `matches_arg`: whether item i has one of the names.
pub fn matches(
    form: &[u8],
    codes: &[u32],
    sheet: &[u8],
    items: &[u32],
    i: usize,
    names: Names,
) -> bool
    requires { HasNames form.now codes.now names.first names.count × HasItem sheet.now items.now i }
    ensures { (x : RulesItem) → item_from (sheet_area sheet.now) (record_at items.now i) ≡ some x → result ≡ matches_arg (named_at form.now names.first names.count) names.adjacent x }
{
    let item = split_arg::read_item(items, i);
    match item {
        Item::Short(character, own, _) => {
            fits(names.adjacent, own) && has_short(codes, names.first, names.count, character)
        }
        Item::Long(name, own, _) => {
            fits(names.adjacent, own)
                && has_long(form, part_bytes(sheet, name), names.first, names.count)
        }
        Item::ArgWord(_) | Item::Word(_) | Item::PosWord(_) => false,
    }
}

// The same for a search. The kind is looked at first: most items are words, and each call of `matches` passes all that it takes.
fn is_named(form: &[u8], codes: &[u32], sheet: &[u8], items: &[u32], i: usize, names: Names) -> bool
    requires { HasNames form.now codes.now names.first names.count × HasItem sheet.now items.now i }
    ensures { (x : RulesItem) → item_from (sheet_area sheet.now) (record_at items.now i) ≡ some x → result ≡ matches_arg (named_at form.now names.first names.count) names.adjacent x }
{
    let item = split_arg::read_item(items, i);
    match item {
        Item::Short(..) | Item::Long(..) => matches(form, codes, sheet, items, i, names),
        Item::ArgWord(_) | Item::Word(_) | Item::PosWord(_) => false,
    }
}

// The first present place from `from` on, below `end`, whose item has one of the names; `end` if there is none: that place is the end of
// the scope.
pub fn find_named(
    form: &[u8],
    codes: &[u32],
    sheet: &[u8],
    items: &[u32],
    marks: &[u16],
    from: usize,
    end: usize,
    names: Names,
) -> usize
    requires { HasNames form.now codes.now names.first names.count × HasItems sheet.now items.now marks.now from end }
    ensures { Sought (sheet_area sheet.now) items.now (matches_arg (named_at form.now names.first names.count) names.adjacent) marks.now from end result }
{
    state_marks::first_where(
        marks,
        from,
        end,
        |i| is_named(form, codes, sheet, items, i, names),
    )
}

// Whether record i is a Word or a PosWord.
#[tactic(auto, unfolding(crate::specs::Items::operand_kind))]
fn is_operand(items: &[u32], i: usize) -> bool
    requires { 7 * i < length items.now }
    ensures { result ≡ operand_kind (get_or items.now (7 * i) 0) }
{
    matches!(items[7 * i], 4 | 5)
}

// The first present place from `from` on, below `end`, that is a Word or a PosWord; `end` if there is none.
pub fn find_operand(items: &[u32], marks: &[u16], from: usize, end: usize) -> usize
    requires { (from ≤ end) × (end ≤ length marks.now) × (7 * end ≤ length items.now) }
    ensures { (area : List ℕ) → Sought area items.now is_operand marks.now from end result }
{
    state_marks::first_where(marks, from, end, |i| is_operand(items, i))
}
