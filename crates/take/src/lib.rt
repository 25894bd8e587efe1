// The takes: `take_flag`, `take_arg`, `take_positional_word`, `take_cmd`. Each is told the mark of what it uses. A take that is
// told where to search from answers the same: its caller knows that no earlier place is the one that is sought.
#![tactic(auto)]

ghost use Rattle.std.specs.Prelude.{◌≡◌, Bool, true, false, List, ℕ, ◌+◌, ◌*◌, ◌≤◌, ◌<◌, length, get_or};
ghost use Rattle.std.proofs.Math.Option.{some};
ghost use Rattle.rules.specs.Sheet.{sheet_area, sheet_fault};
ghost use Rattle.rules.specs.Tree.{Named};
ghost use Rattle.rules.specs.Split.{Item as RulesItem};
ghost use Rattle.rules.specs.State.{parsed};
ghost use Rattle.rules.specs.Take.{is_command, is_operand, matches_arg};
ghost use Rattle.rules.specs.Calls.{item_from};
ghost use Rattle.split_arg.specs.Items.{record_at, item_of};
ghost use Rattle.state_marks.specs.Lent.{Fine};
ghost use Rattle.form_codes.specs.Codes.{named_at};
ghost use Rattle.take_search.specs.Items.{operand_kind};
ghost use Rattle.take_search.specs.Search.{HasNames, HasItem, Sought};
ghost use Rattle.take_table.specs.Known.{TableTells};
ghost use Rattle.take_search.specs.States.{CanTake};
ghost use Rattle.take.specs.Takes.{Skips, HasBits, set_current, refused_at, free_below, text_part, strict_item, compared_item, UsesBoth, TakesFlag, TakesArg, TakesPositional, TakesCmd};

use split_arg::{Item, Part};
use state_marks::{Numbers, is_present};
use take_search::Names;

// Whether it was taken.
#[derive(Clone, Copy)]
pub struct Flag {
    pub found: bool,
    pub numbers: Numbers,
}

// The value of an argument.
#[derive(Clone, Copy)]
pub struct Word {
    pub place: usize,
    pub text: Part,
}

// Refusal 22: the place of a key that has no value.
#[derive(Clone, Copy)]
pub struct NoArgument {
    pub key: usize,
}

#[derive(Clone, Copy)]
pub struct Argument {
    pub value: Result<Option<Word>, NoArgument>,
    pub numbers: Numbers,
}

// A word that a positional takes. It is strict if it is a PosWord.
#[derive(Clone, Copy)]
pub struct Operand {
    pub place: usize,
    pub strict: bool,
    pub text: Part,
}

#[derive(Clone, Copy)]
pub struct Positional {
    pub operand: Option<Operand>,
    pub numbers: Numbers,
}

fn set_current(p: Numbers, current: u32) -> Numbers
    ensures { result ≡ set_current current p }
{
    Numbers { current, ..p }
}

// A place that stands behind one in scope is in scope if it lies below the end.
#[tactic(auto, unfolding(crate::specs::Takes::free_below))]
fn is_free(marks: &[u16], i: usize, end: usize) -> bool
    requires { end ≤ length marks.now }
    ensures { result ≡ free_below marks.now end i }
{
    i < end && is_present(marks[i])
}

fn text_of(item: Item) -> Part
    ensures { result ≡ text_part item }
{
    match item {
        Item::Short(_, _, t)
        | Item::Long(_, _, t)
        | Item::ArgWord(t)
        | Item::Word(t)
        | Item::PosWord(t) => t,
    }
}

// `take_cmd` compares the text of a Word, of a Short, and of a Long that is not adjacent.
fn is_compared(item: Item) -> bool
    ensures { result ≡ compared_item item }
{
    matches!(
        item,
        Item::Short(..) | Item::Long(_, false, _) | Item::Word(_)
    )
}

fn is_command(sheet: &[u8], items: &[u32], i: usize, word: &[u8]) -> bool
    requires { HasItem sheet.now items.now i }
    ensures { (x : RulesItem) → item_from (sheet_area sheet.now) (record_at items.now i) ≡ some x → result ≡ is_command word.now (some (record { place = i; item = x })) }
{
    let item = split_arg::read_item(items, i);
    is_compared(item) && take_search::part_bytes(sheet, text_of(item)) == word
}

// A flag for which a search found `place`, or the end of the scope.
fn use_flag(marks: &mut [u16; 256], p: Numbers, place: usize, mark: u16) -> Flag
    requires { Fine marks.old p × (parsed mark ≡ true) }
    ensures { (area words : List ℕ) (n : Named) → CanTake area words marks.old p mark → Sought area words (matches_arg n false) marks.old p.start p.end place → TakesFlag mark area words n marks.old p marks.new result }
{
    if p.end as usize <= place {
        return Flag {
            found: false,
            numbers: p,
        };
    }
    let left = state_marks::remove(marks, p, place, mark);
    Flag {
        found: true,
        numbers: left,
    }
}

// A flag: the first present item in scope that has one of the names.
pub fn take_flag(
    form: &[u8],
    codes: &[u32],
    sheet: &[u8],
    items: &[u32],
    marks: &mut [u16; 256],
    p: Numbers,
    first: usize,
    count: usize,
    mark: u16,
) -> Flag
    requires { HasNames form.now codes.now first count × (sheet_fault sheet.now ≡ 0) × CanTake (sheet_area sheet.now) items.now marks.old p mark }
    ensures { TakesFlag mark (sheet_area sheet.now) items.now (named_at form.now first count) marks.old p marks.new result }
{
    let start = p.start as usize;
    let end = p.end as usize;
    let names = Names {
        first,
        count,
        adjacent: false,
    };
    let place = take_search::find_named(form, codes, sheet, items, marks, start, end, names);
    use_flag(marks, p, place, mark)
}

// The same by the table of `known`, where the node is known for its names. The search begins at `from`.
pub fn take_flag_known(
    known: &[u64],
    marks: &mut [u16; 256],
    p: Numbers,
    from: usize,
    node: usize,
    mark: u16,
) -> Flag
    requires { Fine marks.old p × (parsed mark ≡ true) × HasBits known.now p node × (from ≤ p.end) }
    ensures { (area words : List ℕ) (n : Named) → CanTake area words marks.old p mark → TableTells known.now p.end node area words (matches_arg n false) → Skips area words (matches_arg n false) marks.old p from → TakesFlag mark area words n marks.old p marks.new result }
{
    let place = take_table::find(known, marks, node, from, p.end as usize);
    use_flag(marks, p, place, mark)
}

// The key and the value behind it are used; `current` is the value's place.
fn use_both(marks: &mut [u16; 256], p: Numbers, key: usize, mark: u16) -> Numbers
    requires { Fine marks.old p × (parsed mark ≡ true) × (key + 1 < p.count) }
    ensures { UsesBoth mark marks.old p key marks.new result }
{
    let value = key + 1;
    let at_value = set_current(p, value as u32 + 1);
    let left = state_marks::remove(marks, at_value, key, mark);
    state_marks::remove(marks, left, value, mark)
}

// Refusal 22 at the key, with the state as it was.
fn no_argument(before: Numbers, key: usize) -> Argument
    ensures { result ≡ refused_at key before }
{
    Argument {
        value: Err(NoArgument { key }),
        numbers: before,
    }
}

// An argument for which a search found its key, or the end of the scope: the next place is its value.
fn use_argument(
    items: &[u32],
    marks: &mut [u16; 256],
    p: Numbers,
    key: usize,
    mark: u16,
) -> Argument
    requires { (area : List ℕ) × CanTake area items.now marks.old p mark }
    ensures { (area : List ℕ) (n : Named) (adjacent : Bool) → CanTake area items.now marks.old p mark → Sought area items.now (matches_arg n adjacent) marks.old p.start p.end key → TakesArg mark area items.now n adjacent marks.old p marks.new result }
{
    let end = p.end as usize;
    if end <= key {
        return Argument {
            value: Ok(None),
            numbers: p,
        };
    }
    if !is_free(marks, key + 1, end) {
        return no_argument(p, key);
    }
    let item = split_arg::read_item(items, key + 1);
    let (Item::Word(t) | Item::ArgWord(t)) = item else {
        return no_argument(p, key);
    };
    let left = use_both(marks, p, key, mark);
    Argument {
        value: Ok(Some(Word {
            place: key + 1,
            text: t,
        })),
        numbers: left,
    }
}

// An argument: the first present item in scope that has one of the names is its key, and the next place its value.
pub fn take_arg(
    form: &[u8],
    codes: &[u32],
    sheet: &[u8],
    items: &[u32],
    marks: &mut [u16; 256],
    p: Numbers,
    names: Names,
    mark: u16,
) -> Argument
    requires { HasNames form.now codes.now names.first names.count × (sheet_fault sheet.now ≡ 0) × CanTake (sheet_area sheet.now) items.now marks.old p mark }
    ensures { TakesArg mark (sheet_area sheet.now) items.now (named_at form.now names.first names.count) names.adjacent marks.old p marks.new result }
{
    let start = p.start as usize;
    let end = p.end as usize;
    let key = take_search::find_named(form, codes, sheet, items, marks, start, end, names);
    use_argument(items, marks, p, key, mark)
}

// The same by the table of `known`, where the node is known for its names. The search begins at `from`.
pub fn take_arg_known(
    known: &[u64],
    items: &[u32],
    marks: &mut [u16; 256],
    p: Numbers,
    from: usize,
    node: usize,
    mark: u16,
) -> Argument
    requires { ((area : List ℕ) × CanTake area items.now marks.old p mark) × HasBits known.now p node × (from ≤ p.end) }
    ensures { (area : List ℕ) (n : Named) (adjacent : Bool) → CanTake area items.now marks.old p mark → TableTells known.now p.end node area items.now (matches_arg n adjacent) → Skips area items.now (matches_arg n adjacent) marks.old p from → TakesArg mark area items.now n adjacent marks.old p marks.new result }
{
    let key = take_table::find(known, marks, node, from, p.end as usize);
    use_argument(items, marks, p, key, mark)
}

// The text of an item, of whatever kind.
fn text_at(items: &[u32], i: usize) -> Part
    requires { 7 * i + 7 ≤ length items.now }
    ensures { result ≡ text_part (item_of (record_at items.now i)) }
{
    Part {
        offset: items[7 * i + 5],
        length: items[7 * i + 6],
    }
}

// Whether an operand is a PosWord.
fn is_strict(items: &[u32], i: usize) -> bool
    requires { (7 * i + 7 ≤ length items.now) × (operand_kind (get_or items.now (7 * i) 0) ≡ true) }
    ensures { result ≡ strict_item (item_of (record_at items.now i)) }
{
    items[7 * i] == 5
}

// A positional: the first present Word or PosWord in scope.
pub fn take_positional_word(
    items: &[u32],
    marks: &mut [u16; 256],
    p: Numbers,
    mark: u16,
) -> Positional
    requires { (area : List ℕ) × CanTake area items.now marks.old p mark }
    ensures { (area : List ℕ) → TakesPositional mark area items.now marks.old p marks.new result }
{
    take_positional_word_from(items, marks, p, p.start as usize, mark)
}

pub fn take_positional_word_from(
    items: &[u32],
    marks: &mut [u16; 256],
    p: Numbers,
    from: usize,
    mark: u16,
) -> Positional
    requires { (area : List ℕ) × CanTake area items.now marks.old p mark × Skips area items.now is_operand marks.old p from }
    ensures { (area : List ℕ) → TakesPositional mark area items.now marks.old p marks.new result }
{
    let end = p.end as usize;
    let place = take_search::find_operand(items, marks, from, end);
    if end <= place {
        return Positional {
            operand: None,
            numbers: p,
        };
    }
    let here = set_current(p, place as u32 + 1);
    let left = state_marks::remove(marks, here, place, mark);
    Positional {
        operand: Some(Operand {
            place,
            strict: is_strict(items, place),
            text: text_at(items, place),
        }),
        numbers: left,
    }
}

// A command: only the first present item in scope may be it. Refused, there is no current place.
pub fn take_cmd(
    sheet: &[u8],
    items: &[u32],
    marks: &mut [u16; 256],
    p: Numbers,
    word: &[u8],
    mark: u16,
) -> Flag
    requires { (sheet_fault sheet.now ≡ 0) × CanTake (sheet_area sheet.now) items.now marks.old p mark }
    ensures { TakesCmd mark (sheet_area sheet.now) items.now word.now marks.old p marks.new result }
{
    let start = p.start as usize;
    let end = p.end as usize;
    let place = state_marks::first_present(marks, start, end);
    if place < end && is_command(sheet, items, place, word) {
        let left = state_marks::remove(marks, p, place, mark);
        return Flag {
            found: true,
            numbers: set_current(left, place as u32 + 1),
        };
    }
    Flag {
        found: false,
        numbers: set_current(p, 0),
    }
}
