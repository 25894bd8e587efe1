// The evaluation of leaves: flags, arguments and positionals. Each is one try, and is told the mark of what it uses. One that is
// told where to search from answers the same: its caller knows that no earlier place is the one that is sought.
#![tactic(auto)]

ghost use Rattle.std.specs.Prelude.{◌≡◌, Bool, true, false, not, List, ℕ, ◌≤◌, ◌<◌, length, get_or};
ghost use Rattle.std.specs.Prelude.{if◌then◌else◌};
ghost use Rattle.rules.specs.Sheet.{sheet_area, sheet_fault};
ghost use Rattle.rules.specs.Value.{text, number};
ghost use Rattle.rules.specs.State.{parsed as mark_parsed};
ghost use Rattle.rules.specs.Tree.{Named, Flag, Argument, Positional, position_of};
ghost use Rattle.rules.specs.Take.{is_operand, matches_arg};
ghost use Rattle.rules.specs.Eval.{parse_text, wrong_position, placed_value};
ghost use Rattle.state_marks.specs.Lent.{Fine};
ghost use Rattle.take_search.specs.Items.{part_bytes};
ghost use Rattle.take_table.specs.Bits.{bit_at};
ghost use Rattle.take_search.specs.States.{CanTake};
ghost use Rattle.take.specs.Takes.{HasBits, Skips};
ghost use Rattle.eval_told.specs.Told.{Evaluates};
ghost use Rattle.eval_number.specs.Number.{option_of};
ghost use Rattle.eval_params.specs.Leaves.{Leaf, leaf_value, leaf_refusal, LeafTells};

use eval_told::Ran;
use split_arg::Part;
use state_marks::Numbers;
use take::Operand;

fn value(word: u32, numbers: Numbers) -> Ran
    ensures { result ≡ leaf_value word numbers }
{
    eval_told::value(1, 1, word, numbers)
}

fn refused(number: u32, place: u32, numbers: Numbers) -> Ran
    ensures { result ≡ leaf_refusal number place numbers }
{
    eval_told::refusal(number, place, 1, numbers)
}

// The bytes of a part. A take does not say that the part lies inside the sheet; behind the sheet's end there are no bytes.
fn text_bytes(sheet: &[u8], x: Part) -> &[u8]
    requires { sheet_fault sheet.now ≡ 0 }
    ensures { result.now ≡ part_bytes (sheet_area sheet.now) x }
{
    let area = wire::area_start(2, split_sheet::count(sheet));
    let from = (area + x.offset as usize).min(sheet.len());
    let to = (from + x.length as usize).min(sheet.len());
    &sheet[from..to]
}

// `parse_os_str`: a text is its place; refusal 25 is at the current place.
fn parsed(sheet: &[u8], place: usize, t: Part, numeric: bool, numbers: Numbers) -> Ran
    requires { (sheet_fault sheet.now ≡ 0) × (place < 256) }
    ensures { LeafTells (parse_text (if numeric then number else text) place (part_bytes (sheet_area sheet.now) t)) numbers result }
{
    if !numeric {
        return value(place as u32, numbers);
    }
    match eval_number::parse(text_bytes(sheet, t)) {
        Some(n) => value(n, numbers),
        None => refused(25, numbers.current, numbers),
    }
}

// 23 for a strict positional whose word is no PosWord, 24 for a non-strict one whose word is.
#[tactic(auto, unfolding(rules::specs::Eval::wrong_position, rules::specs::Tree::position_of))]
fn wrong_position(position: usize, strict: bool) -> Option<u32>
    ensures { wrong_position (position_of position) strict ≡ option_of result }
{
    match (position, strict) {
        (1, false) => Some(23),
        (2.., true) => Some(24),
        _ => None,
    }
}

// The value of a word that a positional took. In a wrong position it stays used.
fn placed(sheet: &[u8], word: Operand, position: usize, numeric: bool, numbers: Numbers) -> Ran
    requires { (sheet_fault sheet.now ≡ 0) × (word.place < 256) }
    ensures { LeafTells (placed_value (position_of position) (if numeric then number else text) (record { place = word.place; strict = word.strict; text = part_bytes (sheet_area sheet.now) word.text })) numbers result }
{
    match wrong_position(position, word.strict) {
        Some(wrong) => refused(wrong, word.place as u32 + 1, numbers),
        None => parsed(sheet, word.place, word.text, numeric, numbers),
    }
}

// Whether no item has the names of a node.
pub fn is_missing(known: &[u64], node: usize) -> bool
    requires { (node < 64) × (0 < length known.now) }
    ensures { result ≡ not (bit_at (get_or known.now 0 0) node) }
{
    take_table::is_absent(known, node)
}

// A flag. Which items have its names, the table `known` tells by the node. A switch that is missing is "no".
pub fn eval_flag(
    known: &[u64],
    marks: &mut [u16; 256],
    p: Numbers,
    node: usize,
    switch: bool,
    mark: u16,
) -> Ran
    requires { Fine marks.old p × (mark_parsed mark ≡ true) × HasBits known.now p node }
    ensures { (area words : List ℕ) (names : Named) → Leaf known.now area words marks.old p node mark names false → (n : ℕ) → Evaluates mark area words (Flag n names switch) marks.old p marks.new result }
{
    eval_flag_from(known, marks, p, p.start as usize, node, switch, mark)
}

pub fn eval_flag_from(
    known: &[u64],
    marks: &mut [u16; 256],
    p: Numbers,
    from: usize,
    node: usize,
    switch: bool,
    mark: u16,
) -> Ran
    requires { Fine marks.old p × (mark_parsed mark ≡ true) × HasBits known.now p node × (from ≤ p.end) }
    ensures { (area words : List ℕ) (names : Named) → Leaf known.now area words marks.old p node mark names false → Skips area words (matches_arg names false) marks.old p from → (n : ℕ) → Evaluates mark area words (Flag n names switch) marks.old p marks.new result }
{
    let taken = take::take_flag_known(known, marks, p, from, node, mark);
    let left = taken.numbers;
    if taken.found {
        return value(1, left);
    }
    if switch {
        return value(0, left);
    }
    refused(20, 0, left)
}

// An argument. A key that has no value behind it is refused with 22.
pub fn eval_argument(
    known: &[u64],
    sheet: &[u8],
    items: &[u32],
    marks: &mut [u16; 256],
    p: Numbers,
    node: usize,
    numeric: bool,
    mark: u16,
) -> Ran
    requires { (sheet_fault sheet.now ≡ 0) × HasBits known.now p node × ((names : Named) × (adjacent : Bool) × Leaf known.now (sheet_area sheet.now) items.now marks.old p node mark names adjacent) }
    ensures { (names : Named) (adjacent : Bool) → Leaf known.now (sheet_area sheet.now) items.now marks.old p node mark names adjacent → (n : ℕ) → Evaluates mark (sheet_area sheet.now) items.now (Argument n names (if numeric then number else text) adjacent) marks.old p marks.new result }
{
    eval_argument_from(
        known,
        sheet,
        items,
        marks,
        p,
        p.start as usize,
        node,
        numeric,
        mark,
    )
}

pub fn eval_argument_from(
    known: &[u64],
    sheet: &[u8],
    items: &[u32],
    marks: &mut [u16; 256],
    p: Numbers,
    from: usize,
    node: usize,
    numeric: bool,
    mark: u16,
) -> Ran
    requires { (sheet_fault sheet.now ≡ 0) × HasBits known.now p node × ((names : Named) × (adjacent : Bool) × Leaf known.now (sheet_area sheet.now) items.now marks.old p node mark names adjacent × Skips (sheet_area sheet.now) items.now (matches_arg names adjacent) marks.old p from) }
    ensures { (names : Named) (adjacent : Bool) → Leaf known.now (sheet_area sheet.now) items.now marks.old p node mark names adjacent → Skips (sheet_area sheet.now) items.now (matches_arg names adjacent) marks.old p from → (n : ℕ) → Evaluates mark (sheet_area sheet.now) items.now (Argument n names (if numeric then number else text) adjacent) marks.old p marks.new result }
{
    let taken = take::take_arg_known(known, items, marks, p, from, node, mark);
    let left = taken.numbers;
    match taken.value {
        Ok(None) => refused(20, 0, left),
        Ok(Some(word)) => parsed(sheet, word.place, word.text, numeric, left),
        Err(e) => refused(22, e.key as u32 + 1, left),
    }
}

// A positional. `position` is 0 for any word, 1 for a strict one, else for one that is not strict.
pub fn eval_positional(
    sheet: &[u8],
    items: &[u32],
    marks: &mut [u16; 256],
    p: Numbers,
    position: usize,
    numeric: bool,
    mark: u16,
) -> Ran
    requires { (sheet_fault sheet.now ≡ 0) × CanTake (sheet_area sheet.now) items.now marks.old p mark }
    ensures { (n : ℕ) → Evaluates mark (sheet_area sheet.now) items.now (Positional n (position_of position) (if numeric then number else text)) marks.old p marks.new result }
{
    eval_positional_from(
        sheet,
        items,
        marks,
        p,
        p.start as usize,
        position,
        numeric,
        mark,
    )
}

pub fn eval_positional_from(
    sheet: &[u8],
    items: &[u32],
    marks: &mut [u16; 256],
    p: Numbers,
    from: usize,
    position: usize,
    numeric: bool,
    mark: u16,
) -> Ran
    requires { (sheet_fault sheet.now ≡ 0) × CanTake (sheet_area sheet.now) items.now marks.old p mark × Skips (sheet_area sheet.now) items.now is_operand marks.old p from }
    ensures { (n : ℕ) → Evaluates mark (sheet_area sheet.now) items.now (Positional n (position_of position) (if numeric then number else text)) marks.old p marks.new result }
{
    let taken = take::take_positional_word_from(items, marks, p, from, mark);
    let left = taken.numbers;
    match taken.operand {
        None => refused(20, 0, left),
        Some(word) => placed(sheet, word, position, numeric, left),
    }
}
