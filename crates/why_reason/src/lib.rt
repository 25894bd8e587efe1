// The first of seven reasons whose fact holds of a place that was left over.
#![tactic(auto)]

ghost use Rattle.std.specs.Prelude.{◌≡◌, ◌<◌, length};
ghost use Rattle.why_letter.specs.Withdrawn.{CanExplain};
ghost use Rattle.why_reason.specs.Reasons.{kind_number, CanReason, LeftAt, NameTold, ValueTold, OperandTold, ItemTold, FindsReason};

use split_arg::Item;
use state_marks::{is_parsed, winner_of};

// The reasons, by their numbers.
#[derive(Clone, Copy)]
pub enum ReasonKind {
    LostChoice = 1,
    GivenEarlier = 2,
    KeyUsed = 3,
    Unnamed = 4,
    NoPositional = 5,
    UnknownLetter = 6,
    NoneOfThese = 7,
}

impl ReasonKind {
    pub fn number(self) -> u32
        ensures { result ≡ kind_number self }
    {
        self as u32
    }
}

// A reason by its kind, and its detail.
#[derive(Clone, Copy)]
pub struct Reason {
    pub kind: ReasonKind,
    pub detail: u32,
}

fn tell(kind: ReasonKind, detail: u32) -> Reason
    ensures { result ≡ record { kind = kind; detail = detail } }
{
    Reason { kind, detail }
}

// The fourth: an option that no flag and no argument of the form names.
fn for_name(form: &[u8], codes: &[u32], sheet: &[u8], items: &[u32], i: usize) -> Reason
    requires { CanExplain form.now codes.now sheet.now items.now i }
    ensures { NameTold form.now sheet.now items.now i result }
{
    if why_names::is_named(form, codes, sheet, items, i) {
        return tell(ReasonKind::NoneOfThese, 0);
    }
    tell(ReasonKind::Unnamed, 0)
}

// The third: a value whose key is used.
fn for_value(marks: &[u16], i: usize) -> Reason
    requires { i < length marks.now }
    ensures { ValueTold marks.now i result }
{
    if i > 0 && is_parsed(marks[i - 1]) {
        return tell(ReasonKind::KeyUsed, 0);
    }
    tell(ReasonKind::NoneOfThese, 0)
}

// The fifth and the sixth: a word that nobody takes, or that looks like options.
fn for_operand(form: &[u8], codes: &[u32], sheet: &[u8], items: &[u32], i: usize) -> Reason
    requires { CanExplain form.now codes.now sheet.now items.now i }
    ensures { OperandTold form.now sheet.now items.now i result }
{
    if !why_names::has_positional(form) {
        return tell(ReasonKind::NoPositional, 0);
    }
    let unknown = why_letter::unknown_letter(form, codes, sheet, items, i);
    let Some(letter) = unknown else {
        return tell(ReasonKind::NoneOfThese, 0);
    };
    tell(ReasonKind::UnknownLetter, letter)
}

// The third on, each of which speaks of other items.
fn for_item(
    form: &[u8],
    codes: &[u32],
    sheet: &[u8],
    items: &[u32],
    marks: &[u16],
    i: usize,
) -> Reason
    requires { CanReason form.now codes.now sheet.now items.now marks.now i }
    ensures { ItemTold form.now sheet.now items.now marks.now i result }
{
    let item = split_arg::read_item(items, i);
    match item {
        Item::Short(_, _, _) | Item::Long(_, _, _) => for_name(form, codes, sheet, items, i),
        Item::ArgWord(_) => for_value(marks, i),
        Item::Word(_) | Item::PosWord(_) => for_operand(form, codes, sheet, items, i),
    }
}

// The first reason whose fact holds of place i.
pub fn find_reason(form: &[u8], sheet: &[u8], items: &[u32], marks: &[u16], i: usize) -> Reason
    requires { LeftAt form.now sheet.now items.now marks.now i }
    ensures { FindsReason form.now sheet.now items.now marks.now i result }
{
    let winner = winner_of(marks[i]);
    let earlier = take_once::earlier(sheet, items, i);
    if let Some(w) = winner {
        return tell(ReasonKind::LostChoice, w + 1);
    }
    if earlier != 0 {
        return tell(ReasonKind::GivenEarlier, earlier as u32);
    }
    let codes = form_codes::codes_of(form);
    for_item(form, &codes, sheet, items, marks, i)
}
