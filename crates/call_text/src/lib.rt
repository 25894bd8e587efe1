// The text of an answer word: a part of the sheet or of the form, handed back and not copied.
#![tactic(auto)]

ghost use Rattle.std.specs.Prelude.{◌≡◌, ◌<◌, ◌^◌};
ghost use Rattle.std.proofs.Math.Option.{some};
ghost use Rattle.rules.specs.Accept.{Accepted};
ghost use Rattle.rules.specs.Calls.{item_from, record_text};
ghost use Rattle.rules.specs.Form.{read_form};
ghost use Rattle.rules.specs.Reported.{number_of, place_told};
ghost use Rattle.rules.specs.Sheet.{sheet_area};
ghost use Rattle.rules.specs.Split.{Item as RulesItem};
ghost use Rattle.rules.specs.Take.{text_of};
ghost use Rattle.split_arg.specs.Items.{record_at};
ghost use Rattle.form_layout.specs.Layout.{HasName};
ghost use Rattle.take_search.specs.Search.{HasItem};
ghost use Rattle.call_text.specs.Text.{refused_part, item_part, record_part, FindsText, TellsText, PartOf, TextOf};

use rules::{Refusal, RefusedAt};

// Which slice holds the text (0 the sheet, 1 the form), and where in that slice. Refused, these three are 0. A place is
// itself plus 1, or 0 for none.
#[repr(C)]
#[derive(Clone, Copy)]
pub struct TextPart {
    pub number: u32,
    pub place: u32,
    pub source: u32,
    pub offset: u32,
    pub length: u32,
}

// Refused, with no place.
fn refused(e: Refusal) -> TextPart
    ensures { result ≡ refused_part (number_of e) 0 }
{
    TextPart {
        number: e.number(),
        place: 0,
        source: 0,
        offset: 0,
        length: 0,
    }
}

// Refused at a place, if it has one.
fn refused_at(e: RefusedAt) -> TextPart
    requires { place_told e.place < 2 ^ 32 }
    ensures { result ≡ refused_part (number_of e.refusal) (place_told e.place) }
{
    let r = e.told();
    TextPart {
        number: r.number,
        place: r.place,
        source: 0,
        offset: 0,
        length: 0,
    }
}

// The text of item i.
fn item_part(sheet: &[u8], items: &[u32], i: usize) -> TextPart
    requires { HasItem sheet.now items.now i }
    ensures { (x : RulesItem) → item_from (sheet_area sheet.now) (record_at items.now i) ≡ some x → FindsText sheet.now 0 (text_of x) (some (item_part sheet.now items.now i)) result }
{
    let area = wire::area_start(2, split_sheet::count(sheet));
    let at = 7 * i;
    let offset = area + items[at + 5] as usize;
    TextPart {
        number: 0,
        place: 0,
        source: 0,
        offset: offset as u32,
        length: items[at + 6],
    }
}

// The bytes of name record k, if its type is text.
fn record_part(form: &[u8], k: usize) -> TextPart
    requires { HasName form.now k }
    ensures { (a : Accepted) → a.form ≡ read_form form.now → TellsText form.now 1 (record_text a k) (record_part form.now a k) result }
{
    let x = form_layout::name_at(form, k);
    if x.kind != 2 {
        return refused(Refusal::NotThere);
    }
    let offset = form_layout::area_at(form) + x.offset;
    TextPart {
        number: 0,
        place: 0,
        source: 1,
        offset: offset as u32,
        length: x.size as u32,
    }
}

// Where the text of an answer word stands: that of the item at a place, or from 256 on that of a name record.
pub fn text_part(form: &[u8], sheet: &[u8], items: &[u32], word: u32) -> TextPart
    ensures { PartOf form.now sheet.now items.now word result }
{
    if let Err(e) = form_check::check(form) {
        return refused_at(e);
    }
    let count = match call_table::given(sheet, items) {
        Ok(count) => count,
        Err(e) => return refused(e),
    };
    let n = word as usize;
    if n < 256 {
        if count <= n {
            return refused(Refusal::NotThere);
        }
        return item_part(sheet, items, n);
    }
    let k = n - 256;
    if form_layout::name_count(form) <= k {
        return refused(Refusal::NotThere);
    }
    record_part(form, k)
}

// The text itself. Refused, it is empty, and `refusal` and `place` are the number and the place; else both become 0.
pub fn text<'a>(
    form: &'a [u8],
    sheet: &'a [u8],
    items: &[u32],
    word: u32,
    refusal: &mut u32,
    place: &mut u32,
) -> &'a [u8]
    ensures { TextOf form.now sheet.now items.now word refusal.new place.new result.now }
{
    let x = text_part(form, sheet, items, word);
    *refusal = x.number;
    *place = x.place;
    let from = x.offset as usize;
    let to = from + x.length as usize;
    if x.source == 0 {
        return &sheet[from..to];
    }
    &form[from..to]
}
