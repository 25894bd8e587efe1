// The lowest place at which an argument that looks like options is a word.
#![tactic(auto)]

ghost use Rattle.std.specs.Prelude.{◌≡◌, ◌≤◌};
ghost use Rattle.wire.specs.Wire.{area_start};
ghost use Rattle.rules.specs.Sheet.{argument_count};
ghost use Rattle.careful_words.specs.Looking.{HasLine, BeginsRecord, WordLooks, LooksAt, Finds};

// The kind of a Word. A record has the offset and the length of its text in its last two words.
const WORD: u32 = 4;

// The words of a record.
const RECORD: usize = 7;

// Whether the record at a word is a Word that begins with a dash and is longer than `-`. It reads no more of the record than it needs:
// most items are done with after a word or two. Three returns: joined by `&&`, the bounds of the last read would be told at each test.
fn looks_like_options(sheet: &[u8], area: usize, items: &[u32], at: usize, count: usize) -> bool
    requires { HasLine sheet.now items.now count × BeginsRecord count at × (area ≡ area_start 2 (argument_count sheet.now)) }
    ensures { WordLooks sheet.now items.now count at result }
{
    if items[at] != WORD {
        return false;
    }
    if items[at + 6] < 2 {
        return false;
    }
    sheet[area + items[at + 5] as usize] == b'-'
}

// Whether it is all of its argument too.
fn is_misread(sheet: &[u8], area: usize, items: &[u32], at: usize, count: usize) -> bool
    requires { HasLine sheet.now items.now count × BeginsRecord count at × (area ≡ area_start 2 (argument_count sheet.now)) }
    ensures { LooksAt sheet.now items.now count at result }
{
    looks_like_options(sheet, area, items, at, count) && !why_letter::is_rest(items, at / RECORD)
}

// The lowest place of such an item from a place on, or the count. The records are gone through by their first words: a record's place
// is not multiplied at each.
pub fn first_misread(sheet: &[u8], items: &[u32], from: usize, count: usize) -> usize
    requires { HasLine sheet.now items.now count × (from ≤ 256) }
    ensures { Finds sheet.now items.now from count result }
{
    let area = wire::area_start(2, split_sheet::count(sheet));
    let mut at = RECORD * from;
    for place in from..count {
        if is_misread(sheet, area, items, at, count) {
            return place;
        }
        at += RECORD;
    }
    count
}
