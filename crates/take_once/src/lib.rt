// `only_once`: the nearest earlier place whose item has the same name.
#![tactic(auto)]

ghost use Rattle.std.specs.Prelude.{◌≡◌, List, ℕ, ◌+◌, ◌*◌, ◌≤◌, length};
ghost use Rattle.std.proofs.Math.Option.{some};
ghost use Rattle.rules.specs.Sheet.{sheet_area};
ghost use Rattle.rules.specs.Split.{Item as RulesItem};
ghost use Rattle.rules.specs.State.{match_short, match_long};
ghost use Rattle.rules.specs.Calls.{item_from};
ghost use Rattle.rules.specs.WhyAnswered.{same_named};
ghost use Rattle.split_arg.specs.Items.{record_at};
ghost use Rattle.take_search.specs.Items.{part_bytes, HasPart};
ghost use Rattle.take_search.specs.Search.{HasItem};
ghost use Rattle.take_once.specs.Once.{HasPlace, Earlier};

use split_arg::{Item, Part};

// Whether record j is a Short with this character.
fn is_short(items: &[u32], j: usize, letter: u32) -> bool
    requires { 7 * j + 7 ≤ length items.now }
    ensures { (area : List ℕ) (y : RulesItem) → item_from area (record_at items.now j) ≡ some y → result ≡ match_short letter y }
{
    let item = split_arg::read_item(items, j);
    let Item::Short(other, _, _) = item else {
        return false;
    };
    other == letter
}

// Whether record j is a Long with this name.
fn is_long(sheet: &[u8], items: &[u32], j: usize, name: Part) -> bool
    requires { HasItem sheet.now items.now j × HasPart sheet.now name }
    ensures { (y : RulesItem) → item_from (sheet_area sheet.now) (record_at items.now j) ≡ some y → result ≡ match_long (part_bytes (sheet_area sheet.now) name) y }
{
    let item = split_arg::read_item(items, j);
    let Item::Long(other, _, _) = item else {
        return false;
    };
    take_search::part_bytes(sheet, other) == take_search::part_bytes(sheet, name)
}

// Whether items i and j have the same name.
fn same_name(sheet: &[u8], items: &[u32], i: usize, j: usize) -> bool
    requires { HasItem sheet.now items.now i × HasItem sheet.now items.now j }
    ensures { (x y : RulesItem) → item_from (sheet_area sheet.now) (record_at items.now i) ≡ some x → item_from (sheet_area sheet.now) (record_at items.now j) ≡ some y → result ≡ same_named x y }
{
    let item = split_arg::read_item(items, i);
    match item {
        Item::Short(letter, _, _) => is_short(items, j, letter),
        Item::Long(name, _, _) => is_long(sheet, items, j, name),
        Item::ArgWord(_) | Item::Word(_) | Item::PosWord(_) => false,
    }
}

// The nearest earlier place with the same name, plus 1, or 0 for none, which `place_of` of the rules reads.
pub fn earlier(sheet: &[u8], items: &[u32], place: usize) -> usize
    requires { HasPlace sheet.now items.now place }
    ensures { Earlier (sheet_area sheet.now) items.now place result }
{
    for j in (0..place).rev() {
        if same_name(sheet, items, place, j) {
            return j + 1;
        }
    }
    0
}
