// The names of a table are tried in order: entry by entry, in each the long names before the short ones. The first that is taken
// ends it.
#![tactic(auto)]

ghost use Rattle.std.specs.Prelude.{◌≡◌, List, ◌+◌, ◌<◌, take, drop};
ghost use Rattle.rules.specs.Outcome.{ok};
ghost use Rattle.rules.specs.Sheet.{sheet_area, sheet_fault};
ghost use Rattle.rules.specs.State.{command_mark};
ghost use Rattle.rules.specs.Commands.{Command, entry_names, read_command, candidates_of, table_in};
ghost use Rattle.take_search.specs.States.{CanTake};
ghost use Rattle.command_layout.specs.Tables.{HasCommands};
ghost use Rattle.command_names.specs.Trying.{CanTry, type_candidates, none_taken, tried_behind, Tries, TriesNames};

use state_marks::{COMMAND, Numbers};

// `entry` is the number of the entry whose name was taken plus 1, or 0, which `place_of` of the rules reads; `comparisons` is how many
// names were compared.
#[derive(Clone, Copy)]
pub struct Tried {
    pub entry: u32,
    pub comparisons: u32,
    pub numbers: Numbers,
}

// No name was taken.
fn untaken(comparisons: u32, numbers: Numbers) -> Tried
    ensures { result ≡ none_taken comparisons numbers }
{
    Tried {
        entry: 0,
        comparisons,
        numbers,
    }
}

// What was tried behind n comparisons.
fn behind(n: u32, t: Tried) -> Tried
    requires { n + t.comparisons < 4294967296 }
    ensures { result ≡ tried_behind n t }
{
    Tried {
        comparisons: n + t.comparisons,
        ..t
    }
}

// Name record k of entry `number`, if it is of this kind.
fn try_name(
    entry: &[u8],
    sheet: &[u8],
    items: &[u32],
    marks: &mut [u16; 256],
    p: Numbers,
    number: usize,
    kind: u32,
    k: usize,
) -> Tried
    requires { CanTry entry.now sheet.now items.now marks.old p number × (k < entry_names entry.now) }
    ensures { Tries (sheet_area sheet.now) items.now (type_candidates kind number (read_command entry.now).area (take 1 (drop k (read_command entry.now).names))) 1 marks.old p marks.new result }
{
    let name = command_layout::name_at(entry, k);
    if name.kind != kind {
        return untaken(0, p);
    }
    let word = form_names::bytes(command_layout::area_of(entry), name);
    let taken = take::take_cmd(sheet, items, marks, p, word, COMMAND);
    if taken.found {
        return Tried {
            entry: number as u32 + 1,
            comparisons: 1,
            numbers: taken.numbers,
        };
    }
    untaken(1, taken.numbers)
}

// The names of one kind, in record order.
fn try_kind(
    entry: &[u8],
    sheet: &[u8],
    items: &[u32],
    marks: &mut [u16; 256],
    p: Numbers,
    number: usize,
    kind: u32,
) -> Tried
    requires { CanTry entry.now sheet.now items.now marks.old p number }
    ensures { Tries (sheet_area sheet.now) items.now (type_candidates kind number (read_command entry.now).area (read_command entry.now).names) 128 marks.old p marks.new result }
{
    let n = command_layout::name_count(entry);
    let mut s = p;
    let mut comparisons: u32 = 0;
    for k in 0..n {
        let one = try_name(entry, sheet, items, marks, s, number, kind, k);
        if one.entry != 0 {
            return behind(comparisons, one);
        }
        comparisons += one.comparisons;
        s = one.numbers;
    }
    untaken(comparisons, s)
}

// The names of entry `number`: the long ones, then the short ones. Two calls: a loop over [1, 0] would carry the state and the count
// that they hand on.
fn try_entry(
    entry: &[u8],
    sheet: &[u8],
    items: &[u32],
    marks: &mut [u16; 256],
    p: Numbers,
    number: usize,
) -> Tried
    requires { CanTry entry.now sheet.now items.now marks.old p number }
    ensures { Tries (sheet_area sheet.now) items.now (candidates_of number (read_command entry.now)) 256 marks.old p marks.new result }
{
    let long = try_kind(entry, sheet, items, marks, p, number, 1);
    if long.entry != 0 {
        return long;
    }
    let short = try_kind(entry, sheet, items, marks, long.numbers, number, 0);
    behind(long.comparisons, short)
}

// The names of all entries, in table order. The loop is `try_kind`'s, but its steps take an entry and not a record: a closure for them
// would change the marks, and its invariant would be longer than the loop.
pub fn try_names(
    table: &[u8],
    sheet: &[u8],
    items: &[u32],
    marks: &mut [u16; 256],
    p: Numbers,
) -> Tried
    requires { HasCommands table.now × (sheet_fault sheet.now ≡ 0) × CanTake (sheet_area sheet.now) items.now marks.old p command_mark }
    ensures { (cs : List Command) → table_in table.now ≡ ok cs → TriesNames (sheet_area sheet.now) items.now cs marks.old p marks.new result }
{
    let n = command_layout::entry_count(table);
    let mut s = p;
    let mut comparisons: u32 = 0;
    for k in 0..n {
        let one = try_entry(
            command_layout::entry_at(table, k),
            sheet,
            items,
            marks,
            s,
            k,
        );
        if one.entry != 0 {
            return behind(comparisons, one);
        }
        comparisons += one.comparisons;
        s = one.numbers;
    }
    untaken(comparisons, s)
}
