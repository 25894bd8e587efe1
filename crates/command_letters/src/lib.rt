// From a table of commands and a checked sheet to items: the letters that are looked up are those of all forms together.
#![tactic(auto)]

ghost use Rattle.std.specs.Prelude.{◌≡◌, List, ◌*◌, ◌≤◌, ◌<◌, length, take, replicate};
ghost use Rattle.rules.specs.Outcome.{ok};
ghost use Rattle.rules.specs.Form.{read_form};
ghost use Rattle.rules.specs.Accept.{Accepted};
ghost use Rattle.rules.specs.Commands.{Command, entry_count, table_in, forms_in, table_letters};
ghost use Rattle.form_layout.specs.Layout.{GoodNames};
ghost use Rattle.form_letters.specs.Letters.{letters_by_name};
ghost use Rattle.split_args.specs.Construct.{SheetAndRoom, SplitEnds};
ghost use Rattle.command_layout.specs.Tables.{HasForms};
ghost use Rattle.command_letters.specs.Gather.{put_in, opened, HasRoom, Holds, Inserted, Gathered};

use form_letters::Counts;
use split_arg::Letters;
use split_args::Ended;

// Room for the letters of 32 forms with 128 names each, and for those of a table with few: 2 KB to clear, not 16.
const LETTERS: usize = 4096;

const FEW_LETTERS: usize = 512;

const FEW_FORMS: usize = 4;

pub fn no_letters() -> [u32; LETTERS]
    ensures { result ≡ replicate 4096 0 }
{
    [0u32; LETTERS]
}

// The letter goes to a place, and the words from there on, below n, go up by one.
fn store(out: &mut [u32], at: usize, n: usize, letter: u32)
    requires { (at ≤ n) × (n < length out.old) }
    ensures { out.new ≡ opened out.old at n letter }
{
    out[at..=n].rotate_right(1);
    out[at] = letter;
}

// The letter goes among the first n, in its order, unless it is there already. How many there are then.
fn insert(out: &mut [u32], n: usize, letter: u32) -> usize
    requires { HasRoom out.old n 1 }
    ensures { Holds out.old (put_in letter (take n out.old)) out.new result }
{
    let at = split_arg::place(&out[..n], letter);
    if at < n && out[at] == letter {
        return n;
    }
    store(out, at, n, letter);
    n + 1
}

// The same for each of these letters.
fn insert_all(out: &mut [u32], n: usize, letters: &[u32]) -> usize
    requires { HasRoom out.old n (length letters.now) }
    ensures { Inserted out.old n letters.now out.new result }
{
    let mut count = n;
    for letter in letters {
        count = insert(out, count, *letter);
    }
    count
}

// The letters of one form go among those of the forms before it. Flags and arguments by two calls: a loop over both kinds would only
// index the pairs.
fn gather_form(form: &[u8], flags: &mut [u32], n: usize, arguments: &mut [u32], m: usize) -> Counts
    requires { GoodNames form.now × HasRoom flags.old n 128 × HasRoom arguments.old m 128 }
    ensures inserted { Inserted flags.old n (letters_by_name (read_form form.now) 1) flags.new result.flags }
    ensures inserted_2 { Inserted arguments.old m (letters_by_name (read_form form.now) 2) arguments.new result.arguments }
{
    let mut codes = form_codes::no_codes();
    form_codes::codes(form, &mut codes);
    let mut its_flags = form_codes::no_codes();
    let mut its_arguments = form_codes::no_codes();
    let counts = form_letters::letters(form, &codes, &mut its_flags, &mut its_arguments);
    Counts {
        flags: insert_all(flags, n, &its_flags[..counts.flags]),
        arguments: insert_all(arguments, m, &its_arguments[..counts.arguments]),
    }
}

// The letters of all forms of a table: at most 32, each with at most 128 names.
pub fn gather(table: &[u8], flags: &mut [u32], arguments: &mut [u32]) -> Counts
    requires { HasForms table.now × (128 * entry_count table.now ≤ length flags.old) × (128 * entry_count table.now ≤ length arguments.old) }
    ensures gathered { Gathered table.now 1 flags.old flags.new result.flags }
    ensures gathered_2 { Gathered table.now 2 arguments.old arguments.new result.arguments }
{
    let mut counts = Counts {
        flags: 0,
        arguments: 0,
    };
    for k in 0..command_layout::entry_count(table) {
        let form = command_layout::command_form(table, k);
        counts = gather_form(form, flags, counts.flags, arguments, counts.arguments);
    }
    counts
}

// The same as `split`, with the letters worked out in room for N of a kind.
fn split_within<const N: usize>(table: &[u8], sheet: &[u8], items: &mut [u32]) -> Ended
    requires { HasForms table.now × SheetAndRoom sheet.now items.old × (128 * entry_count table.now ≤ N) × (N ≤ 4096) }
    ensures { (cs : List Command) (fs : List Accepted) → table_in table.now ≡ ok cs → forms_in cs ≡ ok fs → SplitEnds (table_letters fs) sheet.now (length items.old) items.new result }
{
    let mut flags = [0u32; N];
    let mut arguments = [0u32; N];
    let counts = gather(table, &mut flags, &mut arguments);
    let letters = Letters {
        flags: &flags[..counts.flags],
        arguments: &arguments[..counts.arguments],
    };
    split_args::construct(sheet, &letters, items)
}

// The letters are worked out only where one can be looked up.
pub fn split(table: &[u8], sheet: &[u8], items: &mut [u32]) -> Ended
    requires { HasForms table.now × SheetAndRoom sheet.now items.old }
    ensures { (cs : List Command) (fs : List Accepted) → table_in table.now ≡ ok cs → forms_in cs ≡ ok fs → SplitEnds (table_letters fs) sheet.now (length items.old) items.new result }
{
    if split_args::all_plain(sheet) {
        let none = Letters {
            flags: &[],
            arguments: &[],
        };
        return split_args::construct(sheet, &none, items);
    }
    if command_layout::entry_count(table) <= FEW_FORMS {
        return split_within::<FEW_LETTERS>(table, sheet, items);
    }
    split_within::<LETTERS>(table, sheet, items)
}
