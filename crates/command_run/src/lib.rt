// The run of a table of commands: the first word says which form runs. It asks nothing of its input.
#![tactic(auto)]

ghost use Rattle.std.specs.Prelude.{◌≡◌, List, length};
ghost use Rattle.std.proofs.Math.Option.{some};
ghost use Rattle.std.proofs.Math.ListN.{get_elem?};
ghost use Rattle.rules.specs.Outcome.{ok};
ghost use Rattle.rules.specs.Sheet.{sheet_area};
ghost use Rattle.rules.specs.Accept.{Accepted};
ghost use Rattle.rules.specs.Commands.{Command, table_in, forms_in, run_commands};
ghost use Rattle.split_args.specs.Construct.{Unmarked};
ghost use Rattle.run.specs.Runner.{RunsListed};
ghost use Rattle.command_run.specs.Commanded.{commands_answer, commanded_as, CheckedTable};
ghost use Rattle.command_run.specs.Chosen.{LineSplit, FormBegins};

use rules::{Refusal, RefusedAt, State};
use run_fields::Reached;
use state_marks::Numbers;

// How the run of a table ended, and the state that it left. Places and entries are themselves plus 1, or 0 for none.
#[repr(C)]
#[derive(Clone, Copy)]
pub struct CommandAnswer {
    pub number: u32,
    pub place: u32,
    pub tries: u32,
    pub words: u32,
    pub comparisons: u32,
    pub entry: u32,
    pub state: State,
}

// The same with its numbers apart from the marks.
#[derive(Clone, Copy)]
pub struct Commanded {
    pub comparisons: u32,
    pub entry: u32,
    pub reached: Reached,
}

fn told(comparisons: u32, entry: u32, reached: Reached) -> Commanded
    ensures { result ≡ record { comparisons = comparisons; entry = entry; reached = reached } }
{
    Commanded {
        comparisons,
        entry,
        reached,
    }
}

// The fields of form k on the items.
fn run_chosen(
    table: &[u8],
    k: usize,
    sheet: &[u8],
    items: &[u32],
    marks: &mut [u16; 256],
    p: Numbers,
    answers: &mut [u32],
    list: &mut [u32],
) -> Reached
    requires { FormBegins table.now k sheet.now items.now marks.old p answers.old list.old }
    ensures { (cs : List Command) (fs : List Accepted) (a : Accepted) → table_in table.now ≡ ok cs → forms_in cs ≡ ok fs → get_elem? fs k ≡ some a → RunsListed (sheet_area sheet.now) items.now 0 a.fields marks.old p marks.new answers.old answers.new list.old list.new result }
{
    let form = command_layout::command_form(table, k);
    let mut codes = form_codes::no_codes();
    form_codes::codes(form, &mut codes);
    run::run_items(form, &codes, sheet, items, marks, p, 0, answers, list)
}

// The names are tried, and the form of the one that is taken runs. A command word stands at place 0, so the scope from there to
// the end is the one that the line has.
fn run_table(
    table: &[u8],
    sheet: &[u8],
    items: &[u32],
    marks: &mut [u16; 256],
    p: Numbers,
    answers: &mut [u32],
    list: &mut [u32],
) -> Commanded
    requires { LineSplit table.now sheet.now items.now marks.old p answers.old list.old }
    ensures { commands_answer (run_commands table.now sheet.now (length items.now) (length answers.old) (length list.old)) ≡ commanded_as result marks.new items.now answers.new list.new }
{
    let tried = command_names::try_names(table, sheet, items, marks, p);
    let left = tried.numbers;
    if tried.entry == 0 {
        return told(
            tried.comparisons,
            0,
            run_fields::refused(Refusal::NoCommand.number(), 0, 0, 0, left),
        );
    }
    let k = (tried.entry - 1) as usize;
    let ran = run_chosen(table, k, sheet, items, marks, left, answers, list);
    told(tried.comparisons, tried.entry, ran)
}

// A table whose forms are accepted, a checked sheet, and room in the slices: the items by the letters of all forms, then the names.
fn run_checked(
    table: &[u8],
    sheet: &[u8],
    items: &mut [u32],
    answers: &mut [u32],
    list: &mut [u32],
    marks: &mut [u16; 256],
) -> Commanded
    requires { CheckedTable table.now sheet.now items.old answers.old list.old × Unmarked marks.old }
    ensures { commands_answer (run_commands table.now sheet.now (length items.old) (length answers.old) (length list.old)) ≡ commanded_as result marks.new items.new answers.new list.new }
{
    wire::fill(answers, 0, answers.len(), 0);
    wire::fill(list, 0, list.len(), 0);
    let split = command_letters::split(table, sheet, items);
    let p = split_args::begin(split.count, split.marker, marks);
    if split.number != 0 {
        return told(
            0,
            0,
            run_fields::refused(split.number, split.place, 0, 0, p),
        );
    }
    run_table(table, sheet, items, marks, p, answers, list)
}

// The run over marks that are 0. A table's refusals come before those of the line.
pub fn run_input(
    table: &[u8],
    sheet: &[u8],
    items: &mut [u32],
    answers: &mut [u32],
    list: &mut [u32],
    marks: &mut [u16; 256],
) -> Commanded
    requires { Unmarked marks.old }
    ensures { commands_answer (run_commands table.now sheet.now (length items.old) (length answers.old) (length list.old)) ≡ commanded_as result marks.new items.new answers.new list.new }
{
    if let Err(e) = command_check::check(table) {
        let entry = e.told().entry;
        let none = run::refuse_input(e.fault, items, answers, list);
        return told(0, entry, none);
    }
    if let Err(e) = run::line_fault(sheet, items.len(), answers.len(), list.len()) {
        let none = run::refuse_input(RefusedAt::from(e), items, answers, list);
        return told(0, 0, none);
    }
    run_checked(table, sheet, items, answers, list, marks)
}

// A table and a sheet, to items, answer words, a list of what is missing, and a state. The state is put together once, here.
pub fn run_commands(
    table: &[u8],
    sheet: &[u8],
    items: &mut [u32],
    answers: &mut [u32],
    list: &mut [u32],
) -> CommandAnswer
    ensures { commands_answer (run_commands table.now sheet.now (length items.old) (length answers.old) (length list.old)) ≡ some (record { answer = result; items = items.new; answers = answers.new; list = list.new }) }
{
    let mut marks = split_args::unmarked();
    let all = run_input(table, sheet, items, answers, list, &mut marks);
    let reached = all.reached;
    let left = reached.numbers;
    CommandAnswer {
        number: reached.number,
        place: reached.place,
        tries: reached.tries,
        words: reached.words,
        comparisons: all.comparisons,
        entry: all.entry,
        state: state_marks::joined(marks, left),
    }
}
