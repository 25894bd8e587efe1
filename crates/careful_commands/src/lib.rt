// A careful run of a table of commands: as the run, but an argument that looks like options is not taken for a word, unless it is the
// command word.
#![tactic(auto)]

ghost use Rattle.std.specs.Prelude.{◌≡◌, length};
ghost use Rattle.std.proofs.Math.Option.{some};
ghost use Rattle.rules_careful.specs.CarefulCommands.{careful_commands};
ghost use Rattle.careful_commands.specs.Looked.{MisreadPlace, MisreadTold, CanLookAtTable, LooksAtTableRun, careful_commands_answer};

use careful::{Looked, as_run};
use command_run::Commanded;
use form_letters::Counts;
use rules::{Refusal, State};
use run_fields::Reached;
use split_arg::{Item, Letters};
use wire::wide;

// The command word stands at place 0, and is not looked at.
const FIRST: usize = 1;

// As the answer of a table's run, and why a word is one: the letter that no option of any form has plus 1, or 0 where its name is not
// UTF-8.
#[repr(C)]
#[derive(Clone, Copy)]
pub struct CarefulCommandAnswer {
    pub number: u32,
    pub place: u32,
    pub tries: u32,
    pub words: u32,
    pub comparisons: u32,
    pub entry: u32,
    pub letter: u32,
    pub state: State,
}

// The letter of the word at a place. The letters of all forms are gathered again: only a line that is refused pays for it.
fn word_letter(table: &[u8], sheet: &[u8], items: &[u32], place: usize) -> Option<u32>
    requires { MisreadPlace table.now sheet.now items.now place }
    ensures { MisreadTold table.now sheet.now items.now place result }
{
    let item = split_arg::read_item(items, place);
    let Item::Word(text) = item else {
        return None;
    };
    let mut flags = command_letters::no_letters();
    let mut arguments = command_letters::no_letters();
    let counts: Counts = command_letters::gather(table, &mut flags, &mut arguments);
    let n = counts.flags;
    let m = counts.arguments;
    let os = take_search::part_bytes(sheet, text);
    let letters = Letters {
        flags: &flags[0..n],
        arguments: &arguments[0..m],
    };
    why_letter::cluster_letter(os, &letters)
}

// The words of a line that was run. 50 where it is accepted and an argument that looks like options is a word, and not the command
// word: answers 0. As `look` of `careful`, but the letter is looked for among those of the table, and the command word is passed over.
fn look(table: &[u8], sheet: &[u8], items: &[u32], answers: &mut [u32], ran: Commanded) -> Looked
    requires { CanLookAtTable table.now sheet.now items.now answers.old ran }
    ensures { LooksAtTableRun table.now sheet.now items.now answers.old ran answers.new result }
{
    let reached: Reached = ran.reached;
    if reached.number != 0 {
        return as_run(reached);
    }
    let left = reached.numbers;
    let count = wide(left.count);
    let place = careful_words::first_misread(sheet, items, FIRST, count);
    if place == count {
        return as_run(reached);
    }
    wire::fill(answers, 0, answers.len(), 0);
    let letter = word_letter(table, sheet, items, place);
    Looked {
        number: Refusal::Misread.number(),
        place: place as u32 + 1,
        words: 0,
        letter: careful::letter_code(letter),
    }
}

// A table and a sheet, as a run. 50 where it is accepted and an argument that looks like options is a word, and not the command word:
// answers 0, the rest as the run left it. As in a run, the state is put together once, here.
pub fn careful_commands(
    table: &[u8],
    sheet: &[u8],
    items: &mut [u32],
    answers: &mut [u32],
    list: &mut [u32],
) -> CarefulCommandAnswer
    ensures { careful_commands_answer (careful_commands table.now sheet.now (length items.old) (length answers.old) (length list.old)) ≡ some (record { answer = result; items = items.new; answers = answers.new; list = list.new }) }
{
    let mut marks = split_args::unmarked();
    let ran = command_run::run_input(table, sheet, items, answers, list, &mut marks);
    let looked = look(table, sheet, items, answers, ran);
    let reached: Reached = ran.reached;
    let left = reached.numbers;
    CarefulCommandAnswer {
        number: looked.number,
        place: looked.place,
        tries: reached.tries,
        words: looked.words,
        comparisons: ran.comparisons,
        entry: ran.entry,
        letter: looked.letter,
        state: state_marks::joined(marks, left),
    }
}
