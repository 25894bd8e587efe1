// A careful run: as the run, but an argument that looks like options is not taken for a word.
#![tactic(auto)]

ghost use Rattle.std.specs.Prelude.{◌≡◌, length};
ghost use Rattle.std.proofs.Math.Option.{some};
ghost use Rattle.rules_careful.specs.Careful.{careful as careful_of};
ghost use Rattle.why_letter.specs.Withdrawn.{SmallLetter};
ghost use Rattle.careful.specs.Looked.{letter_code, as_run, CanLook, LooksAtRun, careful_answer};

use rules::{Refusal, State};
use run_fields::Reached;
use wire::wide;

// As the answer of a run, and why a word is one: the letter that no option has plus 1, or 0 where its name is not UTF-8.
#[repr(C)]
#[derive(Clone, Copy)]
pub struct CarefulAnswer {
    pub number: u32,
    pub place: u32,
    pub tries: u32,
    pub words: u32,
    pub letter: u32,
    pub state: State,
}

// The letter plus 1, or 0 for none.
pub fn letter_code(letter: Option<u32>) -> u32
    requires { SmallLetter letter }
    ensures { result ≡ letter_code letter }
{
    let Some(c) = letter else {
        return 0;
    };
    c + 1
}

// What becomes of a run's answer when its words are looked at. Its tries and its state stay as they are.
#[derive(Clone, Copy)]
pub struct Looked {
    pub number: u32,
    pub place: u32,
    pub words: u32,
    pub letter: u32,
}

// What a run answers, where no word is misread.
pub fn as_run(ran: Reached) -> Looked
    ensures { result ≡ as_run ran }
{
    Looked {
        number: ran.number,
        place: ran.place,
        words: ran.words,
        letter: 0,
    }
}

// The words of a line that was run. 50 where it is accepted and an argument that looks like options is a word: answers 0.
fn look(form: &[u8], sheet: &[u8], items: &[u32], answers: &mut [u32], ran: Reached) -> Looked
    requires { CanLook form.now sheet.now items.now answers.old ran }
    ensures { LooksAtRun form.now sheet.now items.now answers.old ran answers.new result }
{
    if ran.number != 0 {
        return as_run(ran);
    }
    let left = ran.numbers;
    let count = wide(left.count);
    let place = careful_words::first_misread(sheet, items, 0, count);
    if place == count {
        return as_run(ran);
    }
    wire::fill(answers, 0, answers.len(), 0);
    let codes = form_codes::codes_of(form);
    let letter = why_letter::unknown_letter(form, &codes, sheet, items, place);
    Looked {
        number: Refusal::Misread.number(),
        place: place as u32 + 1,
        words: 0,
        letter: letter_code(letter),
    }
}

// A form and a sheet, as a run. 50 where it is accepted and an argument that looks like options is a word: answers 0, the rest as the
// run left it. As in a run, the state is put together once, here.
pub fn careful(
    form: &[u8],
    sheet: &[u8],
    items: &mut [u32],
    answers: &mut [u32],
    list: &mut [u32],
) -> CarefulAnswer
    ensures { careful_answer (careful_of form.now sheet.now (length items.old) (length answers.old) (length list.old)) ≡ some (record { answer = result; items = items.new; answers = answers.new; list = list.new }) }
{
    let mut marks = split_args::unmarked();
    let ran = run::run_input(form, sheet, items, answers, list, &mut marks);
    let looked = look(form, sheet, items, answers, ran);
    let left = ran.numbers;
    CarefulAnswer {
        number: looked.number,
        place: looked.place,
        tries: ran.tries,
        words: looked.words,
        letter: looked.letter,
        state: state_marks::joined(marks, left),
    }
}
