// All fields of a form on one state, each from where the last one ended, and then refusal 27.
#![tactic(auto)]

ghost use Rattle.std.specs.Prelude.{◌≡◌, ◌+◌, ◌≤◌, length, replicate};
ghost use Rattle.rules.specs.Accept.{Accepted, accepted, check_form};
ghost use Rattle.rules.specs.Sheet.{sheet_area};
ghost use Rattle.run_fields.specs.Line.{Starts, FieldReady, PutValue, RunsFields, RunsAll, refused_with, values_of};
ghost use Rattle.eval_list.specs.Lists.{WritesField, with_mark};

use eval_list::Field;
use eval_told::{Line, Ran};
use form_layout::Kind;
use rules::State;
use state_marks::Numbers;
use take_table::TABLE_WORDS;

// The most answer words that a run writes.
pub const ANSWER_WORDS: usize = 8240;

// How a run, or the evaluation of one node, ended, and the state that it left. A place is itself plus 1, or 0 for none; `words` is
// how many answer words there are.
#[repr(C)]
#[derive(Clone, Copy)]
pub struct RunAnswer {
    pub number: u32,
    pub place: u32,
    pub tries: u32,
    pub words: u32,
    pub state: State,
}

// How the run of all fields ended. `words` is how many answer words there are, `field` is the field that was refused, or 0.
#[derive(Clone, Copy)]
pub struct Reached {
    pub number: u32,
    pub place: u32,
    pub tries: u32,
    pub words: u32,
    pub field: usize,
    pub numbers: Numbers,
}

// A value that is no list: its words go to `out` from `at` on.
fn put_value(out: &mut [u32], at: usize, ran: Ran) -> Ran
    requires { at + 2 ≤ length out.old }
    ensures { PutValue out.old at ran out.new result }
{
    let len = eval_words::put(out, at, ran.len, ran.word);
    eval_told::wrote(ran, len)
}

// A node, whatever it is: the words of its value go to `out`, where all is 0.
pub fn run_value(
    line: &Line,
    marks: &mut [u16; 256],
    p: Numbers,
    field: Field,
    out: &mut [u32],
    mark: u16,
) -> Ran
    requires { FieldReady line.now.form.now line.now.known.now line.now.sheet.now line.now.items.now marks.old p (with_mark field mark) out.old }
    ensures { WritesField line.now.form.now line.now.sheet.now line.now.items.now (with_mark field mark) marks.old p marks.new out.old out.new result }
{
    if eval_shortcut::is_list(line.form, field.node) {
        return eval_list::run_list(line, marks, p, field, out, mark);
    }
    let ran = eval_node::run_node(line, marks, p, field.node, mark);
    put_value(out, field.at, ran)
}

// One field. A flag or a positional is evaluated in place, which is quicker than the general run.
fn run_field(
    line: &Line,
    marks: &mut [u16; 256],
    p: Numbers,
    field: Field,
    out: &mut [u32],
    mark: u16,
) -> Ran
    requires { FieldReady line.now.form.now line.now.known.now line.now.sheet.now line.now.items.now marks.old p (with_mark field mark) out.old }
    ensures { WritesField line.now.form.now line.now.sheet.now line.now.items.now (with_mark field mark) marks.old p marks.new out.old out.new result }
{
    let x = form_layout::node_at(line.form, field.node);
    match x.kind {
        Kind::Flag => {
            let flag = eval_params::eval_flag(line.known, marks, p, field.node, x.r == 1, mark);
            put_value(out, field.at, flag)
        }
        Kind::Positional => {
            let operand = eval_params::eval_positional(
                line.sheet,
                line.items,
                marks,
                p,
                x.p,
                x.r == 2,
                mark,
            );
            put_value(out, field.at, operand)
        }
        _ => run_value(line, marks, p, field, out, mark),
    }
}

pub fn refused(number: u32, place: u32, tries: u32, field: usize, numbers: Numbers) -> Reached
    ensures { result ≡ refused_with number place tries field numbers }
{
    Reached {
        number,
        place,
        tries,
        words: 0,
        field,
        numbers,
    }
}

fn answered(tries: u32, words: usize, numbers: Numbers) -> Reached
    requires { words ≤ 8240 }
    ensures { result ≡ values_of tries words numbers }
{
    Reached {
        number: 0,
        place: 0,
        tries,
        words: words as u32,
        field: 0,
        numbers,
    }
}

// A table of which nodes each item matches, as yet empty. A literal with a contract, for `run` and `call_node`.
pub fn nothing_known() -> [u64; TABLE_WORDS]
    ensures { result ≡ replicate 257 0 }
{
    [0u64; TABLE_WORDS]
}

// The fields in order, up to the first that is refused. Each is run on the state that the last one left.
fn each_field(
    line: &Line,
    marks: &mut [u16; 256],
    p: Numbers,
    first: usize,
    out: &mut [u32],
) -> Reached
    requires { Starts line.now.form.now line.now.known.now line.now.sheet.now line.now.items.now marks.old p first out.old }
    ensures { (a : Accepted) → check_form line.now.form.now ≡ accepted a → RunsFields (sheet_area line.now.sheet.now) line.now.items.now first a.fields marks.old p marks.new out.old out.new result }
{
    let n = form_layout::field_count(line.form);
    let mut s = p;
    let mut tries = 0;
    let mut at = 0;
    for k in 0..n {
        let node = form_layout::field_at(line.form, k);
        let mark = state_marks::field_mark(first + k);
        let field = Field { node, at };
        let ran = run_field(line, marks, s, field, out, mark);
        tries += ran.tries;
        if ran.number != 0 {
            wire::fill(out, 0, at, 0);
            return refused(ran.number, ran.place, tries, k, ran.numbers);
        }
        s = ran.numbers;
        at += ran.len as usize;
    }
    answered(tries, at, s)
}

// These items in this state, whose numbers tell the scope, and these fields, of which the first has number `first`: then 27 at
// the first present place that is left in scope. Refused, `out` is all 0 again.
pub fn run_fields(
    line: &Line,
    marks: &mut [u16; 256],
    p: Numbers,
    first: usize,
    out: &mut [u32],
) -> Reached
    requires { Starts line.now.form.now line.now.known.now line.now.sheet.now line.now.items.now marks.old p first out.old }
    ensures { (a : Accepted) → check_form line.now.form.now ≡ accepted a → RunsAll (sheet_area line.now.sheet.now) line.now.items.now first a.fields marks.old p marks.new out.old out.new result }
{
    let all = each_field(line, marks, p, first, out);
    if all.number != 0 {
        return all;
    }
    let s = all.numbers;
    let end = s.end as usize;
    let place = state_marks::first_present(marks, s.start as usize, end);
    if end <= place {
        return all;
    }
    wire::fill(out, 0, all.words as usize, 0);
    refused(27, place as u32 + 1, all.tries, 0, s)
}
