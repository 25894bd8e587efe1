// The run of one sheet with a form of which all that does not depend on the sheet is known.
#![tactic(auto)]

ghost use Rattle.std.specs.Prelude.{◌≡◌, ◌<◌, ◌^◌, List, ℕ, length};
ghost use Rattle.rules.specs.Accept.{check_form};
ghost use Rattle.rules.specs.Run as Run;
ghost use Rattle.rules.specs.Codes.{check_code};
ghost use Rattle.rules.specs.Reported.{place_told, told};
ghost use Rattle.split_args.specs.Construct.{Unmarked};
ghost use Rattle.run.specs.Runner.{run_answer, ended, answer_of, CheckedInput};
ghost use Rattle.batch_line.specs.Known.{FormKnown};
ghost use Rattle.batch_line.specs.Reported.{SheetReported};

use rules::RefusedAt;
use run_fields::Reached;
use split_arg::Letters;

// A checked sheet, and room in the slices: the items, by the letters that are given, then the fields.
fn run_checked(
    form: &[u8],
    codes: &[u32],
    flags: &[u32],
    arguments: &[u32],
    sheet: &[u8],
    items: &mut [u32],
    answers: &mut [u32],
    list: &mut [u32],
    marks: &mut [u16; 256],
) -> Reached
    requires { FormKnown form.now codes.now flags.now arguments.now × CheckedInput form.now sheet.now items.old answers.old list.old × Unmarked marks.old }
    ensures { run_answer (Run.run form.now sheet.now (length items.old) (length answers.old) (length list.old)) ≡ ended (answer_of result marks.new) items.new answers.new list.new }
{
    wire::fill(answers, 0, answers.len(), 0);
    wire::fill(list, 0, list.len(), 0);
    let split = split_args::construct(sheet, &Letters { flags, arguments }, items);
    run::run_split(form, codes, sheet, items, answers, list, marks, split)
}

// The same as a single run of this form on the sheet, but for the state, which nobody asks for.
pub fn run_sheet(
    form: &[u8],
    codes: &[u32],
    flags: &[u32],
    arguments: &[u32],
    sheet: &[u8],
    items: &mut [u32],
    answers: &mut [u32],
    list: &mut [u32],
) -> Reached
    requires { FormKnown form.now codes.now flags.now arguments.now }
    ensures { SheetReported form.now sheet.now items.new answers.new list.new result }
{
    match run::line_fault(sheet, items.len(), answers.len(), list.len()) {
        Ok(()) => {
            let mut marks = split_args::unmarked();
            run_checked(
                form, codes, flags, arguments, sheet, items, answers, list, &mut marks,
            )
        }
        Err(fault) => run::refuse_input(RefusedAt::from(fault), items, answers, list),
    }
}

// The answer of a form that is refused, whatever the sheet is.
pub fn refuse_sheet(
    fault: RefusedAt,
    items: &mut [u32],
    answers: &mut [u32],
    list: &mut [u32],
) -> Reached
    requires { place_told fault.place < 2 ^ 32 }
    ensures { (form sheet : List ℕ) → told fault ≡ check_code (check_form form) → SheetReported form sheet items.new answers.new list.new result }
{
    run::refuse_input(fault, items, answers, list)
}
