// From an accepted form and a checked sheet to items: the letters that are looked up are the form's.
#![tactic(auto)]

ghost use Rattle.std.specs.Prelude.{◌≡◌, length, replicate};
ghost use Rattle.rules.specs.Form.{read_form};
ghost use Rattle.rules.specs.Accept.{letters_of};
ghost use Rattle.form_codes.specs.Codes.{CodedNames};
ghost use Rattle.split_args.specs.Construct.{SplitEnds};
ghost use Rattle.split_line.specs.Input.{Splittable};

use split_arg::Letters;
use split_args::Ended;

// The same as `split`, with the letters of the form worked out.
fn split_clusters(form: &[u8], codes: &[u32], sheet: &[u8], items: &mut [u32]) -> Ended
    requires { Splittable form.now sheet.now items.old × CodedNames form.now codes.now }
    ensures { SplitEnds (letters_of (read_form form.now)) sheet.now (length items.old) items.new result }
{
    let mut flags = [0u32; 128];
    let mut arguments = [0u32; 128];
    let counts = form_letters::letters(form, codes, &mut flags, &mut arguments);
    let n = counts.flags;
    let m = counts.arguments;
    let letters = Letters {
        flags: &flags[0..n],
        arguments: &arguments[0..m],
    };
    split_args::construct(sheet, &letters, items)
}

// The short names of the form are given as numbers. The letters are worked out only where one can be looked up.
pub fn split(form: &[u8], codes: &[u32], sheet: &[u8], items: &mut [u32]) -> Ended
    requires { Splittable form.now sheet.now items.old × CodedNames form.now codes.now }
    ensures { SplitEnds (letters_of (read_form form.now)) sheet.now (length items.old) items.new result }
{
    if split_args::all_plain(sheet) {
        let none = Letters {
            flags: &[],
            arguments: &[],
        };
        return split_args::construct(sheet, &none, items);
    }
    split_clusters(form, codes, sheet, items)
}
