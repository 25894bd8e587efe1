// What a form has for an item: a flag or an argument of its name; and whether it has a positional.
#![tactic(auto)]

ghost use Rattle.std.specs.Prelude.{◌≡◌, true, not, ◌<◌};
ghost use Rattle.rules.specs.Form.{node_count, read_form};
ghost use Rattle.rules.specs.Accept.{length_good};
ghost use Rattle.rules.specs.Sheet.{sheet_area};
ghost use Rattle.rules.specs.Why.{no_positionals};
ghost use Rattle.why_names.specs.Naming.{CanName, NodeNames, FormNames};

use form_layout::Kind;
use take_search::Names;

// Whether node n is a flag or an argument that has item i's name, adjacent or not.
fn names_item(form: &[u8], codes: &[u32], sheet: &[u8], items: &[u32], i: usize, n: usize) -> bool
    requires { CanName form.now codes.now sheet.now items.now i × (n < node_count form.now) }
    ensures { NodeNames form.now (sheet_area sheet.now) items.now i n result }
{
    let x = form_layout::node_at(form, n);
    let names = Names {
        first: x.p,
        count: x.q,
        adjacent: false,
    };
    match x.kind {
        Kind::Flag | Kind::Argument => take_search::matches(form, codes, sheet, items, i, names),
        _ => false,
    }
}

// Whether a flag or an argument of the form has item i's name.
pub fn is_named(form: &[u8], codes: &[u32], sheet: &[u8], items: &[u32], i: usize) -> bool
    requires { CanName form.now codes.now sheet.now items.now i }
    ensures { FormNames form.now (sheet_area sheet.now) items.now i result }
{
    for n in 0..form_layout::node_count(form) {
        if names_item(form, codes, sheet, items, i, n) {
            return true;
        }
    }
    false
}

// Whether the form has a positional.
pub fn has_positional(form: &[u8]) -> bool
    requires { length_good form.now ≡ true }
    ensures { result ≡ not (no_positionals (read_form form.now)) }
{
    for n in 0..form_layout::node_count(form) {
        if form_layout::node_at(form, n).kind == Kind::Positional {
            return true;
        }
    }
    false
}
