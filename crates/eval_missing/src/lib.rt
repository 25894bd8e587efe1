// What is missing: after a node was refused with 20, the leaves that looked in vain and the scope in which they looked. Refused with
// 20, a node leaves the state that it was given, so its tree is walked again on that state: nothing is evaluated but the first side of
// a choice, to see whether it was refused with 20 too, and that on a copy of the marks.
#![tactic(auto)]

ghost use Rattle.std.specs.Prelude.{◌≡◌, List, [], ◌∷◌, suc, ◌+◌, ◌≤◌, ◌<◌, length};
ghost use Rattle.std.proofs.Math.Option.{some};
ghost use Rattle.std.proofs.lemmas.List.Edits.{sets};
ghost use Rattle.rules.specs.Tree.{Tree};
ghost use Rattle.rules.specs.Split.{Item};
ghost use Rattle.rules.specs.Sheet.{sheet_area};
ghost use Rattle.rules.specs.Eval.{eval};
ghost use Rattle.rules.specs.Missing.{ends_missing};
ghost use Rattle.state_marks.specs.Lent.{state_of};
ghost use Rattle.take_search.specs.States.{Items};
ghost use Rattle.eval_told.specs.Nodes.{tree_at};
ghost use Rattle.eval_shortcut.specs.Stands.{Scalar};
ghost use Rattle.eval_list.specs.Lists.{with_mark};
ghost use Rattle.eval_missing.specs.Missing.{Listable, Listing, Lists, ListsNode};

use eval_list::Field;
use eval_told::Line;
use form_layout::Kind;
use state_marks::Numbers;

// The refusal of a leaf that looked in vain.
pub const MISSING: u32 = 20;

// The words of an entry.
const ENTRY_WORDS: usize = 3;

// The least words of the list: an entry for each of 64 leaves.
pub const MISSING_WORDS: usize = 192;

// An entry, from `at` on: the node plus 1, and the scope. Behind it is the next.
fn put_entry(list: &mut [u32], at: usize, node: usize, p: Numbers) -> usize
    requires { (at + 3 ≤ length list.old) × (node < 64) }
    ensures { (result ≡ at + 3) × (list.new ≡ sets list.old at (suc node ∷ p.start ∷ p.end ∷ [])) }
{
    list[at] = node as u32 + 1;
    list[at + 1] = p.start;
    list[at + 2] = p.end;
    at + ENTRY_WORDS
}

// Whether a node is refused with 20, on a copy of the marks.
fn ends_missing(line: &Line, marks: &[u16; 256], p: Numbers, node: usize, mark: u16) -> bool
    requires { Scalar line.now.form.now line.now.known.now line.now.sheet.now line.now.items.now marks.now p mark node }
    ensures { (t : Tree) (is : List Item) → tree_at line.now.form.now node ≡ some t → Items (sheet_area line.now.sheet.now) line.now.items.now p is → result ≡ ends_missing (eval mark is t (state_of marks.now p)).outcome }
{
    let mut copy = *marks;
    let ran = eval_node::run_node(line, &mut copy, p, node, mark);
    ran.number == MISSING
}

// The entries of a node whose value is no list, from the field's word on. Behind them is the next.
fn list_node(
    line: &Line,
    marks: &[u16; 256],
    p: Numbers,
    field: Field,
    list: &mut [u32],
    mark: u16,
) -> usize
    requires { Listable line.now.form.now line.now.known.now line.now.sheet.now line.now.items.now marks.now p (with_mark field mark) list.old }
    ensures { ListsNode line.now.form.now line.now.sheet.now line.now.items.now (with_mark field mark) marks.now p list.old list.new result }
{
    let x = form_layout::node_at(line.form, field.node);
    if x.kind.is_leaf() {
        return put_entry(list, field.at, field.node, p);
    }
    match x.kind {
        Kind::Last | Kind::Guard => {
            let under = Field {
                node: x.p,
                at: field.at,
            };
            list_node(line, marks, p, under, list, mark)
        }
        Kind::Choice => {
            let mut at = field.at;
            if ends_missing(line, marks, p, x.p, mark) {
                let first = Field { node: x.p, at };
                at = list_node(line, marks, p, first, list, mark);
            }
            let second = Field { node: x.q, at };
            list_node(line, marks, p, second, list, mark)
        }
        _ => field.at, // the others swallow 20
    }
}

// The list of a node that is refused with 20, in the state that it was given: it begins at the first word, and behind it nothing is
// written. A node whose value is a list is never refused with 20.
pub fn list_missing(
    line: &Line,
    marks: &[u16; 256],
    p: Numbers,
    node: usize,
    list: &mut [u32],
    mark: u16,
) -> usize
    requires { Listing line.now.form.now line.now.known.now line.now.sheet.now line.now.items.now marks.now p mark node list.old }
    ensures { (t : Tree) → tree_at line.now.form.now node ≡ some t → Lists mark (sheet_area line.now.sheet.now) line.now.items.now t marks.now p 0 list.old list.new result }
{
    if eval_shortcut::is_list(line.form, node) {
        return 0;
    }
    let field = Field { node, at: 0 };
    list_node(line, marks, p, field, list, mark)
}
