// The run of a node whose value is a list or an optional list. Its words go to a lent slice, where all is 0 from the first of them on.
#![tactic(auto)]

ghost use Rattle.std.specs.Prelude.{◌≡◌, true, false, ◌∷◌, ◌+◌, ◌≤◌, ◌<◌, length, take, drop};
ghost use Rattle.std.proofs.Math.Option.{some};
ghost use Rattle.std.proofs.lemmas.List.Edits.{sets};
ghost use Rattle.rules.specs.Sheet.{sheet_area};
ghost use Rattle.rules.specs.Tree.{Tree, Optional, Many, Some, Choice};
ghost use Rattle.eval_told.specs.Nodes.{tree_at};
ghost use Rattle.eval_list.specs.Lists.{Listed, Writes, WritesField, OverScalar, OverList, WritesOver, EitherList, with_mark, child_with_mark, side_with_mark};

use eval_node::Repeat;
use eval_told::{Line, Ran};
use form_layout::Kind;
use state_marks::Numbers;

// A node, and the word of the answer slice that its value begins at.
#[derive(Clone, Copy)]
pub struct Field {
    pub node: usize,
    pub at: usize,
}

// The child of a node, whether its refusal is caught, and where the value begins.
#[derive(Clone, Copy)]
struct Child {
    node: usize,
    catch: bool,
    at: usize,
}

impl Child {
    // The repeat of a list: every value is written.
    fn repeat(self) -> Repeat
        ensures { result ≡ record { child = self.node; catch = self.catch; stops = false; writes = true; at = self.at } }
    {
        Repeat {
            child: self.node,
            catch: self.catch,
            stops: false,
            writes: true,
            at: self.at,
        }
    }
}

// The two sides of a choice, and where the value begins.
#[derive(Clone, Copy)]
struct Either {
    left: usize,
    right: usize,
    at: usize,
}

fn run_many(
    line: &Line,
    marks: &mut [u16; 256],
    p: Numbers,
    child: Child,
    out: &mut [u32],
    mark: u16,
) -> Ran
    requires { OverScalar (Many child.catch) line.now.form.now line.now.known.now line.now.sheet.now line.now.items.now marks.old p (child_with_mark child mark) out.old }
    ensures { WritesOver (Many child.catch) line.now.form.now line.now.sheet.now line.now.items.now (child_with_mark child mark) marks.old p marks.new out.old out.new result }
{
    let how = child.repeat();
    let all = eval_node::run_repeat(line, marks, p, how, out, mark);
    if all.number != 0 {
        return eval_words::refused_list(all);
    }
    eval_words::counted_list(all, child.at, out)
}

// A list of no values is refused. That is one test more than `run_many`; each is proved for its own node.
fn run_some(
    line: &Line,
    marks: &mut [u16; 256],
    p: Numbers,
    child: Child,
    out: &mut [u32],
    mark: u16,
) -> Ran
    requires { OverScalar (Some child.catch) line.now.form.now line.now.known.now line.now.sheet.now line.now.items.now marks.old p (child_with_mark child mark) out.old }
    ensures { WritesOver (Some child.catch) line.now.form.now line.now.sheet.now line.now.items.now (child_with_mark child mark) marks.old p marks.new out.old out.new result }
{
    let how = child.repeat();
    let all = eval_node::run_repeat(line, marks, p, how, out, mark);
    if all.number != 0 {
        return eval_words::refused_list(all);
    }
    match eval_structs::parse_some(all.count) {
        0 => eval_words::counted_list(all, child.at, out),
        number => eval_told::refusal(number, 0, all.tries, all.numbers),
    }
}

// A node whose value is a list or an optional list: its words go to `out` from `at` on, where all is 0.
#[cycle(lists)]
pub fn run_list(
    line: &Line,
    marks: &mut [u16; 256],
    p: Numbers,
    field: Field,
    out: &mut [u32],
    mark: u16,
) -> Ran
    requires { Listed line.now.form.now line.now.known.now line.now.sheet.now line.now.items.now marks.old p (with_mark field mark) out.old }
    ensures { WritesField line.now.form.now line.now.sheet.now line.now.items.now (with_mark field mark) marks.old p marks.new out.old out.new result }
{
    let x = form_layout::node_at(line.form, field.node);
    let child = Child {
        node: x.p,
        catch: x.r == 1,
        at: field.at,
    };
    let sides = Either {
        left: x.p,
        right: x.q,
        at: field.at,
    };
    match x.kind {
        Kind::Optional => run_optional_list(line, marks, p, child, out, mark),
        Kind::Many => run_many(line, marks, p, child, out, mark),
        Kind::AtLeastOne => run_some(line, marks, p, child, out, mark),
        _ => run_either(line, marks, p, sides, out, mark),
    }
}

// A list that is present has 1 before its words. Absent or refused, the child wrote nothing, and the word of an absent value is 0.
#[cycle(lists)]
fn run_optional_list(
    line: &Line,
    marks: &mut [u16; 256],
    p: Numbers,
    child: Child,
    out: &mut [u32],
    mark: u16,
) -> Ran
    requires { OverList (Optional child.catch) line.now.form.now line.now.known.now line.now.sheet.now line.now.items.now marks.old p (child_with_mark child mark) out.old }
    ensures { WritesOver (Optional child.catch) line.now.form.now line.now.sheet.now line.now.items.now (child_with_mark child mark) marks.old p marks.new out.old out.new result }
{
    let before = *marks;
    let field = Field {
        node: child.node,
        at: child.at,
    };
    let ran = run_list(line, marks, p, field, out, mark);
    let made = eval_combine::optional(ran, p, child.catch, &before, marks);
    if made.present {
        eval_words::shift(out, child.at, ran.len as usize);
    }
    made.ran
}

// Of two lists the one that wins. Both are run on the same marks and write to the same words.
#[cycle(lists)]
fn run_either(
    line: &Line,
    marks: &mut [u16; 256],
    p: Numbers,
    sides: Either,
    out: &mut [u32],
    mark: u16,
) -> Ran
    requires { EitherList line.now.form.now line.now.known.now line.now.sheet.now line.now.items.now marks.old p (side_with_mark sides mark) sides.right out.old }
    ensures { (t u : Tree) → tree_at line.now.form.now sides.left ≡ some t → tree_at line.now.form.now sides.right ≡ some u → Writes mark (sheet_area line.now.sheet.now) line.now.items.now (Choice t u) marks.old p marks.new out.old sides.at out.new result }
{
    let before = *marks;
    let left = Field {
        node: sides.left,
        at: sides.at,
    };
    let x = run_list(line, marks, p, left, out, mark);
    let first = *marks;
    let n = x.len as usize;
    let kept = eval_words::set_aside(out, sides.at, n);
    *marks = before;
    let right = Field {
        node: sides.right,
        at: sides.at,
    };
    let y = run_list(line, marks, p, right, out, mark);
    let made = eval_combine::choose(x, y, p, &before, &first, marks);
    eval_words::settle(
        out,
        sides.at,
        made.ran.number,
        made.first,
        &kept,
        n,
        y.len as usize,
    );
    made.ran
}
