// The run of a node and the run of a repeat, which call each other: a child has a lower number than its node, and within a
// repeat fewer places remain at every turn. The members call and hand on; what there is to decide is decided outside.
#![tactic(auto)]

ghost use Rattle.std.specs.Prelude.{◌≡◌, true, ◌+◌, ◌≤◌, ◌<◌, length, replicate};
ghost use Rattle.std.proofs.Math.Option.{some};
ghost use Rattle.std.proofs.Math.ListN.{get_elem?};
ghost use Rattle.std.proofs.lemmas.List.Edits.{sets};
ghost use Rattle.std.specs.Prelude.{if◌then◌else◌};
ghost use Rattle.rules.specs.Form.{read_form};
ghost use Rattle.rules.specs.Sheet.{sheet_area};
ghost use Rattle.rules.specs.Tree.{Tree, Optional, Count, Last, Choice, Guard};
ghost use Rattle.form_layout.specs.Layout.{node_of};
ghost use Rattle.eval_told.specs.Told.{Evaluates};
ghost use Rattle.eval_told.specs.Nodes.{tree_at};
ghost use Rattle.eval_shortcut.specs.Stands.{Scalar};
ghost use Rattle.eval_shortcut.specs.Children.{Wraps, Wrapped, Falls, BothSides, Turns, Searched};
ghost use Rattle.eval_node.specs.Cycle.{Repeating, Repeats, counting};

use eval_structs::Counting;
use eval_told::{Line, Ran};
use eval_words::{Repeated, write_value};
use form_layout::{Kind, Node};
use state_marks::Numbers;

// A repeat: of which child, whether a refusal of the child is caught, whether a success that used nothing ends it, and whether
// the values are written, from the word behind `at` on.
#[derive(Clone, Copy)]
pub struct Repeat {
    pub child: usize,
    pub catch: bool,
    pub stops: bool,
    pub writes: bool,
    pub at: usize,
}

impl Repeat {
    // The repeat of `count` and `last`: no refusal is caught, and nothing is written.
    fn counting(child: usize) -> Repeat
        ensures { result ≡ counting child }
    {
        Repeat {
            child,
            catch: false,
            stops: true,
            writes: false,
            at: 0,
        }
    }
}

// A repeat's child, and the node that a turn evaluates first: a leaf beneath the child, or the child itself. It is read once, not at
// every turn.
#[derive(Clone, Copy)]
struct Chain {
    child: usize,
    leaf: usize,
    node: Node,
}

// A node whose value is no list.
#[cycle(nodes)]
pub fn run_node(line: &Line, marks: &mut [u16; 256], p: Numbers, node: usize, mark: u16) -> Ran
    requires { Scalar line.now.form.now line.now.known.now line.now.sheet.now line.now.items.now marks.old p mark node }
    ensures { (t : Tree) → tree_at line.now.form.now node ≡ some t → Evaluates mark (sheet_area line.now.sheet.now) line.now.items.now t marks.old p marks.new result }
{
    let x = form_layout::node_at(line.form, node);
    match x.kind {
        Kind::Flag => eval_params::eval_flag(line.known, marks, p, node, x.r == 1, mark),
        Kind::Argument => eval_params::eval_argument(
            line.known,
            line.sheet,
            line.items,
            marks,
            p,
            node,
            2 <= x.r,
            mark,
        ),
        Kind::Positional => eval_params::eval_positional(
            line.sheet,
            line.items,
            marks,
            p,
            x.p,
            x.r == 2,
            mark,
        ),
        Kind::Optional => optional(line, marks, p, x.p, x.r == 1, mark),
        Kind::Count => count(line, marks, p, x.p, mark),
        Kind::Last => last(line, marks, p, x.p, mark),
        Kind::Choice => choice(line, marks, p, x.p, x.q, mark),
        Kind::Fallback => fallback(line, marks, p, node, x.p, mark),
        _ => guard(line, marks, p, x, mark),
    }
}

#[cycle(nodes)]
fn optional(
    line: &Line,
    marks: &mut [u16; 256],
    p: Numbers,
    child: usize,
    catch: bool,
    mark: u16,
) -> Ran
    requires { Wraps (Optional catch) line.now.form.now line.now.known.now line.now.sheet.now line.now.items.now marks.old p mark child }
    ensures { Wrapped (Optional catch) mark line.now.form.now line.now.sheet.now line.now.items.now child marks.old p marks.new result }
{
    if eval_shortcut::keeps_marks(line.form, child, catch) {
        let before = *marks;
        let ran = run_node(line, marks, p, child, mark);
        return eval_combine::optional(ran, p, catch, &before, marks).ran;
    }
    let ran = run_node(line, marks, p, child, mark);
    eval_combine::optional_unchanged(ran, p, catch).ran
}

#[cycle(nodes)]
fn fallback(
    line: &Line,
    marks: &mut [u16; 256],
    p: Numbers,
    node: usize,
    child: usize,
    mark: u16,
) -> Ran
    requires { Falls line.now.form.now line.now.known.now line.now.sheet.now line.now.items.now marks.old p mark node child }
    ensures { (t : Tree) → tree_at line.now.form.now node ≡ some t → Evaluates mark (sheet_area line.now.sheet.now) line.now.items.now t marks.old p marks.new result }
{
    if eval_shortcut::stays(line.form, line.known, child) {
        let ran = run_node(line, marks, p, child, mark);
        if ran.number == 0 {
            return ran;
        }
        let word = eval_combine::fallback_word(line.form, node);
        return eval_combine::fallback_unchanged(ran, p, word);
    }
    fallback_copied(line, marks, p, node, child, mark)
}

// A fallback whose child may have used something though it is refused: the marks are copied.
#[cycle(nodes)]
fn fallback_copied(
    line: &Line,
    marks: &mut [u16; 256],
    p: Numbers,
    node: usize,
    child: usize,
    mark: u16,
) -> Ran
    requires { Falls line.now.form.now line.now.known.now line.now.sheet.now line.now.items.now marks.old p mark node child }
    ensures { (t : Tree) → tree_at line.now.form.now node ≡ some t → Evaluates mark (sheet_area line.now.sheet.now) line.now.items.now t marks.old p marks.new result }
{
    let before = *marks;
    let ran = run_node(line, marks, p, child, mark);
    if ran.number == 0 {
        return ran;
    }
    let word = eval_combine::fallback_word(line.form, node);
    eval_combine::fallback(ran, p, word, &before, marks)
}

// A guard, as it is laid out.
#[cycle(nodes)]
fn guard(line: &Line, marks: &mut [u16; 256], p: Numbers, x: Node, mark: u16) -> Ran
    requires { Wraps (Guard x.lo x.hi) line.now.form.now line.now.known.now line.now.sheet.now line.now.items.now marks.old p mark x.p }
    ensures { Wrapped (Guard x.lo x.hi) mark line.now.form.now line.now.sheet.now line.now.items.now x.p marks.old p marks.new result }
{
    let ran = run_node(line, marks, p, x.p, mark);
    eval_combine::guard(ran, x.lo, x.hi)
}

#[cycle(nodes)]
fn choice(
    line: &Line,
    marks: &mut [u16; 256],
    p: Numbers,
    left: usize,
    right: usize,
    mark: u16,
) -> Ran
    requires { BothSides line.now.form.now line.now.known.now line.now.sheet.now line.now.items.now marks.old p mark left right }
    ensures { (t u : Tree) → tree_at line.now.form.now left ≡ some t → tree_at line.now.form.now right ≡ some u → Evaluates mark (sheet_area line.now.sheet.now) line.now.items.now (Choice t u) marks.old p marks.new result }
{
    if eval_shortcut::alone(line.form, line.known, left, right) {
        let x = run_node(line, marks, p, left, mark);
        return eval_combine::first_alone(x, p).ran;
    }
    if eval_shortcut::alone(line.form, line.known, right, left) {
        let y = run_node(line, marks, p, right, mark);
        return eval_combine::second_alone(y, p).ran;
    }
    choice_copied(line, marks, p, left, right, mark)
}

// A choice of which both sides may change the marks: they are copied.
#[cycle(nodes)]
fn choice_copied(
    line: &Line,
    marks: &mut [u16; 256],
    p: Numbers,
    left: usize,
    right: usize,
    mark: u16,
) -> Ran
    requires { BothSides line.now.form.now line.now.known.now line.now.sheet.now line.now.items.now marks.old p mark left right }
    ensures { (t u : Tree) → tree_at line.now.form.now left ≡ some t → tree_at line.now.form.now right ≡ some u → Evaluates mark (sheet_area line.now.sheet.now) line.now.items.now (Choice t u) marks.old p marks.new result }
{
    let before = *marks;
    let x = run_node(line, marks, p, left, mark);
    let first = *marks;
    *marks = before;
    let y = run_node(line, marks, p, right, mark);
    eval_combine::choose(x, y, p, &before, &first, marks).ran
}

// The number of values that a repeat counts. Nothing is written.
#[cycle(nodes)]
fn count(line: &Line, marks: &mut [u16; 256], p: Numbers, child: usize, mark: u16) -> Ran
    requires { Wraps Count line.now.form.now line.now.known.now line.now.sheet.now line.now.items.now marks.old p mark child }
    ensures { Wrapped Count mark line.now.form.now line.now.sheet.now line.now.items.now child marks.old p marks.new result }
{
    let mut unwritten = [0u32; 1];
    let how = Repeat::counting(child);
    let all = run_repeat(line, marks, p, how, &mut unwritten, mark);
    if all.number != 0 {
        return eval_words::refused_list(all);
    }
    eval_words::counted(all)
}

// The last value; with none, the child is tried once more.
#[cycle(nodes)]
fn last(line: &Line, marks: &mut [u16; 256], p: Numbers, child: usize, mark: u16) -> Ran
    requires { Wraps Last line.now.form.now line.now.known.now line.now.sheet.now line.now.items.now marks.old p mark child }
    ensures { Wrapped Last mark line.now.form.now line.now.sheet.now line.now.items.now child marks.old p marks.new result }
{
    let mut unwritten = [0u32; 1];
    let how = Repeat::counting(child);
    let all = run_repeat(line, marks, p, how, &mut unwritten, mark);
    if all.number != 0 {
        return eval_words::refused_list(all);
    }
    if all.count != 0 {
        return eval_words::last_value(all);
    }
    let again = run_node(line, marks, all.numbers, child, mark);
    eval_told::more_tries(again, all.tries)
}

// A leaf searches from `from` on: the turns before used all that it would find earlier. Any other node runs as it does elsewhere.
#[cycle(nodes)]
fn leaf(line: &Line, marks: &mut [u16; 256], p: Numbers, over: Chain, from: usize, mark: u16) -> Ran
    requires { Turns line.now.form.now line.now.known.now line.now.sheet.now line.now.items.now marks.old p mark over.leaf from × (get_elem? (read_form line.now.form.now).nodes over.leaf ≡ some (node_of over.node)) }
    ensures { (t : Tree) → tree_at line.now.form.now over.leaf ≡ some t → Evaluates mark (sheet_area line.now.sheet.now) line.now.items.now t marks.old p marks.new result }
{
    let x = over.node;
    match x.kind {
        Kind::Flag => eval_params::eval_flag_from(
            line.known,
            marks,
            p,
            from,
            over.leaf,
            x.r == 1,
            mark,
        ),
        Kind::Argument => eval_params::eval_argument_from(
            line.known,
            line.sheet,
            line.items,
            marks,
            p,
            from,
            over.leaf,
            2 <= x.r,
            mark,
        ),
        Kind::Positional => eval_params::eval_positional_from(
            line.sheet,
            line.items,
            marks,
            p,
            from,
            x.p,
            x.r == 2,
            mark,
        ),
        _ => run_node(line, marks, p, over.leaf, mark),
    }
}

// One evaluation of a repeat's child: its leaf goes on from `from`, and the child makes its result of the leaf's.
#[cycle(nodes)]
fn turn(line: &Line, marks: &mut [u16; 256], p: Numbers, over: Chain, from: usize, mark: u16) -> Ran
    requires { Turns line.now.form.now line.now.known.now line.now.sheet.now line.now.items.now marks.old p mark over.child from × Searched line.now.form.now over.child over.leaf × (get_elem? (read_form line.now.form.now).nodes over.leaf ≡ some (node_of over.node)) }
    ensures { (t : Tree) → tree_at line.now.form.now over.child ≡ some t → Evaluates mark (sheet_area line.now.sheet.now) line.now.items.now t marks.old p marks.new result }
{
    let ran = leaf(line, marks, p, over, from, mark);
    eval_shortcut::wrap(line.form, over.child, over.leaf, ran, p)
}

// Evaluates the child until it is absent, or a success does not count, or one of `count` and `last` used nothing. Each value is
// written to the next words of `out`, from the word behind `at` on, where that is asked for.
#[cycle(nodes)]
pub fn run_repeat(
    line: &Line,
    marks: &mut [u16; 256],
    p: Numbers,
    how: Repeat,
    out: &mut [u32],
    mark: u16,
) -> Repeated
    requires { Repeating line.now.form.now line.now.known.now line.now.sheet.now line.now.items.now marks.old p mark how out.old }
    ensures { (t : Tree) → tree_at line.now.form.now how.child ≡ some t → Repeats mark (sheet_area line.now.sheet.now) line.now.items.now t how marks.old p marks.new out.old out.new result }
{
    let leaf = eval_shortcut::leaf_below(line.form, how.child);
    let over = Chain {
        child: how.child,
        leaf,
        node: form_layout::node_at(line.form, leaf),
    };
    let keeps = eval_shortcut::keeps_marks(line.form, how.child, how.catch);
    let mut before = *marks;
    let mut s = p;
    let mut from = p.start as usize;
    let mut last = None;
    let mut all = eval_words::nothing(p);
    // A loop: it ends at what the child answers, and each counted turn leaves fewer places, which no range counts.
    loop {
        let given = s.remaining;
        let ran = turn(line, marks, s, over, from, mark);
        let after = ran.numbers;
        match eval_structs::parse_option(ran.number, how.catch, given, after.remaining, last) {
            Counting::Counted => {
                let width = write_value(out, how.writes, how.at, all.size, ran.len, ran.word);
                all = eval_words::one_more(all, ran, width);
                if eval_structs::idle(how.stops, given, after.remaining) {
                    return all;
                }
                eval_words::copy_if(keeps, marks, &mut before);
                s = after;
                from = eval_words::next_from(from, given, after);
                last = Some(after.remaining);
            }
            Counting::Uncounted => return eval_words::ended(all, ran.tries, after),
            Counting::Absent => {
                eval_words::copy_if(keeps, &before, marks);
                return eval_words::ended(all, ran.tries, s);
            }
            Counting::PassedOn => {
                eval_words::unwrite(out, how.writes, how.at, all.size);
                return eval_words::passed_on(all, ran);
            }
        }
    }
}
