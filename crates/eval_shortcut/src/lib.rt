// What is known of a node before it is run, and what a node makes of the result of the leaf beneath it.
#![tactic(auto)]

ghost use Rattle.std.specs.Prelude.{◌≡◌, true, not};
ghost use Rattle.std.proofs.Math.Option.{some};
ghost use Rattle.rules.specs.Tree.{Tree, kind_of};
ghost use Rattle.eval_told.specs.Nodes.{tree_at, is_scalar};
ghost use Rattle.eval_shortcut.specs.Marks.{undoes, keeps_leaf, keeps_marks, is_leaf, HasTree};
ghost use Rattle.eval_shortcut.specs.Children.{leaf_below, Searched, LeafRan, HandsOn};
ghost use Rattle.eval_shortcut.specs.OneSide.{Searchable, misses_by, stays_by, alone_by, Misses, Stays, Alone};

use eval_told::Ran;
use form_layout::Kind;
use state_marks::Numbers;

// Whether a refusal of this node leaves the state as it was, whatever the refusal.
fn undoes(form: &[u8], node: usize) -> bool
    requires { HasTree form.now node }
    ensures { (t : Tree) → tree_at form.now node ≡ some t → result ≡ undoes t }
{
    let x = form_layout::node_at(form, node);
    match x.kind {
        Kind::Flag | Kind::Choice | Kind::Fallback => true,
        Kind::Argument => x.r < 2,
        _ => false,
    }
}

// Whether a leaf that is absent may have used something, where no refusal is caught.
fn keeps_leaf(form: &[u8], node: usize) -> bool
    requires { HasTree form.now node }
    ensures { (t : Tree) → tree_at form.now node ≡ some t → result ≡ keeps_leaf t }
{
    let x = form_layout::node_at(form, node);
    match x.kind {
        Kind::Argument => false,
        Kind::Positional => 2 <= x.p,
        _ => true,
    }
}

// Whether a child that is absent may have used something, so that the marks must be put back.
pub fn keeps_marks(form: &[u8], child: usize, catch: bool) -> bool
    requires { HasTree form.now child }
    ensures { (t : Tree) → tree_at form.now child ≡ some t → result ≡ keeps_marks catch t }
{
    if undoes(form, child) {
        return false;
    }
    if catch {
        return true;
    }
    let x = form_layout::node_at(form, child);
    if let Kind::Guard = x.kind {
        return keeps_leaf(form, x.p);
    }
    keeps_leaf(form, child)
}

// Whether a node is a required flag or an argument, and no item has its names.
fn is_missing(form: &[u8], known: &[u64], node: usize) -> bool
    requires { Searchable form.now known.now node }
    ensures value { (t : Tree) → tree_at form.now node ≡ some t → result ≡ misses_by known.now node t }
    ensures misses { result ≡ true → Misses form.now known.now node }
{
    let x = form_layout::node_at(form, node);
    match x.kind {
        Kind::Flag => x.r != 1 && eval_params::is_missing(known, node),
        Kind::Argument => eval_params::is_missing(known, node), // every argument is required
        _ => false,
    }
}

// Whether a refusal of a node leaves the state as it was: it undoes its refusals, or no item has its names.
pub fn stays(form: &[u8], known: &[u64], node: usize) -> bool
    requires { Searchable form.now known.now node }
    ensures value { (t : Tree) → tree_at form.now node ≡ some t → result ≡ stays_by known.now node t }
    ensures stays { result ≡ true → Stays form.now known.now node }
{
    undoes(form, node) || is_missing(form, known, node)
}

// Whether a refusal of a node leaves the state as it was, and the other side of its choice is missing: then no copies are needed.
pub fn alone(form: &[u8], known: &[u64], node: usize, other: usize) -> bool
    requires { Searchable form.now known.now node × Searchable form.now known.now other }
    ensures value { (t u : Tree) → tree_at form.now node ≡ some t → tree_at form.now other ≡ some u → result ≡ alone_by known.now node t other u }
    ensures alone { result ≡ true → Alone form.now known.now node other }
{
    stays(form, known, node) && is_missing(form, known, other)
}

// Whether a node is a flag, an argument or a positional.
fn is_leaf(form: &[u8], node: usize) -> bool
    requires { HasTree form.now node }
    ensures { (t : Tree) → tree_at form.now node ≡ some t → result ≡ is_leaf t }
{
    let x = form_layout::node_at(form, node);
    x.kind.is_leaf()
}

// The node that a turn evaluates first: the leaf right beneath a guard, or beneath an optional that has no marks to put back.
// Of any other child it is the child itself.
pub fn leaf_below(form: &[u8], child: usize) -> usize
    requires { (t : Tree) × (tree_at form.now child ≡ some t) }
    ensures value { (t : Tree) → tree_at form.now child ≡ some t → result ≡ leaf_below form.now child t }
    ensures searched { Searched form.now child result }
{
    let x = form_layout::node_at(form, child);
    match x.kind {
        Kind::Guard if is_leaf(form, x.p) => x.p,
        Kind::Optional if is_leaf(form, x.p) && !keeps_marks(form, x.p, x.r == 1) => x.p,
        _ => child,
    }
}

// What the child makes of the result of the leaf beneath it.
pub fn wrap(form: &[u8], child: usize, leaf: usize, ran: Ran, p: Numbers) -> Ran
    requires { LeafRan form.now child leaf ran }
    ensures { HandsOn form.now child leaf p ran result }
{
    if leaf == child {
        return ran;
    }
    let x = form_layout::node_at(form, child);
    if let Kind::Guard = x.kind {
        return eval_combine::guard(ran, x.lo, x.hi);
    }
    eval_combine::optional_unchanged(ran, p, x.r == 1).ran
}

// Whether the value of a node is a list or an optional list: through optionals and choices to what is beneath.
pub fn is_list(form: &[u8], node: usize) -> bool
    requires { (t : Tree) × (tree_at form.now node ≡ some t) }
    ensures { (t : Tree) → tree_at form.now node ≡ some t → not result ≡ is_scalar (kind_of t) }
{
    // A loop: each step goes down to a child, which no range counts.
    let mut n = node;
    loop {
        let x = form_layout::node_at(form, n);
        match x.kind {
            Kind::Optional | Kind::Choice => n = x.p,
            Kind::Many | Kind::AtLeastOne => return true,
            _ => return false,
        }
    }
}
