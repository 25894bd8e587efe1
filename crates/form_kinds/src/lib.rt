// The kind of a node, worked out from the kinds of its children. A node's code is the number of its kind (1 to 15), 16 more
// if there is a repeat here or beneath, and 32 for a node at fault.
#![tactic(auto)]

ghost use Rattle.std.specs.Prelude.{◌≡◌, true, ◌≤◌, [], ◌∷◌};
ghost use Rattle.rules.specs.Base.{is_some};
ghost use Rattle.rules.specs.Form.{read_form};
ghost use Rattle.rules.specs.Tree.{zeros, names_of};
ghost use Rattle.rules.specs.Accept.{length_good};
ghost use Rattle.form_layout.specs.Kinds.{kind_number};
ghost use Rattle.form_layout.specs.Layout.{node_of};
ghost use Rattle.form_kinds.specs.Kinds.{named_good, flag_code, argument_code, positional_code, leaf_code, child_good, optional_code, repeat_code, wrap_code, choice_code, text_name, fallback_code, guard_code, inner_code};
ghost use Rattle.form_kinds.specs.Known.{Done, Filling};

use form_layout::Kind;

// The code of a node at fault.
pub const AT_FAULT: u8 = 32;

// Whether numbers that a node does not use are 0; a caller puts 0 for those that are used.
#[tactic(auto, using(std::proofs::lemmas::Bool::Decides::nat_tests), unfolding(rules::specs::Tree::zeros, rules::specs::Base::all))]
fn unused(q: usize, r: usize, lo: u32, hi: u32) -> bool
    ensures { result ≡ zeros (q ∷ r ∷ lo ∷ hi ∷ []) }
{
    q == 0 && r == 0 && lo == 0 && hi == 0
}

// Whether the node names one record or more, all short or long.
fn names_good(b: &[u8], x: form_layout::Node) -> bool
    requires { length_good b.now ≡ true }
    ensures { result ≡ is_some (names_of (read_form b.now) (node_of x)) }
{
    let from = x.p;
    let size = x.q;
    let count = form_layout::name_count(b);
    if size == 0 || count < size || count - size < from {
        return false;
    }
    for i in 0..size {
        if 1 < form_layout::name_at(b, from + i).kind {
            return false;
        }
    }
    true
}

#[tactic(auto, using(std::proofs::lemmas::Bool::Decides::nat_tests), unfolding(crate::specs::Kinds::named_good, rules::specs::Tree::zeros, rules::specs::Base::all))]
fn named_good(b: &[u8], x: form_layout::Node, most: usize) -> bool
    requires { length_good b.now ≡ true }
    ensures { result ≡ named_good (read_form b.now) (node_of x) most }
{
    x.r <= most && unused(0, 0, x.lo, x.hi) && names_good(b, x)
}

#[tactic(auto, using(std::proofs::lemmas::Bool::Decides::nat_tests), unfolding(crate::specs::Kinds::flag_code))]
fn flag_code(b: &[u8], x: form_layout::Node) -> u8
    requires { length_good b.now ≡ true }
    ensures { result ≡ flag_code (read_form b.now) (node_of x) }
{
    if named_good(b, x, 1) { 1 } else { AT_FAULT }
}

#[tactic(auto, using(std::proofs::lemmas::Bool::Decides::nat_tests), unfolding(crate::specs::Kinds::argument_code))]
fn argument_code(b: &[u8], x: form_layout::Node) -> u8
    requires { length_good b.now ≡ true }
    ensures { result ≡ argument_code (read_form b.now) (node_of x) }
{
    if !named_good(b, x, 3) {
        return AT_FAULT;
    }
    if x.r < 2 { 2 } else { 3 }
}

#[tactic(auto, using(std::proofs::lemmas::Bool::Decides::nat_tests), unfolding(crate::specs::Kinds::positional_code, rules::specs::Tree::zeros, rules::specs::Base::all))]
fn positional_code(x: form_layout::Node) -> u8
    ensures { result ≡ positional_code (node_of x) }
{
    if 2 < x.p || !unused(x.q, 0, x.lo, x.hi) {
        return AT_FAULT;
    }
    match x.r {
        0 => 2,
        2 => 3,
        _ => AT_FAULT,
    }
}

#[tactic(auto, using(std::proofs::lemmas::Bool::Decides::nat_tests), unfolding(crate::specs::Kinds::leaf_code))]
fn leaf_code(b: &[u8], x: form_layout::Node) -> u8
    requires { length_good b.now ≡ true }
    ensures { result ≡ leaf_code (read_form b.now) (node_of x) }
{
    match x.kind {
        Kind::Flag => flag_code(b, x),
        Kind::Argument => argument_code(b, x),
        Kind::Positional => positional_code(x),
        _ => AT_FAULT,
    }
}

// The numbers of kinds 4 to 8.
#[tactic(auto, using(std::proofs::lemmas::Bool::Decides::nat_tests), unfolding(crate::specs::Kinds::child_good, rules::specs::Tree::zeros, rules::specs::Base::all))]
fn child_good(x: form_layout::Node) -> bool
    requires { kind_number x.kind ≤ 8 }
    ensures { result ≡ child_good (node_of x) }
{
    match x.kind {
        Kind::Count | Kind::Last => unused(x.q, x.r, x.lo, x.hi),
        _ => x.r <= 1 && unused(x.q, 0, x.lo, x.hi),
    }
}

// A base value, or a list of base values.
#[tactic(auto, using(std::proofs::lemmas::Bool::Decides::nat_tests), unfolding(crate::specs::Kinds::optional_code))]
fn optional_code(c: u8) -> u8
    ensures { result ≡ optional_code c }
{
    match c % 16 {
        1..=3 => c + 3,
        7..=9 => c + 6,
        _ => AT_FAULT,
    }
}

// A base or an optional base with no repeat beneath: many and some make a list of it, count a number, last itself.
#[tactic(auto, using(std::proofs::lemmas::Bool::Decides::nat_tests), unfolding(crate::specs::Kinds::repeat_code))]
fn repeat_code(kind: Kind, c: u8) -> u8
    requires { kind_number kind ≤ 8 }
    ensures { result ≡ repeat_code (kind_number kind) c }
{
    if c == 0 || 6 < c {
        return AT_FAULT;
    }
    match kind {
        Kind::Count => 19,
        Kind::Last => c + 16,
        _ => c + 22,
    }
}

// Kinds 4 to 8.
#[tactic(auto, using(std::proofs::lemmas::Bool::Decides::nat_tests), unfolding(crate::specs::Kinds::wrap_code))]
fn wrap_code(x: form_layout::Node, c: u8) -> u8
    requires { kind_number x.kind ≤ 8 }
    ensures { result ≡ wrap_code (node_of x) c }
{
    if !child_good(x) {
        return AT_FAULT;
    }
    match x.kind {
        Kind::Optional => optional_code(c),
        _ => repeat_code(x.kind, c),
    }
}

// The same kind for both; a repeat in either is a repeat beneath.
#[tactic(auto, using(std::proofs::lemmas::Bool::Decides::nat_tests), unfolding(crate::specs::Kinds::choice_code, crate::specs::Kinds::both_code, rules::specs::Tree::zeros, rules::specs::Base::all))]
fn choice_code(x: form_layout::Node, c: u8, d: u8) -> u8
    ensures { result ≡ choice_code (node_of x) c d }
{
    let k = c % 16;
    if !unused(0, x.r, x.lo, x.hi) || k == 0 || k != d % 16 {
        return AT_FAULT;
    }
    if 16 <= c { c } else { d }
}

// Whether name record k is there and is a text.
#[tactic(auto, using(form_layout::proofs::Sizes::sized, crate::proofs::Steps::text_there, crate::proofs::Steps::text_outside, std::proofs::lemmas::Bool::Decides::nat_tests))]
fn text_name(b: &[u8], k: usize) -> bool
    requires { length_good b.now ≡ true }
    ensures { result ≡ text_name (read_form b.now) k }
{
    k < form_layout::name_count(b) && form_layout::name_at(b, k).kind == 2
}

// A base value, by its kind.
#[tactic(auto, using(std::proofs::lemmas::Bool::Decides::nat_tests), unfolding(crate::specs::Kinds::fallback_code, crate::specs::Kinds::fallback_by, rules::specs::Tree::zeros, rules::specs::Base::all))]
fn fallback_code(b: &[u8], x: form_layout::Node, c: u8) -> u8
    requires { length_good b.now ≡ true }
    ensures { result ≡ fallback_code (read_form b.now) (node_of x) c }
{
    if x.q != 0 {
        return AT_FAULT;
    }
    let good = match c % 16 {
        1 => x.lo <= 1 && unused(0, x.r, 0, x.hi),
        2 => unused(0, 0, x.lo, x.hi) && text_name(b, x.r),
        3 => unused(0, x.r, 0, x.hi),
        _ => false,
    };
    if good { c } else { AT_FAULT }
}

#[tactic(auto, using(std::proofs::lemmas::Bool::Decides::nat_tests), unfolding(crate::specs::Kinds::guard_code, crate::specs::Kinds::guard_by, rules::specs::Tree::zeros, rules::specs::Base::all))]
fn guard_code(x: form_layout::Node, c: u8) -> u8
    ensures { result ≡ guard_code (node_of x) c }
{
    if unused(x.q, x.r, 0, 0) && x.lo <= x.hi && c % 16 == 3 {
        c
    } else {
        AT_FAULT
    }
}

// Kinds 4 and above, from the codes of the children, c and d.
#[tactic(auto, using(std::proofs::lemmas::Bool::Decides::nat_tests), unfolding(crate::specs::Kinds::inner_code))]
fn inner_code(b: &[u8], x: form_layout::Node, c: u8, d: u8) -> u8
    requires { length_good b.now ≡ true }
    ensures { result ≡ inner_code (read_form b.now) (node_of x) c d }
{
    match x.kind {
        Kind::Choice => choice_code(x, c, d),
        Kind::Fallback => fallback_code(b, x, c),
        Kind::Guard => guard_code(x, c),
        Kind::Other(_) => AT_FAULT,
        _ => wrap_code(x, c),
    }
}

// Puts the code of node k into the table, whose codes are right. A child has a lower number, and is worked out first unless
// its code is known: once however often it is used. The function calls itself, a form that is asked for by name.
pub fn fill(b: &[u8], k: usize, codes: &mut [u8; 64])
    requires { Filling b.now k codes.old }
    ensures { Done (read_form b.now) k codes.old codes.new }
{
    let x = form_layout::node_at(b, k);
    if x.kind.is_leaf() {
        codes[k] = leaf_code(b, x);
        return;
    }
    let p = x.p;
    let mut c = 0;
    if p < k {
        if codes[p] == 0 {
            fill(b, p, codes);
        }
        c = codes[p];
    }
    let mut d = 0;
    if x.kind == Kind::Choice {
        let q = x.q;
        if q < k {
            if codes[q] == 0 {
                fill(b, q, codes);
            }
            d = codes[q];
        }
    }
    codes[k] = inner_code(b, x, c, d);
}
