// What a checked form gives: the kind of a node, the field that has it, and the portable mark.
#![tactic(auto)]

ghost use Rattle.std.specs.Prelude.{◌≡◌, true, ◌≤◌, ◌<◌};
ghost use Rattle.std.proofs.Math.Option.{some};
ghost use Rattle.std.proofs.Math.ListN.{get_elem?};
ghost use Rattle.rules.specs.Base.{contains};
ghost use Rattle.rules.specs.Codes.{kind_code};
ghost use Rattle.rules.specs.Form.{Node, Name, node_count, field_count, read_form, portable_name, portable};
ghost use Rattle.rules.specs.Tree.{Tree, kind_of};
ghost use Rattle.rules.specs.Value.{Kind};
ghost use Rattle.rules.specs.Accept.{Accepted, accepted, length_good, children_of, top_of, field_of, check_form};
ghost use Rattle.form_layout.specs.Layout.{GoodNames, HasName};

// The kind of node k, by number.
pub fn kind(b: &[u8], k: usize) -> u32
    requires { (length_good b.now ≡ true) × (k < node_count b.now) }
    ensures { (a : Accepted) (t : Tree) (κ : Kind) → check_form b.now ≡ accepted a → get_elem? a.trees k ≡ some t → kind_of t ≡ some κ → result ≡ kind_code κ }
{
    let mut codes = [0u8; 64];
    form_kinds::fill(b, k, &mut codes);
    u32::from(codes[k] % 16)
}

// Whether node `m` has node `n` as a child.
#[tactic(auto, using(crate::proofs::Owners::told, std::proofs::lemmas::Bool::Decides::nat_tests), unfolding(rules::specs::Accept::children_of, rules::specs::Base::contains))]
fn is_child(b: &[u8], m: usize, n: usize) -> bool
    requires { (length_good b.now ≡ true) × (m < node_count b.now) }
    ensures { (x : Node) → get_elem? (read_form b.now).nodes m ≡ some x → result ≡ contains (children_of x) n }
{
    let x = form_layout::node_at(b, m);
    !x.kind.is_leaf() && (x.p == n || (x.kind == form_layout::Kind::Choice && x.q == n))
}

// From node `n` up to the one that no other has as a child. Children have lower numbers, so one pass is enough.
fn top_of(b: &[u8], n: usize) -> usize
    requires { length_good b.now ≡ true }
    ensures { result ≡ top_of (read_form b.now) n }
{
    let count = form_layout::node_count(b);
    let mut at = n;
    for m in 0..count {
        if is_child(b, m, at) {
            at = m;
        }
    }
    at
}

// The number of the field whose tree has node `n`.
pub fn field_of(b: &[u8], n: usize) -> usize
    requires { length_good b.now ≡ true }
    ensures { (result ≡ field_of (read_form b.now) n) × (result ≤ field_count b.now) }
{
    let top = top_of(b, n);
    let count = form_layout::field_count(b);
    for k in 0..count {
        if form_layout::field_at(b, k) == top {
            return k;
        }
    }
    count
}

// Whether name k passes for the portable mark.
fn portable_at(b: &[u8], k: usize) -> bool
    requires { HasName b.now k }
    ensures { (x : Name) → get_elem? (read_form b.now).names k ≡ some x → result ≡ portable_name (read_form b.now).area x }
{
    let x = form_layout::name_at(b, k);
    let area = form_layout::area_at(b);
    form_names::portable_name(&b[area..], x)
}

// The portable mark.
pub fn is_portable(b: &[u8]) -> bool
    requires { GoodNames b.now }
    ensures { result ≡ portable (read_form b.now) }
{
    let m = form_layout::name_count(b);
    for k in 0..m {
        if !portable_at(b, k) {
            return false;
        }
    }
    true
}
