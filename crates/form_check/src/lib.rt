// The form check.
#![tactic(auto)]

ghost use Rattle.std.specs.Prelude.{◌≡◌, true, not, List, [], ◌≤◌, ◌<◌, eqb, length, get_or, replicate};
ghost use Rattle.rules.specs.Base.{numbers, concat_map, first_fault};
ghost use Rattle.rules.specs.Codes.{check_code};
ghost use Rattle.rules.specs.Form.{node_count, read_form};
ghost use Rattle.rules.specs.Reported.{reported};
ghost use Rattle.rules.specs.Tree.{Tree};
ghost use Rattle.rules.specs.Accept.{length_good, trees_from, children_of, check_use, check_form};
ghost use Rattle.form_names.specs.Names.{fault_or};
ghost use Rattle.form_layout.specs.Layout.{node_of};
ghost use Rattle.form_kinds.specs.Known.{codes};
ghost use Rattle.form_check.specs.Uses.{greatest, added, tally, FieldsCounted, records_fault};

use form_kinds::AT_FAULT;
use form_layout::Kind;
use rules::{Refusal, RefusedAt};

// Puts the codes of all nodes into an empty table. The highest is asked for first, and works out those beneath it; every node is
// asked for, used or not, unless its code is known by then.
fn fill_all(b: &[u8], table: &mut [u8; 64])
    requires { (length_good b.now ≡ true) × (table.old ≡ replicate 64 0) }
    ensures { table.new ≡ codes (read_form b.now) 64 }
{
    for k in (0..form_layout::node_count(b)).rev() {
        if table[k] == 0 {
            form_kinds::fill(b, k, table);
        }
    }
}

// The greatest code. It looks at every one, so that the compiler can take many at a time.
fn greatest(codes: &[u8; 64]) -> u8
    requires { length codes.now ≡ 64 }
    ensures { result ≡ greatest codes.now }
{
    let mut most: u8 = 0;
    for c in codes {
        most = most.max(*c);
    }
    most
}

// The lowest node at fault.
fn check_nodes(b: &[u8]) -> Result<(), RefusedAt>
    requires { length_good b.now ≡ true }
    ensures { reported result ≡ check_code (trees_from (read_form b.now) [] (read_form b.now).nodes) }
{
    let n = form_layout::node_count(b);
    let mut codes = [0u8; 64];
    fill_all(b, &mut codes);
    if greatest(&codes) < AT_FAULT {
        return Ok(()); // none is at fault
    }
    match codes[..n].iter().position(|c| *c == AT_FAULT) {
        Some(fault) => Err(RefusedAt::at(Refusal::BadNode, fault)),
        None => Ok(()),
    }
}

// One more use of node k: 0, 1, or 2 for more.
fn add(counts: &mut [u8; 64], k: usize)
    requires { k < 64 }
    ensures { counts.new ≡ added counts.old k }
{
    if counts[k] < 2 {
        counts[k] += 1;
    }
}

// Counts the uses of the fields. No if a field is none of n nodes: the counts are then of no use.
fn count_fields(b: &[u8], n: usize, counts: &mut [u8; 64]) -> bool
    requires { (length_good b.now ≡ true) × (n ≤ 64) }
    ensures { FieldsCounted n (read_form b.now).fields counts.old counts.new result }
{
    let f = form_layout::field_count(b);
    for i in 0..f {
        let k = form_layout::field_at(b, i);
        if n <= k {
            return false;
        }
        add(counts, k);
    }
    true
}

#[tactic(auto, using(crate::proofs::Counting::added_outside, std::proofs::lemmas::Bool::Decides::nat_tests), unfolding(rules::specs::Accept::children_of, crate::specs::Uses::tally))]
fn add_children(x: form_layout::Node, counts: &mut [u8; 64])
    ensures { counts.new ≡ tally counts.old (children_of (node_of x)) }
{
    if x.kind.is_leaf() {
        return;
    }
    if x.p < 64 {
        add(counts, x.p);
    }
    if x.kind == Kind::Choice && x.q < 64 {
        add(counts, x.q);
    }
}

fn count_children(b: &[u8], counts: &mut [u8; 64])
    requires { length_good b.now ≡ true }
    ensures { counts.new ≡ tally counts.old (concat_map children_of (read_form b.now).nodes) }
{
    let n = form_layout::node_count(b);
    for k in 0..n {
        add_children(form_layout::node_at(b, k), counts);
    }
}

// Of the trees, only their number counts here.
fn check_uses(b: &[u8]) -> Result<(), RefusedAt>
    requires { length_good b.now ≡ true }
    ensures { (ts : List Tree) → length ts ≡ node_count b.now → reported result ≡ check_code (check_use (read_form b.now) ts) }
{
    let n = form_layout::node_count(b);
    let mut counts = [0u8; 64];
    if !count_fields(b, n, &mut counts) {
        return Err(RefusedAt::from(Refusal::BadUse));
    }
    count_children(b, &mut counts);
    match counts[..n].iter().position(|c| *c != 1) {
        Some(fault) => Err(RefusedAt::at(Refusal::BadUse, fault)),
        None => Ok(()),
    }
}

// The lowest name record at fault, or their count.
fn records_fault(b: &[u8]) -> usize
    requires { length_good b.now ≡ true }
    ensures { result ≡ records_fault (read_form b.now) }
{
    let names = form_layout::names_at(b);
    let area = form_layout::area_at(b);
    form_names::names_fault(&b[names..], &b[area..], form_layout::name_count(b))
}

// The form check: whether the form is accepted, or its first fault.
pub fn check(b: &[u8]) -> Result<(), RefusedAt>
    ensures { reported result ≡ check_code (check_form b.now) }
{
    if !form_layout::length_good(b) {
        return Err(RefusedAt::from(Refusal::BadCounts));
    }
    let fault = records_fault(b);
    if fault < form_layout::name_count(b) {
        return Err(RefusedAt::at(Refusal::BadName, fault));
    }
    check_nodes(b)?;
    check_uses(b)
}
