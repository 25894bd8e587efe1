// The repeats of a form whose child may be idle: values from nothing.
#![tactic(auto)]

ghost use Rattle.std.specs.Prelude.{◌≡◌, true, length};
ghost use Rattle.std.proofs.Math.Option.{some};
ghost use Rattle.rules.specs.Accept.{Accepted, accepted, length_good, check_form};
ghost use Rattle.rules_careful.specs.Idle.{idle_repeats, call_idle, bit_set};
ghost use Rattle.form_layout.specs.Layout.{node_of};
ghost use Rattle.form_idle.specs.Idles.{idle_by, repeat_by, said_in, idle_answer};

use form_layout::Kind;
use rules::Refused;

// Node n is bit n of `nodes`. Refused, there is none, and the refusal stands beside it. A place is itself plus 1, or 0 for none.
#[repr(C)]
#[derive(Clone, Copy)]
pub struct IdleAnswer {
    pub number: u32,
    pub place: u32,
    pub nodes: u64,
}

const MOST_NODES: usize = 64;

// What a table says of node n; it says nothing of a node that it has not.
#[tactic(auto, using(crate::proofs::Nodes::unsaid), unfolding(crate::specs::Idles::said_in))]
fn said(table: &[bool; 64], n: usize) -> bool
    requires { length table.now ≡ 64 }
    ensures { result ≡ said_in table.now n }
{
    n < MOST_NODES && table[n]
}

// Whether a node may be idle, from what its children may: some, last and guard as their child.
#[tactic(auto, using(std::proofs::lemmas::Bool::Decides::nat_tests), unfolding(crate::specs::Idles::idle_by, crate::specs::Idles::is_by_child))]
fn may_idle(x: form_layout::Node, first: bool, second: bool) -> bool
    ensures { result ≡ idle_by (node_of x) first second }
{
    match x.kind {
        Kind::Flag => x.r == 1,
        Kind::Zero | Kind::Argument | Kind::Positional => false,
        Kind::AtLeastOne | Kind::Last | Kind::Guard => first,
        Kind::Choice => first || second,
        _ => true,
    }
}

// Whether a node is a repeat, and its child may be idle.
#[tactic(auto, using(std::proofs::lemmas::Bool::Decides::nat_tests), unfolding(crate::specs::Idles::repeat_by))]
fn is_idle_repeat(x: form_layout::Node, first: bool) -> bool
    ensures { result ≡ repeat_by (node_of x) first }
{
    matches!(
        x.kind,
        Kind::Many | Kind::AtLeastOne | Kind::Count | Kind::Last
    ) && first
}

// The set of such repeats. Children have lower numbers, so one pass is enough.
fn gather(b: &[u8]) -> u64
    requires { length_good b.now ≡ true }
    ensures { (a : Accepted) → check_form b.now ≡ accepted a → result ≡ bit_set (idle_repeats a) }
{
    let count = form_layout::node_count(b);
    let mut table = [false; 64];
    let mut found: u64 = 0;
    for k in 0..count {
        let x = form_layout::node_at(b, k);
        let first = said(&table, x.p);
        let second = said(&table, x.q);
        table[k] = may_idle(x, first, second);
        if is_idle_repeat(x, first) {
            found += 1u64 << k;
        }
    }
    found
}

// The repeats of a form whose child may be idle.
pub fn idle_repeats(form: &[u8]) -> IdleAnswer
    ensures { idle_answer (call_idle form.now) ≡ some result }
{
    if let Err(e) = form_check::check(form) {
        let Refused { number, place } = e.told();
        return IdleAnswer {
            number,
            place,
            nodes: 0,
        };
    }
    IdleAnswer {
        number: 0,
        place: 0,
        nodes: gather(form),
    }
}
