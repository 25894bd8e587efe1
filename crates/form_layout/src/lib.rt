// A form's counts and length, and the readers of its fields, nodes and names.
#![tactic(auto)]

ghost use Rattle.std.specs.Prelude.{◌≡◌, true, ◌^◌, ◌≤◌, ◌<◌, leb, length};
ghost use Rattle.std.proofs.Math.Option.{some};
ghost use Rattle.std.proofs.Math.ListN.{get_elem?};
ghost use Rattle.rules.specs.Form.{node_count, field_count, name_count, area_length, counts_good, nodes_at, names_at, area_at, read_form};
ghost use Rattle.rules.specs.Accept.{length_good};
ghost use Rattle.form_names.specs.Names.{name_of};
ghost use Rattle.form_layout.specs.Kinds.{kind_number};
ghost use Rattle.form_layout.specs.Layout.{node_of, HasName, name_bytes_at};

// The most nodes, fields, name records and bytes of their area that a form has.
const NODES: usize = 64;

const FIELDS: usize = 16;

const NAMES: usize = 128;

const AREA: usize = 4096;

// The kind of a node, by document 01's numbers from 1 on. The form check refuses Zero and Other, which has its number less 12.
#[derive(Clone, Copy, PartialEq, Eq, Debug)]
pub enum Kind {
    Zero,
    Flag,
    Argument,
    Positional,
    Optional,
    Many,
    AtLeastOne,
    Count,
    Last,
    Choice,
    Fallback,
    Guard,
    Other(u32),
}

impl Kind {
    // As the form has it.
    pub fn number(self) -> u32
        requires { kind_number self < 2 ^ 32 }
        ensures { result ≡ kind_number self }
    {
        match self {
            Kind::Zero => 0,
            Kind::Flag => 1,
            Kind::Argument => 2,
            Kind::Positional => 3,
            Kind::Optional => 4,
            Kind::Many => 5,
            Kind::AtLeastOne => 6,
            Kind::Count => 7,
            Kind::Last => 8,
            Kind::Choice => 9,
            Kind::Fallback => 10,
            Kind::Guard => 11,
            Kind::Other(n) => n + 12,
        }
    }

    // Whether a node of it has no child: a flag, an argument or a positional.
    pub fn is_leaf(self) -> bool
        ensures { result ≡ leb (kind_number self) 3 }
    {
        matches!(
            self,
            Kind::Zero | Kind::Flag | Kind::Argument | Kind::Positional
        )
    }
}

impl From<u32> for Kind {
    ghost from_gives = { λ number kind. kind_number kind ≡ number };

    fn from(number: u32) -> Kind {
        match number {
            0 => Kind::Zero,
            1 => Kind::Flag,
            2 => Kind::Argument,
            3 => Kind::Positional,
            4 => Kind::Optional,
            5 => Kind::Many,
            6 => Kind::AtLeastOne,
            7 => Kind::Count,
            8 => Kind::Last,
            9 => Kind::Choice,
            10 => Kind::Fallback,
            11 => Kind::Guard,
            _ => Kind::Other(number - 12),
        }
    }
}

// A node's kind and numbers, as the form has them.
#[derive(Clone, Copy)]
pub struct Node {
    pub kind: Kind,
    pub p: usize,
    pub q: usize,
    pub r: usize,
    pub lo: u32,
    pub hi: u32,
}

#[tactic(auto, unfolding(rules::specs::Form::node_count))]
pub fn node_count(b: &[u8]) -> usize
    requires { 8 ≤ length b.now }
    ensures { result ≡ node_count b.now }
{
    wire::u16_at(b, 0) as usize
}

#[tactic(auto, unfolding(rules::specs::Form::field_count))]
pub fn field_count(b: &[u8]) -> usize
    requires { 8 ≤ length b.now }
    ensures { result ≡ field_count b.now }
{
    wire::u16_at(b, 2) as usize
}

#[tactic(auto, unfolding(rules::specs::Form::name_count))]
pub fn name_count(b: &[u8]) -> usize
    requires { 8 ≤ length b.now }
    ensures { result ≡ name_count b.now }
{
    wire::u16_at(b, 4) as usize
}

#[tactic(auto, unfolding(rules::specs::Form::area_length))]
pub fn area_length(b: &[u8]) -> usize
    requires { 8 ≤ length b.now }
    ensures { result ≡ area_length b.now }
{
    wire::u16_at(b, 6) as usize
}

#[tactic(auto, using(std::proofs::lemmas::Bool::Decides::nat_tests), unfolding(rules::specs::Form::counts_good))]
fn counts_good(b: &[u8]) -> bool
    ensures { result ≡ counts_good b.now }
{
    if b.len() < 8 {
        return false;
    }
    let nodes = node_count(b);
    let fields = field_count(b);
    1 <= nodes
        && nodes <= NODES
        && 1 <= fields
        && fields <= FIELDS
        && name_count(b) <= NAMES
        && area_length(b) <= AREA
}

// Where the nodes, the names and the area start.
#[tactic(auto, using(crate::proofs::Sizes::counted))]
pub fn nodes_at(b: &[u8]) -> usize
    requires { counts_good b.now ≡ true }
    ensures { result ≡ nodes_at b.now }
{
    8 + 2 * field_count(b)
}

#[tactic(auto, using(crate::proofs::Sizes::counted))]
pub fn names_at(b: &[u8]) -> usize
    requires { counts_good b.now ≡ true }
    ensures { result ≡ names_at b.now }
{
    nodes_at(b) + 16 * node_count(b)
}

#[tactic(auto, using(crate::proofs::Sizes::counted))]
pub fn area_at(b: &[u8]) -> usize
    requires { counts_good b.now ≡ true }
    ensures { result ≡ area_at b.now }
{
    names_at(b) + 6 * name_count(b)
}

#[tactic(auto, using(crate::proofs::Sizes::counted, std::proofs::lemmas::Bool::Decides::nat_tests), unfolding(rules::specs::Accept::length_good, rules::specs::Form::form_length))]
pub fn length_good(b: &[u8]) -> bool
    ensures { result ≡ length_good b.now }
{
    counts_good(b) && area_at(b) + area_length(b) == b.len()
}

#[tactic(auto, using(crate::proofs::Sizes::sized, crate::proofs::Sizes::field_there))]
pub fn field_at(b: &[u8], k: usize) -> usize
    requires { (length_good b.now ≡ true) × (k < field_count b.now) }
    ensures { get_elem? (read_form b.now).fields k ≡ some result }
{
    wire::u16_at(b, 8 + 2 * k) as usize
}

#[tactic(auto, using(crate::proofs::Sizes::sized, crate::proofs::Sizes::length_counts, crate::proofs::Sizes::node_there))]
pub fn node_at(b: &[u8], k: usize) -> Node
    requires { (length_good b.now ≡ true) × (k < node_count b.now) }
    ensures { get_elem? (read_form b.now).nodes k ≡ some (node_of result) }
{
    let at = nodes_at(b) + 16 * k;
    Node {
        kind: Kind::from(wire::u16_at(b, at)),
        p: wire::u16_at(b, at + 2) as usize,
        q: wire::u16_at(b, at + 4) as usize,
        r: wire::u16_at(b, at + 6) as usize,
        lo: wire::u32_at(b, at + 8),
        hi: wire::u32_at(b, at + 12),
    }
}

pub fn name_at(b: &[u8], k: usize) -> form_names::Name
    requires { (length_good b.now ≡ true) × (k < name_count b.now) }
    ensures { get_elem? (read_form b.now).names k ≡ some (name_of result) }
{
    let at = names_at(b);
    form_names::record_at(&b[at..], k)
}

// The bytes of name k.
pub fn name_bytes(b: &[u8], k: usize) -> &[u8]
    requires { HasName b.now k }
    ensures { name_bytes_at (read_form b.now) k ≡ some result.now }
{
    let x = name_at(b, k);
    let area = area_at(b);
    form_names::bytes(&b[area..], x)
}
