// Which flags and arguments each item matches, worked out once: bit n of an item's word is set if node n matches the item.
#![tactic(auto)]

ghost use Rattle.std.specs.Prelude.{◌≡◌, Bool, true, not, ◌&&◌, ◌||◌, List, ℕ, ◌≤◌, ◌<◌, eqb, length, get_or};
ghost use Rattle.rules.specs.Accept.{length_good};
ghost use Rattle.rules.specs.Form.{name_count};
ghost use Rattle.rules.specs.Sheet.{sheet_area};
ghost use Rattle.rules.specs.Split.{Item as RulesItem};
ghost use Rattle.form_layout.specs.Layout.{node_of, GoodNames};
ghost use Rattle.take_search.specs.Search.{HasItem, Sought};
ghost use Rattle.form_letters.specs.Classes.{MarkedBits};
ghost use Rattle.take_table.specs.Bits.{bit_at};
ghost use Rattle.take_table.specs.Known.{is_adjacent, SetOf, Matchable, MatchSet, Known, TableTells};
ghost use Rattle.take_table.specs.Owners.{NoOwners, Owners, Added, is_loose, Lookup, has_short, has_long};

use form_layout::Kind;
use split_arg::Item;

// The words of the longest table: one of all items, then one for each item that a line can have. A shorter line needs no more than
// one word for each of its own items.
pub const TABLE_WORDS: usize = 257;

const ALL_ITEMS: usize = 0;

// ---- sets of nodes as the bits of a word. Functions, as no clause of `>>`, `<<` and `|` says what each bit is.

// Whether n is in the set.
fn has(set: u64, n: usize) -> bool
    requires { n < 64 }
    ensures { result ≡ bit_at «set» n }
{
    (set >> n) % 2 == 1
}

// The set of n alone.
fn only(n: usize) -> u64
    requires { n < 64 }
    ensures { (m : ℕ) → bit_at result m ≡ eqb m n }
{
    1u64 << n
}

fn union(a: u64, b: u64) -> u64
    ensures { (m : ℕ) → bit_at result m ≡ (bit_at a m || bit_at b m) }
{
    a | b
}

// ---- the nodes that have a name record among their names

// The most name records of a form, and as many as most forms have: to clear sixteen words is to write 128 bytes, not 1,024.
const MOST_NAMES: usize = 128;

const FEW_NAMES: usize = 16;

// The records from `first` on, below `end`, get the nodes of a set as owners. By places: `first` may lie behind `end`, where a part of
// the slice would be out of bounds. form_letters has the same over bytes: one for both would need a trait with a law for `|`.
fn mark(owners: &mut [u64], set: u64, first: usize, end: usize)
    requires { end ≤ length owners.old }
    ensures { MarkedBits set first end owners.old owners.new }
{
    for k in first..end {
        owners[k] |= set;
    }
}

// A flag or an argument becomes an owner of its names.
fn mark_node(x: form_layout::Node, n: usize, count: usize, owners: &mut [u64])
    requires { (n < 64) × (count ≤ length owners.old) }
    ensures { Added (node_of x) n count owners.old owners.new }
{
    if let Kind::Flag | Kind::Argument = x.kind {
        mark(
            owners,
            only(n),
            x.p,
            form_letters::names_end(x.p, x.q, count),
        );
    }
}

#[tactic(auto, unfolding(crate::specs::Known::is_adjacent))]
fn is_adjacent(x: form_layout::Node) -> bool
    ensures { result ≡ is_adjacent (node_of x) }
{
    x.kind == Kind::Argument && x.r % 2 == 1
}

// Node n goes to the set unless it is an adjacent argument.
fn add_loose(set: u64, x: form_layout::Node, n: usize) -> u64
    requires { n < 64 }
    ensures { (m : ℕ) → bit_at result m ≡ (bit_at «set» m || (eqb m n && is_loose (node_of x))) }
{
    if is_adjacent(x) {
        return set;
    }
    union(set, only(n))
}

// The owners of all name records, in one pass over the nodes; the answer is the set of the nodes that are no adjacent argument.
fn mark_nodes(form: &[u8], count: usize, owners: &mut [u64]) -> u64
    requires { (length_good form.now ≡ true) × (count ≡ name_count form.now) × NoOwners count owners.old }
    ensures { Owners form.now count owners.new × SetOf form.now is_loose result }
{
    let end = form_layout::node_count(form);
    let mut loose: u64 = 0;
    for n in 0..end {
        let x = form_layout::node_at(form, n);
        mark_node(x, n, count, owners);
        loose = add_loose(loose, x, n);
    }
    loose
}

// ---- the nodes that match an item

// The nodes that have this character as a short name. By places: in a `zip` the proof has no name for place k of both.
fn short_owners(codes: &[u32], count: usize, owners: &[u64], character: u32) -> u64
    requires { (count ≤ length codes.now) × (count ≤ length owners.now) }
    ensures { (form : List ℕ) (loose : ℕ) → Lookup form codes.now count owners.now loose → SetOf form (has_short form character) result }
{
    let want = u64::from(character) + 1;
    let mut set: u64 = 0;
    for k in 0..count {
        if u64::from(codes[k]) == want {
            set = union(set, owners[k]);
        }
    }
    set
}

// The nodes that have these bytes as a long name.
fn long_owners(form: &[u8], count: usize, owners: &[u64], name: &[u8]) -> u64
    requires { GoodNames form.now × (count ≡ name_count form.now) × Owners form.now count owners.now }
    ensures { SetOf form.now (has_long form.now name.now) result }
{
    let mut set: u64 = 0;
    for k in 0..count {
        if take_search::is_long(form, k, name) {
            set = union(set, owners[k]);
        }
    }
    set
}

// An adjacent argument matches only an item that has its value in its own word.
fn limit(set: u64, loose: u64, own: bool) -> u64
    ensures { (m : ℕ) → bit_at result m ≡ (bit_at «set» m && (bit_at loose m || own)) }
{
    if own {
        return set;
    }
    set & loose
}

// The nodes that match item i.
fn matching(
    form: &[u8],
    codes: &[u32],
    sheet: &[u8],
    items: &[u32],
    i: usize,
    count: usize,
    owners: &[u64],
    loose: u64,
) -> u64
    requires { Lookup form.now codes.now count owners.now loose × HasItem sheet.now items.now i }
    ensures { MatchSet form.now (sheet_area sheet.now) items.now i result }
{
    let item = split_arg::read_item(items, i);
    match item {
        Item::Short(character, own, _) => {
            let set = short_owners(codes, count, owners, character);
            limit(set, loose, own)
        }
        Item::Long(name, own, _) => {
            let set = long_owners(form, count, owners, take_search::part_bytes(sheet, name));
            limit(set, loose, own)
        }
        Item::ArgWord(_) | Item::Word(_) | Item::PosWord(_) => 0,
    }
}

// The work of `known`, over words that are 0, one for each name record.
fn known_by(
    form: &[u8],
    codes: &[u32],
    sheet: &[u8],
    items: &[u32],
    count: usize,
    names: usize,
    owners: &mut [u64],
    table: &mut [u64],
)
    requires { Matchable form.now codes.now sheet.now items.now count × (count ≤ 256) × (names ≡ name_count form.now) × NoOwners names owners.old × (count < length table.old) }
    ensures { Known form.now (sheet_area sheet.now) items.now count table.new }
{
    let loose = mark_nodes(form, names, owners);
    let mut all: u64 = 0;
    for i in 0..count {
        let set = matching(form, codes, sheet, items, i, names, owners, loose);
        table[i + 1] = set;
        all = union(all, set);
    }
    table[ALL_ITEMS] = all;
}

// The nodes that match each of the first `count` items, item i in word i + 1, and in word 0 those that match any of them. Every item
// is compared with every name record at most once.
pub fn known(
    form: &[u8],
    codes: &[u32],
    sheet: &[u8],
    items: &[u32],
    count: usize,
    table: &mut [u64],
)
    requires { Matchable form.now codes.now sheet.now items.now count × (count ≤ 256) × (count < length table.old) }
    ensures { Known form.now (sheet_area sheet.now) items.now count table.new }
{
    let names = form_layout::name_count(form);
    if names <= FEW_NAMES {
        let mut few = [0u64; FEW_NAMES];
        known_by(form, codes, sheet, items, count, names, &mut few, table);
    } else {
        let mut owners = [0u64; MOST_NAMES];
        known_by(form, codes, sheet, items, count, names, &mut owners, table);
    }
}

// Whether a node matches no item at all.
pub fn is_absent(table: &[u64], node: usize) -> bool
    requires { (node < 64) × (0 < length table.now) }
    ensures { result ≡ not (bit_at (get_or table.now 0 0) node) }
{
    !has(table[ALL_ITEMS], node)
}

// The first present place from `from` on, below `end`, whose word has the bit of a node; `end` if there is none, as in take_search.
pub fn find(table: &[u64], marks: &[u16], node: usize, from: usize, end: usize) -> usize
    requires { (node < 64) × (from ≤ end) × (end ≤ 256) × (end < length table.now) × (end ≤ length marks.now) }
    ensures { (area words : List ℕ) (test : RulesItem → Bool) → TableTells table.now end node area words test → Sought area words test marks.now from end result }
{
    if is_absent(table, node) {
        return end;
    }
    state_marks::first_where(marks, from, end, |i| has(table[i + 1], node))
}
