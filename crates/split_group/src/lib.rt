// From one argument to its items, which are written once the outcome of the argument and their number are known.
#![tactic(auto)]

ghost use Rattle.std.specs.Prelude.{◌≡◌, false, None, [], ◌∷◌, ◌++◌, ◌+◌, ◌-◌, ◌*◌, ◌^◌, ◌≤◌, ◌<◌, drop};
ghost use Rattle.std.proofs.Math.Option.{none};
ghost use Rattle.std.proofs.lemmas.List.Edits.{sets};
ghost use Rattle.rules.specs.Base.{same};
ghost use Rattle.rules.specs.Outcome.{ok};
ghost use Rattle.rules.specs.Split.{PosWord, plain as plain_group, dash, word_group, short_group, split_argument};
ghost use Rattle.split_arg.specs.Items.{part_of, record_of};
ghost use Rattle.split_arg.specs.Clusters.{meaning};
ghost use Rattle.split_arg.specs.Order.{CanLookUp};
ghost use Rattle.split_group.specs.Groups.{first_letters, flag_words, ArgumentFits, ClusterIn, ValueIn, Flags, Puts, Makes, MakesValue};

use split_arg::{ITEMS, Item, Letters, Outcome, Part, Parts};

// What one argument gave: how many items, which of them is the Word of an ambiguous letter, and whether it is the first `--`. More items than there is room for are not written.
#[derive(Clone, Copy)]
pub struct Group {
    pub count: usize,
    pub ambiguous: Option<usize>,
    pub marker: bool,
}

// The text from byte k of an argument on.
fn text(begin: usize, len: usize, k: usize) -> Part
    requires { (begin + len < 2 ^ 32) × (k ≤ len) }
    ensures { result ≡ part_of (begin + k) (len - k) }
{
    split_arg::part_of((begin + k) as u32, (len - k) as u32)
}

// The first letters of a cluster. The text is the whole argument for the first and empty after.
fn write_flags(name: &[u8], count: usize, whole: Part, items: &mut [u32], at: usize)
    requires { Flags name.now count at × (at + count ≤ 256) }
    ensures { items.new ≡ sets items.old (7 * at) (flag_words whole (first_letters name.now count)) }
{
    let mut text = whole;
    let mut place = 0;
    for k in 0..count {
        let Some(letter) = split_arg::letter_at(name, place) else {
            return;
        };
        split_arg::store_item(items, at + k, Item::Short(letter.value, false, text));
        text = Part {
            offset: 0,
            length: 0,
        };
        place += letter.size;
    }
}

// Items of which none stands for an ambiguous letter or is the first `--`.
fn plain(count: usize) -> Group
    ensures { result ≡ record { count = count; ambiguous = None; marker = false } }
{
    Group {
        count,
        ambiguous: None,
        marker: false,
    }
}

fn put_one(items: &mut [u32], at: usize, item: Item) -> Group
    requires { at ≤ 256 }
    ensures { Puts items.old at items.new result 1 None (record_of item) }
{
    let group = plain(1);
    if at == ITEMS {
        return group;
    }
    split_arg::store_item(items, at, item);
    group
}

fn put_two(items: &mut [u32], at: usize, first: Item, second: Item) -> Group
    requires { at ≤ 256 }
    ensures { Puts items.old at items.new result 2 None (record_of first ++ record_of second) }
{
    let group = plain(2);
    if 255 <= at {
        return group;
    }
    split_arg::write_item(items, at, first);
    split_arg::write_item(items, at + 1, second);
    group
}

fn put_flags(name: &[u8], before: usize, whole: Part, items: &mut [u32], at: usize) -> Group
    requires { Flags name.now before at }
    ensures { Puts items.old at items.new result before None (flag_words whole (first_letters name.now before)) }
{
    let group = plain(before);
    if ITEMS - at < before {
        return group;
    }
    write_flags(name, before, whole, items, at);
    group
}

// Flags' letters, and one item behind them, which stands for an ambiguous letter or not.
fn put_flags_one(
    name: &[u8],
    before: usize,
    whole: Part,
    last: Item,
    ambiguous: Option<usize>,
    items: &mut [u32],
    at: usize,
) -> Group
    requires { Flags name.now before at }
    ensures { Puts items.old at items.new result (before + 1) ambiguous (flag_words whole (first_letters name.now before) ++ record_of last) }
{
    let group = Group {
        count: before + 1,
        ambiguous,
        marker: false,
    };
    if ITEMS - at <= before {
        return group;
    }
    write_flags(name, before, whole, items, at);
    split_arg::write_item(items, at + before, last);
    group
}

// Flags' letters, an argument's letter, and its value.
fn put_flags_two(
    name: &[u8],
    before: usize,
    whole: Part,
    letter: Item,
    rest: Item,
    items: &mut [u32],
    at: usize,
) -> Group
    requires { Flags name.now before at }
    ensures { Puts items.old at items.new result (before + 2) None (flag_words whole (first_letters name.now before) ++ (record_of letter ++ record_of rest)) }
{
    let group = plain(before + 2);
    if ITEMS - at <= before + 1 {
        return group;
    }
    write_flags(name, before, whole, items, at);
    split_arg::write_item(items, at + before, letter);
    split_arg::write_item(items, at + before + 1, rest);
    group
}

// `-NAME` without `=`.
fn split_cluster(os: &[u8], begin: usize, letters: &Letters, items: &mut [u32], at: usize) -> Group
    requires { ClusterIn os.now begin at × CanLookUp letters.now.flags.now letters.now.arguments.now }
    ensures { Makes os.now begin at items.old items.new result (short_group (meaning letters.now) os.now (drop 1 os.now) none) }
{
    let len = os.len();
    let whole = text(begin, len, 0);
    let name = &os[1..];
    match split_arg::disambiguate_short(name, letters) {
        Outcome::Single { letter } => put_one(items, at, Item::Short(letter, false, whole)),
        Outcome::AllFlags { before } => put_flags(name, before, whole, items, at),
        Outcome::Argument {
            before,
            letter,
            rest,
        } => {
            if rest + 1 == len {
                let alone = Item::Short(letter, false, whole);
                return put_flags_one(name, before, whole, alone, None, items, at);
            }
            let named = Item::Short(letter, true, whole);
            let value = Item::Word(text(begin, len, rest + 1));
            put_flags_two(name, before, whole, named, value, items, at)
        }
        Outcome::Withdrawn { place: _ } => put_one(items, at, Item::Word(whole)),
        Outcome::Ambiguous { before } => {
            let last = Item::Word(whole);
            put_flags_one(name, before, whole, last, Some(before), items, at)
        }
    }
}

fn is_marker(os: &[u8]) -> bool
    ensures { result ≡ same os.now (dash ∷ dash ∷ []) }
{
    os == b"--".as_slice()
}

// What has no name: a Word, or the first `--`.
fn split_word(os: &[u8], begin: usize, items: &mut [u32], at: usize) -> Group
    requires { ArgumentFits os.now begin at }
    ensures { Makes os.now begin at items.old items.new result (ok (word_group os.now)) }
{
    let whole = text(begin, os.len(), 0);
    if is_marker(os) {
        return Group {
            marker: true,
            ..put_one(items, at, Item::PosWord(whole))
        };
    }
    put_one(items, at, Item::Word(whole))
}

// An argument behind the first `--`.
pub fn split_positional(os: &[u8], begin: usize, items: &mut [u32], at: usize) -> Group
    requires { ArgumentFits os.now begin at }
    ensures { Makes os.now begin at items.old items.new result (ok (plain_group (PosWord os.now ∷ []))) }
{
    let whole = text(begin, os.len(), 0);
    put_one(items, at, Item::PosWord(whole))
}

// A letter with a value behind it, from byte `body` on.
fn split_value(os: &[u8], begin: usize, body: usize, items: &mut [u32], at: usize) -> Group
    requires { ValueIn os.now begin body at }
    ensures { MakesValue os.now begin body at items.old items.new result }
{
    let len = os.len();
    let whole = text(begin, len, 0);
    let value = text(begin, len, body);
    let Some(letter) = utf8::decode_at(&os[1..2], 0) else {
        return put_one(items, at, Item::Word(whole));
    };
    put_two(
        items,
        at,
        Item::Short(letter.value, true, whole),
        Item::ArgWord(value),
    )
}

pub fn split_argument(
    os: &[u8],
    begin: usize,
    letters: &Letters,
    items: &mut [u32],
    at: usize,
) -> Group
    requires { ArgumentFits os.now begin at × CanLookUp letters.now.flags.now letters.now.arguments.now }
    ensures { Makes os.now begin at items.old items.new result (split_argument (meaning letters.now) os.now) }
{
    let len = os.len();
    match split_arg::split_os_argument(os) {
        None => split_word(os, begin, items, at),
        Some(Parts::Short { .. }) => split_cluster(os, begin, letters, items, at),
        Some(Parts::ShortBody { body, .. }) => split_value(os, begin, body, items, at),
        Some(Parts::Long { name }) => {
            let long = text(begin, name + 2, 2);
            put_one(items, at, Item::Long(long, false, text(begin, len, 0)))
        }
        Some(Parts::LongBody { name, body }) => {
            let long = text(begin, name + 2, 2);
            let value = text(begin, len, body);
            put_two(
                items,
                at,
                Item::Long(long, true, text(begin, len, 0)),
                Item::ArgWord(value),
            )
        }
    }
}
