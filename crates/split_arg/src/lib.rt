// One argument: its name and value, the letters of a cluster, and items as records of seven words.
#![tactic(auto)]

ghost use Rattle.std.specs.Prelude.{◌≡◌, true, ◌+◌, ◌*◌, ◌^◌, ◌≤◌, ◌<◌, length, get_or, drop};
ghost use Rattle.std.proofs.lemmas.List.Edits.{sets};
ghost use Rattle.utf8.specs.Utf8.{decode_at, well_formed};
ghost use Rattle.rules.specs.Base.{contains as has};
ghost use Rattle.rules.specs.Outcome.{ok};
ghost use Rattle.rules.specs.Split.{split_long, split_short, split_os_argument};
ghost use Rattle.split_arg.specs.Parts.{equals_from, TellsParts};
ghost use Rattle.split_arg.specs.Clusters.{meaning, LooksUp, Disambiguates};
ghost use Rattle.split_arg.specs.Order.{Ascending, Searchable, CanLookUp, Parted};
ghost use Rattle.split_arg.specs.Items.{part_of, record_of, record_at, item_of};

use utf8::Char;

// The most items that a line has, and the words of their records.
pub const ITEMS: usize = 256;

pub const ITEM_WORDS: usize = 1792;

// What `split_os_argument` finds. A short name begins at byte 1 of the argument and a long one at byte 2; `name` is how many
// bytes it has, and `body` where the value begins.
#[derive(Clone, Copy)]
pub enum Parts {
    Short { name: usize },
    ShortBody { name: usize, body: usize },
    Long { name: usize },
    LongBody { name: usize, body: usize },
}

// Where the first `=` from a byte on stands, or the end.
fn find_equals(os: &[u8], from: usize) -> usize
    requires { from ≤ length os.now }
    ensures { result ≡ equals_from os.now from }
{
    for i in from..os.len() {
        if os[i] == b'=' {
            return i;
        }
    }
    os.len()
}

// `--NAME` and `--NAME=V`: the name may be empty only with `=`.
fn split_long(os: &[u8]) -> Option<Parts>
    requires { 2 ≤ length os.now }
    ensures { TellsParts os.now result (ok (split_long (drop 2 os.now))) }
{
    if os.len() == 2 {
        return None;
    }
    let end = find_equals(os, 2);
    let name = end - 2;
    if !utf8::valid(&os[2..end]) {
        return None;
    }
    if end == os.len() {
        return Some(Parts::Long { name });
    }
    let body = end + 1;
    Some(Parts::LongBody { name, body })
}

// `-NAME`, and `-N` with a value: where an `=` follows more than one byte, the value is all behind the first.
fn split_short(os: &[u8]) -> Option<Parts>
    requires { 2 ≤ length os.now }
    ensures { TellsParts os.now result (split_short (get_or os.now 1 0) (drop 2 os.now)) }
{
    let equals = find_equals(os, 2);
    if equals == os.len() {
        if utf8::valid(&os[1..]) {
            return Some(Parts::Short { name: equals - 1 });
        }
        return None;
    }
    if !utf8::valid(&os[1..2]) {
        return None;
    }
    if equals == 2 {
        return Some(Parts::ShortBody { name: 1, body: 3 });
    }
    Some(Parts::ShortBody { name: 1, body: 2 })
}

pub fn split_os_argument(os: &[u8]) -> Option<Parts>
    ensures { TellsParts os.now result (split_os_argument os.now) }
{
    if os.len() < 2 || os[0] != b'-' {
        return None;
    }
    if os[1] == b'-' {
        return split_long(os);
    }
    split_short(os)
}

// The letters that are looked up: those of flags, and those of names that take an argument.
#[derive(Clone, Copy)]
pub struct Letters<'a> {
    pub flags: &'a [u32],
    pub arguments: &'a [u32],
}

// How the loop over a cluster's letters ends, known before anything is written. `before` counts the flags' letters passed.
#[derive(Clone, Copy)]
pub enum Outcome {
    // A letter alone, whatever it is.
    Single {
        letter: u32,
    },
    AllFlags {
        before: usize,
    },
    // The rest begins at this byte of the name; it may be empty.
    Argument {
        before: usize,
        letter: u32,
        rest: usize,
    },
    // The byte at which the first unknown letter stands.
    Withdrawn {
        place: usize,
    },
    Ambiguous {
        before: usize,
    },
}

// A list of at most this many letters, as those of one form, is scanned in any order. A longer one is in rising order.
const SCANNED: usize = 128;

// One letter after the other: among the few letters of most forms `contains` of slices, which tests eight at a time, takes longer
// (8 letters of 8: 50 ns to 80 ns).
fn scan(s: &[u32], letter: u32) -> bool
    ensures { result ≡ has s.now letter }
{
    let mut i = 0;
    while i < s.len() {
        if s[i] == letter {
            return true;
        }
        i += 1;
    }
    false
}

// How many letters of a list in rising order are below this one, which stands behind them or nowhere. By hand: `partition_point` takes
// longer for the letters of a table, each of which is put in its place (4 forms of 8 letters: 560 ns to 730 ns).
pub fn place(s: &[u32], letter: u32) -> usize
    requires { Ascending s.now }
    ensures { Parted s.now letter result }
{
    let mut low = 0;
    let mut high = s.len();
    while low < high {
        let middle = low + (high - low) / 2;
        if s[middle] < letter {
            low = middle + 1;
        } else {
            high = middle;
        }
    }
    low
}

// The letter at a place. Most letters are ASCII, and are not decoded.
pub fn letter_at(name: &[u8], at: usize) -> Option<Char>
    ensures { result ≡ decode_at name.now at }
{
    if at < name.len() && name[at] < 0x80 {
        let value = u32::from(name[at]);
        return Some(Char { value, size: 1 });
    }
    utf8::decode_at(name, at)
}

// Each letter of the name is looked up among those of flags and of arguments. A loop: the step is the size of a character, which no
// range counts, and it is left with its outcome. Both lists are taken from the struct once: read anew for each letter, they take longer.
fn look_up(name: &[u8], letters: &Letters) -> Outcome
    requires { well_formed name.now ≡ true }
    ensures { LooksUp (meaning letters.now) name.now result }
{
    let Letters { flags, arguments } = *letters;
    let mut at = 0;
    let mut before = 0;
    let outcome = loop {
        let Some(letter) = letter_at(name, at) else {
            break Outcome::AllFlags { before };
        };
        let flag = scan(flags, letter.value);
        let argument = scan(arguments, letter.value);
        if flag {
            if argument {
                break Outcome::Ambiguous { before };
            }
        } else {
            if argument {
                break Outcome::Argument {
                    before,
                    letter: letter.value,
                    rest: at + letter.size,
                };
            }
            break Outcome::Withdrawn { place: at };
        }
        at += letter.size;
        before += 1;
    };
    outcome
}

fn contains(s: &[u32], letter: u32) -> bool
    requires { Searchable s.now }
    ensures { result ≡ has s.now letter }
{
    if s.len() <= SCANNED {
        return scan(s, letter);
    }
    s.binary_search(&letter).is_ok()
}

// The same where a list may be long. It stands apart: one function for both, with the choice as a parameter of the code, takes longer
// on short lists (two letters of 8: 20 ns to 25 ns; eight of 16: 70 ns to 117 ns).
fn look_up_long(name: &[u8], letters: &Letters) -> Outcome
    requires { (well_formed name.now ≡ true) × CanLookUp letters.now.flags.now letters.now.arguments.now }
    ensures { LooksUp (meaning letters.now) name.now result }
{
    let mut at = 0;
    let mut before = 0;
    let outcome = loop {
        let Some(letter) = letter_at(name, at) else {
            break Outcome::AllFlags { before };
        };
        let flag = contains(letters.flags, letter.value);
        let argument = contains(letters.arguments, letter.value);
        if flag {
            if argument {
                break Outcome::Ambiguous { before };
            }
        } else {
            if argument {
                break Outcome::Argument {
                    before,
                    letter: letter.value,
                    rest: at + letter.size,
                };
            }
            break Outcome::Withdrawn { place: at };
        }
        at += letter.size;
        before += 1;
    };
    outcome
}

pub fn disambiguate_short(name: &[u8], letters: &Letters) -> Outcome
    requires { (well_formed name.now ≡ true) × CanLookUp letters.now.flags.now letters.now.arguments.now }
    ensures { Disambiguates (meaning letters.now) name.now result }
{
    let Some(first) = utf8::decode_at(name, 0) else {
        return Outcome::AllFlags { before: 0 };
    };
    if first.size == name.len() {
        return Outcome::Single {
            letter: first.value,
        };
    }
    if letters.flags.len() <= SCANNED && letters.arguments.len() <= SCANNED {
        return look_up(name, letters);
    }
    look_up_long(name, letters)
}

// A part of the sheet's area.
#[derive(Clone, Copy)]
pub struct Part {
    pub offset: u32,
    pub length: u32,
}

// The Rust's Arg, with the parts of the area that are its name and its text.
#[derive(Clone, Copy)]
pub enum Item {
    Short(u32, bool, Part),
    Long(Part, bool, Part),
    ArgWord(Part),
    Word(Part),
    PosWord(Part),
}

// An empty part has offset 0.
pub fn part_of(offset: u32, length: u32) -> Part
    ensures { result ≡ part_of offset length }
{
    let offset = if length == 0 { 0 } else { offset };
    Part { offset, length }
}

// The seven words of an item's record.
fn words_of(item: Item) -> [u32; 7]
    ensures { result ≡ record_of item }
{
    match item {
        Item::Short(letter, adjacent, text) => [
            1,
            u32::from(adjacent),
            letter,
            0,
            0,
            text.offset,
            text.length,
        ],
        Item::Long(name, adjacent, text) => [
            2,
            u32::from(adjacent),
            0,
            name.offset,
            name.length,
            text.offset,
            text.length,
        ],
        Item::ArgWord(text) => [3, 0, 0, 0, 0, text.offset, text.length],
        Item::Word(text) => [4, 0, 0, 0, 0, text.offset, text.length],
        Item::PosWord(text) => [5, 0, 0, 0, 0, text.offset, text.length],
    }
}

// The words of a record, from a word on behind which there is room: a store each, which is quicker than a copy of any length.
fn store(items: &mut [u32], i: usize, words: [u32; 7])
    requires { i + 7 ≤ length items.old }
    ensures { items.new ≡ sets items.old i words }
{
    items[i] = words[0];
    items[i + 1] = words[1];
    items[i + 2] = words[2];
    items[i + 3] = words[3];
    items[i + 4] = words[4];
    items[i + 5] = words[5];
    items[i + 6] = words[6];
}

// The record of an item, as far as there is room.
pub fn write_item(items: &mut [u32], at: usize, item: Item)
    requires { 7 * at < 2 ^ 64 }
    ensures { items.new ≡ sets items.old (7 * at) (record_of item) }
{
    let words = words_of(item);
    wire::copy(items, 7 * at, &words);
}

// The same, quicker where there is room for all of it. It takes more code: where two records are written, that would cost more than
// it saves.
pub fn store_item(items: &mut [u32], at: usize, item: Item)
    requires { 7 * at < 2 ^ 64 }
    ensures { items.new ≡ sets items.old (7 * at) (record_of item) }
{
    let words = words_of(item);
    let i = 7 * at;
    if i <= items.len() && 7 <= items.len() - i {
        store(items, i, words);
        return;
    }
    wire::copy(items, i, &words);
}

// Word k of record `at`.
fn word(items: &[u32], at: usize, k: usize) -> u32
    requires { 7 * at + k < length items.now }
    ensures { result ≡ get_or items.now (7 * at + k) 0 }
{
    items[7 * at + k]
}

// The item of a record: what `write_item` wrote there.
pub fn read_item(items: &[u32], at: usize) -> Item
    requires { 7 * at + 7 ≤ length items.now }
    ensures { result ≡ item_of (record_at items.now at) }
{
    let adjacent = word(items, at, 1) == 1;
    let text = Part {
        offset: word(items, at, 5),
        length: word(items, at, 6),
    };
    match word(items, at, 0) {
        1 => Item::Short(word(items, at, 2), adjacent, text),
        2 => {
            let name = Part {
                offset: word(items, at, 3),
                length: word(items, at, 4),
            };
            Item::Long(name, adjacent, text)
        }
        3 => Item::ArgWord(text),
        4 => Item::Word(text),
        _ => Item::PosWord(text),
    }
}
