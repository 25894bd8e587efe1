// From the arguments of a sheet to items and a state: the Rust's `construct`.
#![tactic(auto)]

ghost use Rattle.std.specs.Prelude.{◌≡◌, ◌≤◌, length};
ghost use Rattle.rules.specs.Base.{all};
ghost use Rattle.rules.specs.Sheet.{sheet_fault, arguments};
ghost use Rattle.split_arg.specs.Clusters.{meaning};
ghost use Rattle.split_arg.specs.Order.{CanLookUp};
ghost use Rattle.split_group.specs.Groups.{ArgumentFits, Makes};
ghost use Rattle.state_marks.specs.Lent.{raw_of};
ghost use Rattle.split_args.specs.Construct.{group_at, plain_argument, starting_state};
ghost use Rattle.split_args.specs.Construct.{MarkerWithin, Unmarked, SheetAndRoom, SplitWrites, SplitEnds};

use rules::{Refusal, State};
use split_arg::{ITEMS, Letters};
use split_group::Group;
use state_marks::{MARKER, Numbers};

// How splitting ended: 0, 8 or 9; the place of 9 plus 1; how many items there are; the place of the first `--` plus 1. A place
// is 0 for none. Numbers, and no Option of a refusal: what runs and calls answer with has the same two, and takes them as they are.
#[derive(Clone, Copy)]
pub struct Ended {
    pub number: u32,
    pub place: u32,
    pub count: u32,
    pub marker: u32,
}

// The items of the next argument: behind the first `--` all is PosWord.
fn next_group(
    os: &[u8],
    begin: usize,
    marker: usize,
    letters: &Letters,
    items: &mut [u32],
    at: usize,
) -> Group
    requires { ArgumentFits os.now begin at × CanLookUp letters.now.flags.now letters.now.arguments.now }
    ensures { Makes os.now begin at items.old items.new result (group_at (meaning letters.now) marker os.now) }
{
    if marker == 0 {
        return split_group::split_argument(os, begin, letters, items, at);
    }
    split_group::split_positional(os, begin, items, at)
}

// The loop over the arguments. `at` is the place of the next item. What stands behind the records of the items is of no use.
fn split_arguments(sheet: &[u8], letters: &Letters, items: &mut [u32]) -> Ended
    requires { SheetAndRoom sheet.now items.old × CanLookUp letters.now.flags.now letters.now.arguments.now }
    ensures { SplitWrites (meaning letters.now) sheet.now items.new result }
{
    let n = wire::u16_at(sheet, 0) as usize;
    let mut at = 0;
    let mut marker = 0;
    for k in 0..n {
        let begin = wire::offset_at(sheet, 2, k);
        let os = wire::entry(sheet, 2, n, k);
        let group = next_group(os, begin, marker, letters, items, at);
        let count = group.count;
        if ITEMS - at < count {
            return Ended {
                number: Refusal::TooManyItems.number(),
                place: 0,
                count: 0,
                marker: 0,
            };
        }
        if let Some(i) = group.ambiguous {
            return Ended {
                number: Refusal::Ambiguous.number(),
                place: (at + i + 1) as u32,
                count: (at + count) as u32,
                marker: 0,
            };
        }
        if group.marker {
            marker = at + 1;
        }
        at += count;
    }
    Ended {
        number: 0,
        place: 0,
        count: at as u32,
        marker: marker as u32,
    }
}

// The items of a sheet, and zeros behind them: no word is cleared that a record is written to. What the state starts as is told by
// their count and by the place of the first `--`.
pub fn construct(sheet: &[u8], letters: &Letters, items: &mut [u32]) -> Ended
    requires { SheetAndRoom sheet.now items.old × CanLookUp letters.now.flags.now letters.now.arguments.now }
    ensures { SplitEnds (meaning letters.now) sheet.now (length items.old) items.new result }
{
    let split = split_arguments(sheet, letters, items);
    let end = 7 * split.count as usize;
    wire::fill(items, end, items.len() - end, 0);
    split
}

// Whether an argument is no cluster: that has three bytes or more, and one dash.
fn is_plain(os: &[u8]) -> bool
    ensures { result ≡ plain_argument os.now }
{
    match os {
        [b'-', second, _, ..] => *second == b'-',
        _ => true,
    }
}

// Whether splitting looks no letter up, so that it comes to the same under any letters.
pub fn all_plain(sheet: &[u8]) -> bool
    requires { sheet_fault sheet.now ≡ 0 }
    ensures { result ≡ all plain_argument (arguments sheet.now) }
{
    let n = wire::u16_at(sheet, 0) as usize;
    for k in 0..n {
        if !is_plain(wire::entry(sheet, 2, n, k)) {
            return false;
        }
    }
    true
}

// The state after splitting, over marks that are 0: all unparsed but for the first `--`.
pub fn begin(count: u32, marker: u32, marks: &mut [u16; 256]) -> Numbers
    requires { MarkerWithin count marker × Unmarked marks.old }
    ensures { raw_of marks.new result ≡ starting_state count marker }
{
    let mut remaining = count;
    if marker != 0 {
        marks[(marker - 1) as usize] = MARKER;
        remaining -= 1;
    }
    Numbers {
        count,
        remaining,
        current: 0,
        start: 0,
        end: count,
    }
}

pub fn unmarked() -> [u16; 256]
    ensures { Unmarked result }
{
    [0u16; 256]
}

// The same state by value.
pub fn state_of(count: u32, marker: u32) -> State
    requires { MarkerWithin count marker }
    ensures { result ≡ starting_state count marker }
{
    let mut marks = unmarked();
    let p = begin(count, marker, &mut marks);
    state_marks::joined(marks, p)
}
