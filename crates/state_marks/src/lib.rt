// The record of used places: the marks are lent, the numbers of a state go by value.
#![tactic(auto)]

ghost use Rattle.std.proofs.Math.Option.{none};
ghost use Rattle.std.specs.Prelude.{◌≡◌, true, ℕ, ◌++◌, ◌+◌, ◌-◌, ◌≤◌, ◌<◌, length, take, drop};
ghost use Rattle.std.specs.Prelude.{if◌then◌else◌, IfSome};
ghost use Rattle.rules.specs.Base.{all};
ghost use Rattle.rules.specs.Outcome.{ok, refused, refuse};
ghost use Rattle.rules.specs.Tree.{zeros};
ghost use Rattle.rules.specs.State.{field_mark, parsed, present, winner, present_from, count_present, pick_from, conflicts, used_below, mark_good};
ghost use Rattle.rules.specs.Calls.{from_raw, state_in};
ghost use Rattle.state_marks.specs.Lent.{raw_of, numbers_of, Fine, Removed, first_or, FirstWhere, option_of, pick_of, conflict_mark, Alike};

use rules::State;

// The marks that are written: at the first `--`, at a word that `take_cmd` takes, and at what the first field uses.
pub const MARKER: u16 = 510;

pub const COMMAND: u16 = 511;

pub const FIELD: u16 = 512;

// The number of fields that a state may speak of where a call has no form.
pub const MOST_FIELDS: usize = 16;

// A state without its marks. The current place is itself plus 1, or 0 for none.
#[derive(Clone, Copy)]
pub struct Numbers {
    pub count: u32,
    pub remaining: u32,
    pub current: u32,
    pub start: u32,
    pub end: u32,
}

// Whether the first of two states wins, and the place that decides, if one does.
#[derive(Clone, Copy)]
pub struct Picked {
    pub first: bool,
    pub place: Option<usize>,
}

// A state taken apart, and put together again.
pub fn numbers_of(s: State) -> Numbers
    ensures { result ≡ numbers_of s }
{
    Numbers {
        count: s.count,
        remaining: s.remaining,
        current: s.current,
        start: s.start,
        end: s.end,
    }
}

pub fn joined(marks: [u16; 256], p: Numbers) -> State
    ensures { result ≡ raw_of marks p }
{
    State {
        marks: marks,
        count: p.count,
        remaining: p.remaining,
        current: p.current,
        start: p.start,
        end: p.end,
    }
}

// Marks are read by these alone.
pub fn is_parsed(mark: u16) -> bool
    ensures { result ≡ parsed mark }
{
    MARKER <= mark
}

pub fn is_present(mark: u16) -> bool
    ensures { result ≡ present mark }
{
    !is_parsed(mark)
}

// The place of what a mark is in conflict with.
pub fn winner_of(mark: u16) -> Option<u32>
    ensures winner { option_of result ≡ winner mark }
    ensures small { IfSome result (λ w. w < 510) }
{
    if is_parsed(mark) || mark < 2 {
        return None;
    }
    Some(mark as u32 - 2)
}

// The mark of what a field uses.
pub fn field_mark(number: usize) -> u16
    requires { 512 + number < 65536 }
    ensures { result ≡ field_mark number }
{
    FIELD + number as u16
}

// The first unused place from `from` on that passes a test; `end` if there is none below it.
pub fn first_where<F: Fn(usize) -> bool>(marks: &[u16], from: usize, end: usize, test: F) -> usize
    requires places { (from ≤ end) × (end ≤ length marks.now) }
    requires callable { (i : ℕ) → i < end → F.pre test i }
    ensures { FirstWhere marks.now (F.post test) from end result }
{
    for i in from..end {
        if is_present(marks[i]) && test(i) {
            return i;
        }
    }
    end
}

// The first unused place from `from` on; `end` if there is none below it.
pub fn first_present(marks: &[u16], from: usize, end: usize) -> usize
    requires { (from ≤ end) × (end ≤ length marks.now) }
    ensures { result ≡ first_or end (present_from marks.now (end - from) from) }
{
    first_where(marks, from, end, |_| true)
}

// How many of the places from..to are unused. A `for`: the iterator's `filter` and `count` took 340 ns for 256 marks, this takes 70.
pub fn count_present(marks: &[u16], from: usize, to: usize) -> u32
    requires { (from ≤ to) × (to ≤ length marks.now) × (to ≤ 256) }
    ensures { result ≡ count_present (take (to - from) (drop from marks.now)) }
{
    let mut count = 0;
    for i in from..to {
        if is_present(marks[i]) {
            count += 1;
        }
    }
    count
}

// A place in scope that is present becomes used, and the current one.
pub fn remove(marks: &mut [u16; 256], p: Numbers, i: usize, mark: u16) -> Numbers
    requires { Fine marks.old p × (parsed mark ≡ true) }
    ensures { Removed mark marks.old p i marks.new result }
{
    if i < p.start as usize || p.end as usize <= i || is_parsed(marks[i]) {
        return p;
    }
    marks[i] = mark;
    Numbers {
        remaining: p.remaining - 1,
        current: i as u32 + 1,
        ..p
    }
}

// Whether 16 marks are the same in both. It looks at all of them, so that the compiler can take many at a time: `==` of slices took
// 145 ns for 256 marks where this takes 22.
fn same_block(a: &[u16], b: &[u16], from: usize) -> bool
    requires { (from + 16 ≤ length a.now) × (from + 16 ≤ length b.now) }
    ensures { result ≡ true → Alike a.now b.now from (from + 16) }
{
    let mut same = true;
    for k in 0..16 {
        same &= a[from + k] == b[from + k];
    }
    same
}

// A place below which the marks are the same in both: as many blocks of 16 as are. A while: its place is the answer wherever it ends,
// and a `for` over the blocks would work it out from the block's number at each of two ways out.
fn same_blocks(a: &[u16], b: &[u16], count: usize) -> usize
    requires { (count ≤ length a.now) × (count ≤ length b.now) × (count ≤ 256) }
    ensures { (result ≤ count) × Alike a.now b.now 0 result }
{
    let mut i = 0;
    while i + 16 <= count && same_block(a, b, i) {
        i += 16;
    }
    i
}

// The first of `count` places that one has used and the other has not; who has used it wins.
pub fn pick_winner(a: &[u16], b: &[u16], count: usize) -> Picked
    requires { (count ≤ length a.now) × (count ≤ length b.now) × (count ≤ 256) }
    ensures picked { pick_of result ≡ pick_from 0 (take count a.now) (take count b.now) }
    ensures within { IfSome result.place (λ i. i < count) }
{
    for i in same_blocks(a, b, count)..count {
        let ours = is_parsed(a[i]);
        if ours != is_parsed(b[i]) {
            return Picked {
                first: ours,
                place: Some(i),
            };
        }
    }
    Picked {
        first: true,
        place: None,
    }
}

// The winner's mark, beside the loser's.
fn conflict_mark(mark: u16, loser: u16, w: u16) -> u16
    requires { w < 256 }
    ensures { result ≡ conflict_mark w mark loser }
{
    if is_present(mark) && is_parsed(loser) {
        return 2 + w;
    }
    mark
}

// What the loser used and the winner did not is in conflict with place `w`: nothing where their marks are the same.
pub fn save_conflicts(marks: &mut [u16; 256], loser: &[u16], count: usize, w: usize)
    requires { (count ≤ length marks.old) × (count ≤ length loser.now) × (count ≤ 256) × (w < 256) }
    ensures { marks.new ≡ conflicts w (take count marks.old) (take count loser.now) ++ drop count marks.old }
{
    for i in same_blocks(marks, loser, count)..count {
        marks[i] = conflict_mark(marks[i], loser[i], w as u16);
    }
}

// Whether it is the mark of something used, by a field below `fields` if by one.
fn used_below(mark: u16, fields: usize) -> bool
    ensures { result ≡ used_below fields mark }
{
    is_parsed(mark) && (mark < FIELD || ((mark - FIELD) as usize) < fields)
}

fn mark_good(mark: u16, count: usize, fields: usize) -> bool
    ensures { result ≡ mark_good (used_below fields) count mark }
{
    mark == 0 || used_below(mark, fields) || 2 <= mark && (mark as usize) - 2 < count
}

// Whether these marks may stand in a state of so many items. A chain's closure would read `count` and `fields` anew for each mark.
fn marks_good(marks: &[u16], count: usize, fields: usize) -> bool
    ensures { result ≡ all (mark_good (used_below fields) count) marks.now }
{
    for mark in marks {
        if !mark_good(*mark, count, fields) {
            return false;
        }
    }
    true
}

// Every mark is looked at: with no way out of the loop the compiler takes many at a time.
fn all_zero(marks: &[u16]) -> bool
    ensures { result ≡ zeros marks.now }
{
    let mut zero = true;
    for mark in marks {
        zero &= *mark == 0;
    }
    zero
}

// Refusal 29: whether the state is one over `n` items, used by fields below `fields`.
pub fn good(s: State, n: usize, fields: usize) -> bool
    ensures { state_in fields n s ≡ (if result then ok (from_raw s) else refused (refuse 29 none)) }
{
    let start = s.start as usize;
    let end = s.end as usize;
    if s.count as usize != n || 256 < n {
        return false;
    }
    if end < start || n < end || n < s.current as usize {
        return false;
    }
    if !marks_good(&s.marks[..n], n, fields) || !all_zero(&s.marks[n..]) {
        return false;
    }
    count_present(&s.marks, start, end) == s.remaining
}
