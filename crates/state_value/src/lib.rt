// The calls on a state by value, for states that refusal 29 lets through.
#![tactic(auto)]

ghost use Rattle.std.specs.Prelude.{◌≡◌, true, List, ◌≤◌, ◌<◌, length};
ghost use Rattle.std.specs.Prelude.{IfSome};
ghost use Rattle.rules.specs.Outcome.{ok};
ghost use Rattle.rules.specs.Split.{Item};
ghost use Rattle.rules.specs.State.{pick_winner, save_conflicts, set_scope, adjacent_scope, adjacently_available_from};
ghost use Rattle.rules.specs.State.{parsed, remove as removal, conflict as first_conflict};
ghost use Rattle.rules.specs.Calls.{from_raw, to_raw};
ghost use Rattle.state_marks.specs.Lent.{FineState, pick_of};
ghost use Rattle.state_value.specs.Options.{handed_over, range_of, scope_of, conflict_of, Until, SpanEnd};

use rules::State;
use state_marks::{Picked, is_parsed, is_present, joined, numbers_of, winner_of};

#[derive(Clone, Copy)]
pub struct Scope {
    pub start: u32,
    pub end: u32,
}

// A place in conflict and its winner.
#[derive(Clone, Copy)]
pub struct ConflictAt {
    pub place: u32,
    pub winner: u32,
}

pub fn remove(s: State, i: usize, mark: u16) -> State
    requires { FineState s × (parsed mark ≡ true) }
    ensures { handed_over (removal mark (from_raw s) i) ≡ ok result }
{
    let mut marks = s.marks;
    let p = state_marks::remove(&mut marks, numbers_of(s), i, mark);
    joined(marks, p)
}

pub fn pick_winner(s: State, t: State) -> Picked
    requires { FineState s × FineState t × (t.count ≡ s.count) }
    ensures picked { pick_of result ≡ pick_winner (from_raw s) (from_raw t) }
    ensures within { IfSome result.place (λ i. i < s.count) }
{
    state_marks::pick_winner(&s.marks, &t.marks, s.count as usize)
}

pub fn save_conflicts(s: State, loser: State, w: usize) -> State
    requires { FineState s × FineState loser × (loser.count ≡ s.count) × (w < s.count) }
    ensures { result ≡ to_raw (save_conflicts (from_raw s) (from_raw loser) w) }
{
    let mut marks = s.marks;
    state_marks::save_conflicts(&mut marks, &loser.marks, s.count as usize, w);
    joined(marks, numbers_of(s))
}

// The places from..to become the scope.
pub fn set_scope(s: State, from: usize, to: usize) -> State
    requires { FineState s × (from ≤ to) × (to ≤ s.count) }
    ensures { handed_over (set_scope (from_raw s) from to) ≡ ok result }
{
    let remaining = state_marks::count_present(&s.marks, from, to);
    State {
        remaining,
        start: from as u32,
        end: to as u32,
        ..s
    }
}

// The first place from `from` on that is present in both; `count` if there is none below it: a scope goes up to there.
fn until_present(a: &[u16], b: &[u16], from: usize, count: usize) -> usize
    requires { (from ≤ count) × (count ≤ length a.now) × (count ≤ length b.now) }
    ensures { Until a.now b.now from count result }
{
    state_marks::first_where(a, from, count, |i| is_present(b[i]))
}

// From the scope's start up to the first place that is present here and in the original.
pub fn adjacent_scope(s: State, original: State) -> Option<Scope>
    requires { FineState s × FineState original × (original.count ≡ s.count) }
    ensures { adjacent_scope (from_raw s) (from_raw original) ≡ ok (scope_of result) }
{
    let count = s.count as usize;
    let end = until_present(&s.marks, &original.marks, s.start as usize, count);
    if end == count || end == s.end as usize {
        return None;
    }
    Some(Scope {
        start: s.start,
        end: end as u32,
    })
}

// The first used place from `from` on; `count` if there is none below it. A `for`: `first_where` passes over used places.
fn span_end(marks: &[u16], from: usize, count: usize) -> usize
    requires { (from ≤ count) × (count ≤ length marks.now) }
    ensures { SpanEnd marks.now from count result }
{
    for i in from..count {
        if is_parsed(marks[i]) {
            return i;
        }
    }
    count
}

// The present places from `from` on, up to the first that is used.
pub fn adjacently_available_from(s: State, from: usize) -> Scope
    requires { FineState s × (from ≤ s.count) }
    ensures { range_of result ≡ adjacently_available_from (from_raw s) from }
{
    let end = span_end(&s.marks, from, s.count as usize);
    Scope {
        start: from as u32,
        end: end as u32,
    }
}

// The first present place in scope and its winner, if it is in conflict. Of the items only their number matters.
pub fn conflict(s: State) -> Option<ConflictAt>
    requires { FineState s }
    ensures { (items : List Item) → length items ≡ s.count → first_conflict items (from_raw s) ≡ ok (conflict_of result) }
{
    let end = s.end as usize;
    let i = state_marks::first_present(&s.marks, s.start as usize, end);
    if i == end {
        return None;
    }
    let winner = winner_of(s.marks[i])?;
    Some(ConflictAt {
        place: i as u32,
        winner: winner,
    })
}
