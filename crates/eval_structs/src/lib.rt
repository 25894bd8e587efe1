// What each combinator decides, from numbers alone: the run only calls and hands on. A number is 0 for a success, else the refusal's.
#![tactic(auto)]

ghost use Rattle.std.proofs.Math.Option.{none};
ghost use Rattle.std.specs.Prelude.{◌≡◌, Bool, true, false, not, ◌&&◌, List, eqb, length};
ghost use Rattle.std.specs.Prelude.{if◌then◌else◌};
ghost use Rattle.rules.specs.Outcome.{Outcome, ok, refuse, wrong_input};
ghost use Rattle.rules.specs.Value.{Value, base, is_number};
ghost use Rattle.rules.specs.State.{State};
ghost use Rattle.rules.specs.Eval.{Ran, ◌then◌, fewer, swallowed, idle, guarded, repeated, eval_some, picks_first};
ghost use Rattle.eval_structs.specs.declared.Pick.TheVariants.{First, Winner, Neither};
ghost use Rattle.eval_structs.specs.Decisions.{with_remaining, counted_of, option_way, fallback_way, guard_by, some_by, EndedBy, forgotten, pick_by};

// `parse_option`: a success that counts, one that does not, a refusal that becomes "absent", with the state put back, and one
// that is passed on.
#[derive(Clone, Copy)]
pub enum Counting {
    Counted,
    Uncounted,
    Absent,
    PassedOn,
}

// Fallback: the child's value, its own with the state put back, or the child's refusal.
#[derive(Clone, Copy)]
pub enum Fallback {
    Child,
    Own,
    Refusal,
}

// `this_or_that_picks_first`: a side, the one that `pick_winner` says, or a refusal.
#[derive(Clone, Copy)]
pub enum Pick {
    First,
    Second,
    Winner,
    Neither(rules::Refused),
}

#[tactic(auto, unfolding(crate::specs::Decisions::with_remaining, rules::specs::Eval::swallowed, rules::specs::Outcome::is_missing))]
fn swallowed(catch: bool, number: u32, given: u32, left: u32) -> bool
    ensures { result ≡ swallowed catch (refuse number none) (with_remaining given) (with_remaining left) }
{
    if catch && !eval_error::wrong_input(number) {
        return true;
    }
    if number == 20 {
        return given == left;
    }
    eval_error::can_catch(number)
}

// From how the child ended, what remained in the state that it was given and what remained in the one that it left. `last` is what
// remained after the last counted success, if there was one.
#[tactic(auto, unfolding(crate::specs::Decisions::option_way, rules::specs::Eval::fewer))]
pub fn parse_option(number: u32, catch: bool, given: u32, left: u32, last: Option<u32>) -> Counting
    ensures { result ≡ option_way number catch given left (counted_of last) }
{
    if number == 0 {
        return match last {
            None => Counting::Counted,
            Some(n) if left < n => Counting::Counted,
            Some(_) => Counting::Uncounted,
        };
    }
    if swallowed(catch, number, given, left) {
        Counting::Absent
    } else {
        Counting::PassedOn
    }
}

// `count` and `last` stop after a success that used nothing.
#[tactic(auto, unfolding(crate::specs::Decisions::with_remaining, rules::specs::Eval::idle))]
pub fn idle(stops: bool, given: u32, left: u32) -> bool
    ensures { result ≡ idle stops (with_remaining given) (with_remaining left) }
{
    stops && given == left
}

// "some": 21 if nothing was counted.
pub fn parse_some(counted: u32) -> u32
    ensures { (catch : Bool) (run : State → Ran Value) (s : State) (vs : List Value)
        → (repeated catch false run s).outcome ≡ ok vs
        → length vs ≡ counted
        → eval_some catch run s ≡ (repeated catch false run s then some_by result) }
{
    if counted == 0 { 21 } else { 0 }
}

#[tactic(auto, unfolding(crate::specs::Decisions::fallback_way))]
pub fn parse_fallback(number: u32) -> Fallback
    ensures { result ≡ fallback_way number }
{
    if number == 0 {
        return Fallback::Child;
    }
    if eval_error::can_catch(number) {
        return Fallback::Own;
    }
    Fallback::Refusal
}

// Guard: 26 for a number that is not within lo and hi.
#[tactic(auto, unfolding(crate::specs::Decisions::guard_by, rules::specs::Eval::guarded))]
pub fn parse_guard(lo: u32, hi: u32, n: u32) -> u32
    ensures { (s : State) → guarded lo hi (base (is_number n)) s ≡ guard_by result n s }
{
    if lo <= n && n <= hi { 0 } else { 26 }
}

// Of two successes that used nothing the first.
fn two_successes(given: u32, left_a: u32, left_b: u32) -> Pick
    ensures { result ≡ (if eqb given left_a && eqb given left_b then First else Winner) }
{
    if given == left_a && given == left_b {
        Pick::First
    } else {
        Pick::Winner
    }
}

// A success that used nothing gives way to a refusal for wrong input.
fn one_success(side: Pick, given: u32, left: u32, e: rules::Refused) -> Pick
    ensures { result ≡ (if eqb given left && wrong_input (refuse e.number none) then Neither e else side) }
{
    if given == left && eval_error::wrong_input(e.number) {
        Pick::Neither(e)
    } else {
        side
    }
}

// From how both sides ended, what remained in the state that they were given and what remained in those that they left.
pub fn this_or_that_picks_first(
    err_a: rules::Refused,
    err_b: rules::Refused,
    given: u32,
    left_a: u32,
    left_b: u32,
) -> Pick
    ensures { (o u : Outcome Value) (s a b : State)
        → EndedBy o err_a
        → EndedBy u err_b
        → s.remaining ≡ given
        → a.remaining ≡ left_a
        → b.remaining ≡ left_b
        → forgotten (picks_first s a b o u) ≡ pick_by result a b }
{
    match (err_a.number, err_b.number) {
        (0, 0) => two_successes(given, left_a, left_b),
        (0, _) => one_success(Pick::First, given, left_a, err_b),
        (_, 0) => one_success(Pick::Second, given, left_b, err_a),
        _ => Pick::Neither(eval_error::combine_with(err_a, err_b)),
    }
}
