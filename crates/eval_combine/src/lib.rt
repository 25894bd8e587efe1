// What a combinator makes of its children's results. Where the rules put the state back, the marks are put back.
#![tactic(auto)]

ghost use Rattle.std.specs.Prelude.{◌≡◌, List, ℕ, ◌+◌, ◌^◌, ◌<◌};
ghost use Rattle.std.specs.Prelude.{if◌then◌else◌};
ghost use Rattle.std.proofs.Math.Option.{some};
ghost use Rattle.rules.specs.Value.{BaseValue, word};
ghost use Rattle.rules.specs.Tree.{Tree, Fallback as FallbackTree};
ghost use Rattle.eval_told.specs.Nodes.{tree_at};
ghost use Rattle.eval_combine.specs.Made.{missing_of, ChildGiven, Undone, OptionalOf, Returned, FallbackOf, MarksUnchanged, GuardOf, Sides, ChoiceOf, ended_of, won_of, Decided, won_marks, Marked, WinnerOf, FallbackAt};
ghost use Rattle.eval_combine.specs.Unchanged.{optional_made, fallback_made, first_made, second_made};

use eval_structs::{Counting, Fallback, Pick};
use eval_told::{Ran, refusal, value};
use state_marks::Numbers;

#[derive(Clone, Copy)]
pub struct Optioned {
    pub ran: Ran,
    pub present: bool,
}

#[derive(Clone, Copy)]
pub struct Chosen {
    pub ran: Ran,
    pub first: bool,
}

// What an optional makes of its child's result. `before` are the marks that the child was given.
pub fn optional(
    ran: Ran,
    p: Numbers,
    catch: bool,
    before: &[u16; 256],
    marks: &mut [u16; 256],
) -> Optioned
    requires { ChildGiven before.now p marks.old ran }
    ensures { OptionalOf catch before.now p ran marks.old marks.new result }
{
    let made = optional_unchanged(ran, p, catch);
    if made.ran.number == 0 && !made.present {
        *marks = *before; // as if the child had not run
    }
    made
}

// What an optional makes of its child's result, where an absent child left the marks as they were.
#[tactic(auto, using(crate::proofs::Optionals::optional_same), unfolding(crate::specs::Unchanged::optional_made, crate::specs::Unchanged::optional_by))]
pub fn optional_unchanged(ran: Ran, p: Numbers, catch: bool) -> Optioned
    requires { ran.len < 1000 }
    ensures value { result ≡ optional_made catch p ran }
    ensures by_index { (before m : List ℕ) → ChildGiven before p m ran → Undone catch before p m ran → OptionalOf catch before p ran m m result }
{
    let left = ran.numbers.remaining;
    match eval_structs::parse_option(ran.number, catch, p.remaining, left, None) {
        Counting::Absent => Optioned {
            ran: value(ran.tries, 1, 0, p), // the word 0 alone
            present: false,
        },
        Counting::PassedOn => Optioned {
            ran: refusal(ran.number, ran.place, ran.tries, ran.numbers),
            present: false,
        },
        Counting::Counted | Counting::Uncounted => Optioned {
            ran: value(ran.tries, ran.len + 1, ran.word, ran.numbers),
            present: true,
        },
    }
}

// What a fallback makes of its child's result. `word` is its own value.
pub fn fallback(ran: Ran, p: Numbers, word: u32, before: &[u16; 256], marks: &mut [u16; 256]) -> Ran
    requires { Returned before.now p marks.old ran }
    ensures { FallbackOf word before.now p ran marks.old marks.new result }
{
    if ran.number != 0 {
        *marks = *before; // its own value uses nothing, and a refusal leaves what was given
    }
    fallback_unchanged(ran, p, word)
}

// What a fallback makes of its child's result, where a refused child left the marks as they were.
#[tactic(auto, using(crate::proofs::Fallbacks::fallback_same), unfolding(crate::specs::Unchanged::fallback_made, crate::specs::Unchanged::fallback_by))]
pub fn fallback_unchanged(ran: Ran, p: Numbers, word: u32) -> Ran
    ensures value { result ≡ fallback_made word p ran }
    ensures by_index { (before m : List ℕ) → Returned before p m ran → MarksUnchanged before m ran → FallbackOf word before p ran m m result }
{
    match eval_structs::parse_fallback(ran.number) {
        Fallback::Child => ran,
        Fallback::Own => value(ran.tries, 1, word, p),
        Fallback::Refusal => refusal(ran.number, ran.place, ran.tries, p),
    }
}

// A fallback's own value as a word: its number, or 256 and its name record for a text. Only a text has a name record, and it has no
// number; where both are 0, the kind tells.
pub fn fallback_word(form: &[u8], node: usize) -> u32
    requires { FallbackAt form.now node }
    ensures { (v : BaseValue) (c : Tree) → tree_at form.now node ≡ some (FallbackTree v c) → result ≡ word v }
{
    let x = form_layout::node_at(form, node);
    if x.r != 0 {
        return 256 + x.r as u32;
    }
    if x.lo != 0 {
        return x.lo;
    }
    if form_fields::kind(form, node) == 2 {
        return 256;
    }
    0
}

// What a guard makes of its child's result, which is a number.
pub fn guard(ran: Ran, lo: u32, hi: u32) -> Ran
    ensures { GuardOf lo hi ran result }
{
    if ran.number != 0 {
        return ran;
    }
    match eval_structs::parse_guard(lo, hi, ran.word) {
        0 => ran,
        number => refusal(number, ran.numbers.current, ran.tries, ran.numbers),
    }
}

// What the loser used is in conflict with the place that decided, if one did.
fn mark_conflicts(marks: &mut [u16; 256], loser: &[u16; 256], count: u32, place: Option<usize>)
    requires { Decided place count marks.old loser.now }
    ensures { marks.new ≡ won_marks place count marks.old loser.now }
{
    if let Some(w) = place {
        state_marks::save_conflicts(marks, loser, count as usize, w);
    }
}

// How a side ended, for the decision.
fn ended(ran: Ran) -> rules::Refused
    ensures { result ≡ ended_of ran }
{
    rules::Refused {
        number: ran.number,
        place: ran.place,
    }
}

// A side's value, after the tries of both.
fn won(ran: Ran, tries: u32) -> Ran
    ensures { result ≡ won_of tries ran }
{
    value(tries, ran.len, ran.word, ran.numbers)
}

// The side that `pick_winner` says.
fn winner(
    x: Ran,
    y: Ran,
    tries: u32,
    count: u32,
    first: &[u16; 256],
    marks: &mut [u16; 256],
) -> Chosen
    requires { Marked count first.now marks.old }
    ensures { WinnerOf tries count first.now x marks.old y marks.new result }
{
    let picked = state_marks::pick_winner(first, marks, count as usize);
    if picked.first {
        let second = *marks;
        *marks = *first;
        mark_conflicts(marks, &second, count, picked.place);
        return Chosen {
            ran: won(x, tries),
            first: true,
        };
    }
    mark_conflicts(marks, first, count, picked.place);
    Chosen {
        ran: won(y, tries),
        first: false,
    }
}

// What a choice makes of its two results, both from the marks `before`: `first` are the marks that the first side left, `marks`
// those of the second.
pub fn choose(
    x: Ran,
    y: Ran,
    p: Numbers,
    before: &[u16; 256],
    first: &[u16; 256],
    marks: &mut [u16; 256],
) -> Chosen
    requires { Sides before.now p first.now x marks.old y }
    ensures { ChoiceOf before.now p first.now x marks.old y marks.new result }
{
    let tries = x.tries + y.tries;
    match eval_structs::this_or_that_picks_first(
        ended(x),
        ended(y),
        p.remaining,
        x.numbers.remaining,
        y.numbers.remaining,
    ) {
        Pick::First => {
            *marks = *first;
            Chosen {
                ran: won(x, tries),
                first: true,
            }
        },
        Pick::Second => Chosen {
            ran: won(y, tries),
            first: false,
        },
        Pick::Winner => winner(x, y, tries, p.count, first, marks),
        Pick::Neither(e) => {
            *marks = *before; // neither side counts
            Chosen {
                ran: refusal(e.number, e.place, tries, p),
                first: false,
            }
        },
    }
}

// What a choice makes of one side, where the other is missing: `first` tells which side it is.
#[tactic(auto, unfolding(crate::specs::Unchanged::first_made, crate::specs::Unchanged::second_made, crate::specs::Unchanged::side_made, crate::specs::Unchanged::combined))]
fn one_side(ran: Ran, first: bool, p: Numbers) -> Chosen
    requires { ran.tries + 1 < 2 ^ 32 }
    ensures { result ≡ (if first then first_made p ran else second_made p ran) }
{
    let tries = ran.tries + 1;
    if ran.number == 0 {
        return Chosen {
            ran: won(ran, tries),
            first, // 20 is not for wrong input
        };
    }
    let missing = rules::Refused {
        number: 20,
        place: 0,
    };
    let e = if first {
        eval_error::combine_with(ended(ran), missing)
    } else {
        eval_error::combine_with(missing, ended(ran))
    };
    Chosen {
        ran: refusal(e.number, e.place, tries, p),
        first: false,
    }
}

// What a choice makes of its first side, where the second is missing and a refused first side left the marks as they were.
pub fn first_alone(ran: Ran, p: Numbers) -> Chosen
    requires { ran.tries + 1 < 2 ^ 32 }
    ensures value { result ≡ first_made p ran }
    ensures by_index { (before m : List ℕ) → Sides before p m ran before (missing_of p) → MarksUnchanged before m ran → ChoiceOf before p m ran before (missing_of p) m result }
{
    one_side(ran, true, p)
}

// The same of its second side, where the first is missing.
pub fn second_alone(ran: Ran, p: Numbers) -> Chosen
    requires { ran.tries + 1 < 2 ^ 32 }
    ensures value { result ≡ second_made p ran }
    ensures by_index { (before m : List ℕ) → Sides before p before (missing_of p) m ran → MarksUnchanged before m ran → ChoiceOf before p before (missing_of p) m ran m result }
{
    one_side(ran, false, p)
}
