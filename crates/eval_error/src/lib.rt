// Refusals, by their number: which can be caught, which are for wrong input, and two as one.
#![tactic(auto)]

ghost use Rattle.std.proofs.Math.Option.{none};
ghost use Rattle.std.specs.Prelude.{◌≡◌};
ghost use Rattle.rules.specs.Outcome.{refuse, can_catch, wrong_input, combine_with};
ghost use Rattle.eval_error.specs.Refusals.{refusal_of, refused_of};

// 20 Missing, 21 ParseSome, 24 NonStrictPos
#[tactic(auto, unfolding(rules::specs::Base::contains, rules::specs::Outcome::can_catch))]
pub fn can_catch(number: u32) -> bool
    ensures { result ≡ can_catch (refuse number none) }
{
    matches!(number, 20 | 21 | 24)
}

// 9 Ambiguity, 22 NoArgument, 23 StrictPos, 24 NonStrictPos, 27 Unconsumed
#[tactic(auto, unfolding(rules::specs::Base::contains, rules::specs::Outcome::wrong_input))]
pub fn wrong_input(number: u32) -> bool
    ensures { result ≡ wrong_input (refuse number none) }
{
    matches!(number, 9 | 22 | 23 | 24 | 27)
}

// Two that miss something miss both, at no place. Otherwise the first, unless it can be caught.
#[tactic(auto, using(crate::specs::Refusals::refused_refusal), unfolding(crate::specs::Refusals::refused_of, crate::specs::Refusals::refusal_of, rules::specs::Base::contains, rules::specs::Outcome::can_catch, rules::specs::Outcome::is_missing, rules::specs::Outcome::combine_with))]
pub fn combine_with(a: rules::Refused, b: rules::Refused) -> rules::Refused
    ensures { result ≡ refused_of (combine_with (refusal_of a) (refusal_of b)) }
{
    if !can_catch(a.number) {
        a
    } else if a.number == 20 && b.number == 20 {
        rules::Refused {
            number: 20,
            place: 0,
        }
    } else {
        b
    }
}
