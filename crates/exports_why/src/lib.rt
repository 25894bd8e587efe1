// The library for C and Rust: what looks at a line that was run, the careful run and why a place was left over. It stands apart from
// `exports` for the reason that `exports_commands` does.
#![tactic(auto)]

ghost use Rattle.std.specs.Prelude.{◌≡◌, length};
ghost use Rattle.std.proofs.Math.Option.{some};
ghost use Rattle.rules_careful.specs.Careful.{careful as careful_of};
ghost use Rattle.rules.specs.Why.{why as why_of};
ghost use Rattle.careful.specs.Looked.{careful_answer};
ghost use Rattle.why.specs.Explained.{why_answer};

use careful::CarefulAnswer;
use why::WhyAnswer;

#[unsafe(no_mangle)]
pub extern "C" fn silverpoise_careful(
    form: &[u8],
    sheet: &[u8],
    items: &mut [u32],
    answers: &mut [u32],
    list: &mut [u32],
) -> CarefulAnswer
    ensures { careful_answer (careful_of form.now sheet.now (length items.old) (length answers.old) (length list.old)) ≡ some (record { answer = result; items = items.new; answers = answers.new; list = list.new }) }
{
    careful::careful(form, sheet, items, answers, list)
}

#[unsafe(no_mangle)]
pub extern "C" fn silverpoise_why(
    form: &[u8],
    sheet: &[u8],
    place: usize,
    items: &mut [u32],
    answers: &mut [u32],
    list: &mut [u32],
) -> WhyAnswer
    ensures { why_answer (why_of form.now sheet.now place (length items.old) (length answers.old) (length list.old)) ≡ some (record { answer = result; items = items.new; answers = answers.new; list = list.new }) }
{
    why::why(form, sheet, place, items, answers, list)
}
