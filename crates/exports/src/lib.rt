// The library for C and Rust: whole forms and lines. A slice is passed as two arguments, the pointer and the count.
#![tactic(auto)]

ghost use Rattle.std.specs.Prelude.{◌≡◌, length};
ghost use Rattle.std.proofs.Math.Option.{some};
ghost use Rattle.rules.specs.Outcome.{ok};
ghost use Rattle.utf8.specs.Utf8.{decode_at, well_formed};
ghost use Rattle.rules.specs.Sheet.{sheet_fault};
ghost use Rattle.rules.specs.Accept.{check_form};
ghost use Rattle.rules.specs.Codes.{check_code, kind_code};
ghost use Rattle.rules.specs.Calls.{call_kind, call_portable, call_split};
ghost use Rattle.rules.specs.Run as Run;
ghost use Rattle.rules_careful.specs.Idle.{call_idle};
ghost use Rattle.form_idle.specs.Idles.{idle_answer};
ghost use Rattle.rules_join.specs.Join as Join;
ghost use Rattle.form_join.specs.Answers.{ReportsJoin};
ghost use Rattle.run.specs.Runner.{run_answer};
ghost use Rattle.call_check.specs.Reader.{sheet_code, told, yes_code, splitting_of};
ghost use Rattle.call_text.specs.Text.{PartOf};
ghost use Rattle.call_answers.specs.Answers.{decoding};

use call_answers::Decoding;
use call_check::{SplitAnswer, Told};
use call_text::TextPart;
use form_idle::IdleAnswer;
use form_join::Joined;
use rules::Refused;
use run_fields::RunAnswer;

#[unsafe(no_mangle)]
pub extern "C" fn silverpoise_utf8_valid(s: &[u8]) -> bool
    ensures { result ≡ well_formed s.now }
{
    utf8::valid(s)
}

#[unsafe(no_mangle)]
pub extern "C" fn silverpoise_utf8_decode(s: &[u8], at: usize) -> Decoding
    ensures { result ≡ decoding (decode_at s.now at) }
{
    call_answers::decode(s, at)
}

#[unsafe(no_mangle)]
pub extern "C" fn silverpoise_form_check(form: &[u8]) -> Refused
    ensures { result ≡ check_code (check_form form.now) }
{
    call_check::form_check(form)
}

#[unsafe(no_mangle)]
pub extern "C" fn silverpoise_sheet_check(sheet: &[u8]) -> Refused
    ensures { result ≡ sheet_code (sheet_fault sheet.now) }
{
    call_check::sheet_check(sheet)
}

#[unsafe(no_mangle)]
pub extern "C" fn silverpoise_kind(form: &[u8], node: usize) -> Told
    ensures { told kind_code (call_kind form.now node) ≡ some result }
{
    call_check::kind(form, node)
}

#[unsafe(no_mangle)]
pub extern "C" fn silverpoise_portable(form: &[u8]) -> Told
    ensures { told yes_code (call_portable form.now) ≡ some result }
{
    call_check::portable(form)
}

#[unsafe(no_mangle)]
pub extern "C" fn silverpoise_idle_repeats(form: &[u8]) -> IdleAnswer
    ensures { idle_answer (call_idle form.now) ≡ some result }
{
    form_idle::idle_repeats(form)
}

#[unsafe(no_mangle)]
pub extern "C" fn silverpoise_join(first: &[u8], second: &[u8], out: &mut [u8]) -> Joined
    ensures { ReportsJoin (Join.join first.now second.now (length out.old)) result out.new }
{
    form_join::join(first, second, out)
}

#[unsafe(no_mangle)]
pub extern "C" fn silverpoise_split(form: &[u8], sheet: &[u8], items: &mut [u32]) -> SplitAnswer
    ensures { call_split form.now sheet.now (length items.old) ≡ ok (splitting_of result items.new) }
{
    call_check::split(form, sheet, items)
}

#[unsafe(no_mangle)]
pub extern "C" fn silverpoise_text(form: &[u8], sheet: &[u8], items: &[u32], word: u32) -> TextPart
    ensures { PartOf form.now sheet.now items.now word result }
{
    call_text::text_part(form, sheet, items, word)
}

#[unsafe(no_mangle)]
pub extern "C" fn silverpoise_run(
    form: &[u8],
    sheet: &[u8],
    items: &mut [u32],
    answers: &mut [u32],
    list: &mut [u32],
) -> RunAnswer
    ensures { run_answer (Run.run form.now sheet.now (length items.old) (length answers.old) (length list.old)) ≡ some (record { answer = result; items = items.new; answers = answers.new; list = list.new }) }
{
    run::run(form, sheet, items, answers, list)
}
