// The library for C and Rust: tables of commands. It stands apart from `exports`: with a second caller the compiler would leave
// calls in the run of a single form that it now puts in place.
#![tactic(auto)]

ghost use Rattle.std.specs.Prelude.{◌≡◌, length};
ghost use Rattle.std.proofs.Math.Option.{some};
ghost use Rattle.rules.specs.Commands.{table_forms, entry_at_fault, call_command_form, run_commands};
ghost use Rattle.rules_careful.specs.CarefulCommands.{careful_commands};
ghost use Rattle.command_check.specs.Told.{table_told, part_told};
ghost use Rattle.command_run.specs.Commanded.{commands_answer};
ghost use Rattle.careful_commands.specs.Looked.{careful_commands_answer};

use careful_commands::CarefulCommandAnswer;
use command_check::{FormPart, TableRefused};
use command_run::CommandAnswer;

#[unsafe(no_mangle)]
pub extern "C" fn silverpoise_commands_check(table: &[u8]) -> TableRefused
    ensures { table_told (table_forms table.now) (entry_at_fault table.now) ≡ some result }
{
    command_check::check_told(table)
}

#[unsafe(no_mangle)]
pub extern "C" fn silverpoise_command_form(table: &[u8], entry: usize) -> FormPart
    ensures { part_told (call_command_form table.now entry) ≡ some result }
{
    command_check::form_part(table, entry)
}

#[unsafe(no_mangle)]
pub extern "C" fn silverpoise_run_commands(
    table: &[u8],
    sheet: &[u8],
    items: &mut [u32],
    answers: &mut [u32],
    list: &mut [u32],
) -> CommandAnswer
    ensures { commands_answer (run_commands table.now sheet.now (length items.old) (length answers.old) (length list.old)) ≡ some (record { answer = result; items = items.new; answers = answers.new; list = list.new }) }
{
    command_run::run_commands(table, sheet, items, answers, list)
}

#[unsafe(no_mangle)]
pub extern "C" fn silverpoise_careful_commands(
    table: &[u8],
    sheet: &[u8],
    items: &mut [u32],
    answers: &mut [u32],
    list: &mut [u32],
) -> CarefulCommandAnswer
    ensures { careful_commands_answer (careful_commands table.now sheet.now (length items.old) (length answers.old) (length list.old)) ≡ some (record { answer = result; items = items.new; answers = answers.new; list = list.new }) }
{
    careful_commands::careful_commands(table, sheet, items, answers, list)
}
