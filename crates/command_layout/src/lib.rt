// A table of commands: its count, its entries, and of an entry the names and the form.
#![tactic(auto)]

ghost use Rattle.std.specs.Prelude.{◌≡◌, List, ◌+◌, ◌≤◌, ◌<◌, length};
ghost use Rattle.std.proofs.Math.Option.{some};
ghost use Rattle.std.proofs.Math.ListN.{get_elem?};
ghost use Rattle.wire.specs.Wire.{entry_of};
ghost use Rattle.rules.specs.Outcome.{ok};
ghost use Rattle.rules.specs.Form.{name_bytes};
ghost use Rattle.rules.specs.Commands.{Command, entry_count, entry_names, entry_area, entry_area_at, entry_form_at, read_command, table_in};
ghost use Rattle.form_names.specs.Names.{name_of};
ghost use Rattle.command_layout.specs.Tables.{HasEntry, EntryCounts, EntryFits, HasRecord, HasCommands, FormOf};

use form_names::Name;
use wire::WIDE_OFFSET;

pub fn entry_count(table: &[u8]) -> usize
    requires { 2 ≤ length table.now }
    ensures { result ≡ entry_count table.now }
{
    wire::u16_at(table, 0) as usize
}

// Entry k.
pub fn entry_at(table: &[u8], k: usize) -> &[u8]
    requires { HasEntry table.now k }
    ensures { result.now ≡ entry_of 4 (entry_count table.now) table.now k }
{
    wire::entry(table, WIDE_OFFSET, entry_count(table), k)
}

pub fn name_count(entry: &[u8]) -> usize
    requires { 4 ≤ length entry.now }
    ensures { result ≡ entry_names entry.now }
{
    wire::u16_at(entry, 0) as usize
}

pub fn area_size(entry: &[u8]) -> usize
    requires { 4 ≤ length entry.now }
    ensures { result ≡ entry_area entry.now }
{
    wire::u16_at(entry, 2) as usize
}

// Where the area of the names and the form begin.
pub fn area_at(entry: &[u8]) -> usize
    requires { EntryCounts entry.now }
    ensures { result ≡ entry_area_at entry.now }
{
    4 + 6 * name_count(entry)
}

pub fn form_at(entry: &[u8]) -> usize
    requires { EntryCounts entry.now }
    ensures { result ≡ entry_form_at entry.now }
{
    area_at(entry) + area_size(entry)
}

// Name record k of an entry.
pub fn name_at(entry: &[u8], k: usize) -> Name
    requires { HasRecord entry.now k }
    ensures { get_elem? (read_command entry.now).names k ≡ some (name_of result) }
{
    form_names::record_at(&entry[4..], k)
}

// The area of the names.
pub fn area_of(entry: &[u8]) -> &[u8]
    requires { EntryFits entry.now }
    ensures { result.now ≡ (read_command entry.now).area }
{
    &entry[area_at(entry)..form_at(entry)]
}

pub fn form_of(entry: &[u8]) -> &[u8]
    requires { EntryFits entry.now }
    ensures { result.now ≡ (read_command entry.now).form }
{
    &entry[form_at(entry)..]
}

// The form of command k, in a table whose names are good.
pub fn command_form(table: &[u8], k: usize) -> &[u8]
    requires { HasCommands table.now × (k < entry_count table.now) }
    ensures { (cs : List Command) → table_in table.now ≡ ok cs → FormOf cs k result.now }
{
    form_of(entry_at(table, k))
}
