// The test of a table of commands: its offsets and the names of all entries, then the forms, one after the other.
#![tactic(auto)]

ghost use Rattle.std.specs.Prelude.{◌≡◌, ◌<◌, ◌^◌, true, not, ◌&&◌, leb, length};
ghost use Rattle.std.proofs.Math.Option.{some};
ghost use Rattle.wire.specs.Wire.{entry_of};
ghost use Rattle.rules.specs.Base.{all, null};
ghost use Rattle.rules.specs.Commands.{entry_count, offsets_good, table_entries, entry_names, entry_area, entry_form_at, read_command, of_type, command_name_good, entry_good};
ghost use Rattle.rules.specs.Commands.{table_forms, entry_at_fault, call_command_form};
ghost use Rattle.rules.specs.Reported.{place_told};
ghost use Rattle.form_names.specs.Names.{name_of};
ghost use Rattle.command_layout.specs.Tables.{HasEntry, EntryFits, HasCommands};
ghost use Rattle.command_check.specs.Told.{table_told, fault_told, table_reported, part_told, part_reported, TableTested};

use form_names::Name;
use rules::{Refusal, Refused, RefusedAt};
use wire::{COUNT_BYTES, WIDE_OFFSET};

// The most entries of a table, names of an entry, and bytes of their area.
const ENTRIES: usize = 32;

const NAMES: usize = 128;

const AREA: usize = 4096;

// The bytes of an entry's two counts.
const HEAD: usize = 4;

// The type of a long name; a short one has 0.
const LONG: u32 = 1;

// Why a table is refused: as a whole, or for a form, which is that of an entry.
#[derive(Clone, Copy, PartialEq, Eq, Debug)]
pub struct TableFault {
    pub fault: RefusedAt,
    pub entry: Option<u32>,
}

// The same for C: number 0 it is not. A place and an entry are plus 1, 0 for none.
#[repr(C)]
#[derive(Clone, Copy)]
pub struct TableRefused {
    pub number: u32,
    pub place: u32,
    pub entry: u32,
}

impl TableFault {
    pub fn told(self) -> TableRefused
        requires { (place_told self.fault.place < 2 ^ 32) × (place_told self.entry < 2 ^ 32) }
        ensures { result ≡ fault_told self }
    {
        let Refused { number, place } = self.fault.told();
        let entry = match self.entry {
            Some(k) => k + 1,
            None => 0,
        };
        TableRefused {
            number,
            place,
            entry,
        }
    }
}

// Where the form of an entry stands in the table.
#[derive(Clone, Copy)]
struct Part {
    offset: usize,
    length: usize,
}

// The same for C. Refused, offset and length are 0.
#[repr(C)]
#[derive(Clone, Copy)]
pub struct FormPart {
    pub number: u32,
    pub place: u32,
    pub offset: usize,
    pub length: usize,
}

// Whether an entry's counts are within a form's limits, and it is long enough for its names.
fn fits(entry: &[u8]) -> bool
    ensures { result ≡ ((leb (entry_names entry.now) 128 && leb (entry_area entry.now) 4096) && leb (entry_form_at entry.now) (length entry.now)) }
{
    HEAD <= entry.len()
        && command_layout::name_count(entry) <= NAMES
        && command_layout::area_size(entry) <= AREA
        && command_layout::form_at(entry) <= entry.len()
}

// Whether a name is good, and long or short.
fn name_good(area: &[u8], x: Name) -> bool
    ensures { result ≡ command_name_good area.now (name_of x) }
{
    x.kind <= LONG && form_names::name_good(area, x)
}

fn names_good(entry: &[u8]) -> bool
    requires { EntryFits entry.now }
    ensures { result ≡ all (command_name_good (read_command entry.now).area) (read_command entry.now).names }
{
    let area = command_layout::area_of(entry);
    let n = command_layout::name_count(entry);
    (0..n).all(|k| name_good(area, command_layout::name_at(entry, k)))
}

fn has_long(entry: &[u8]) -> bool
    requires { EntryFits entry.now }
    ensures { result ≡ not (null (of_type 1 (read_command entry.now))) }
{
    let n = command_layout::name_count(entry);
    (0..n).any(|k| command_layout::name_at(entry, k).kind == LONG)
}

// Whether an entry's names are good, and one is long.
fn entry_good(entry: &[u8]) -> bool
    ensures { result ≡ entry_good entry.now }
{
    fits(entry) && names_good(entry) && has_long(entry)
}

fn offsets_good(table: &[u8]) -> bool
    ensures { result ≡ offsets_good table.now }
{
    if table.len() < COUNT_BYTES {
        return false;
    }
    let n = command_layout::entry_count(table);
    1 <= n && n <= ENTRIES && wire::table_good(table, WIDE_OFFSET, n)
}

fn entries_good(table: &[u8]) -> bool
    requires { offsets_good table.now ≡ true }
    ensures { result ≡ all entry_good (table_entries table.now) }
{
    let n = command_layout::entry_count(table);
    (0..n).all(|k| entry_good(command_layout::entry_at(table, k)))
}

// Whether the offsets and all names are good.
pub fn table_good(table: &[u8]) -> bool
    ensures { result ≡ (offsets_good table.now && all entry_good (table_entries table.now)) }
{
    offsets_good(table) && entries_good(table)
}

// The first form that is not accepted, of a table whose names are good.
fn check_forms(table: &[u8]) -> Result<(), TableFault>
    requires { HasCommands table.now }
    ensures { TableTested table.now (table_reported result) }
{
    let n = command_layout::entry_count(table);
    for k in 0..n {
        if let Err(fault) = form_check::check(command_layout::command_form(table, k)) {
            return Err(TableFault {
                fault,
                entry: Some(k as u32),
            });
        }
    }
    Ok(())
}

// The names, then form by form: a name that is not good is found before any form.
pub fn check(table: &[u8]) -> Result<(), TableFault>
    ensures { TableTested table.now (table_reported result) }
{
    if !table_good(table) {
        return Err(TableFault {
            fault: RefusedAt::from(Refusal::BadTable),
            entry: None,
        });
    }
    check_forms(table)
}

// The check for C.
pub fn check_told(table: &[u8]) -> TableRefused
    ensures { table_told (table_forms table.now) (entry_at_fault table.now) ≡ some result }
{
    match check(table) {
        Ok(()) => TableRefused {
            number: 0,
            place: 0,
            entry: 0,
        },
        Err(e) => e.told(),
    }
}

fn find_form(table: &[u8], k: usize) -> Result<Part, Refusal>
    ensures { part_told (call_command_form table.now k) ≡ some (part_reported result) }
{
    if !table_good(table) {
        return Err(Refusal::BadTable);
    }
    let n = command_layout::entry_count(table);
    if n <= k {
        return Err(Refusal::NotThere);
    }
    let start = wire::area_start(WIDE_OFFSET, n) + wire::offset_at(table, WIDE_OFFSET, k);
    let entry = command_layout::entry_at(table, k);
    let at = command_layout::form_at(entry);
    Ok(Part {
        offset: start + at,
        length: entry.len() - at,
    })
}

// The form of entry k, as a part of the table. It need not be accepted.
pub fn form_part(table: &[u8], k: usize) -> FormPart
    ensures { part_told (call_command_form table.now k) ≡ some result }
{
    match find_form(table, k) {
        Ok(Part { offset, length }) => FormPart {
            number: 0,
            place: 0,
            offset,
            length,
        },
        Err(e) => FormPart {
            number: e.number(),
            place: 0,
            offset: 0,
            length: 0,
        },
    }
}
