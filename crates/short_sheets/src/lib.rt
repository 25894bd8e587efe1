// The step from a short sheet to the next. Bytes are counted as places in the alphabet, lengths as numbers up to 4, both as digits of which
// the last goes fastest.
#![tactic(auto)]

ghost use Rattle.std.specs.Prelude.{◌≡◌, map, ◌+◌, ◌≤◌, ◌<◌, length};
ghost use Rattle.std.proofs.lemmas.List.Edits.{sets};
ghost use Rattle.rules.specs.Sheet.{arguments};
ghost use Rattle.rules_short.specs.Short.{lengths as lengths_of, letter_at, parted, next_sheet};
ghost use Rattle.short_sheets.specs.Steps.{places_in, LettersIn, ShortSheet, CountsUp, CanCount, Counts, PlacesIn, CanWrite, WritesSheet};
ghost use Rattle.short_sheets.specs.Answers.{CanRead, ReadsLine, NextLine, answered, CanWriteLine, WritesLine, CanStep, stepped, Reports};

// The most arguments of a sheet.
const ARGUMENTS: usize = 3;

// How many lengths an argument can have.
const LENGTHS: u8 = 5;

// Refused, or after the last sheet, the length is 0. There is never a place.
#[repr(C)]
#[derive(Clone, Copy)]
pub struct NextSheet {
    pub number: u32,
    pub place: u32,
    pub last: u32,
    pub length: u32,
}

// Each byte as its place in the alphabet. By `enumerate`: behind a zip over `iter_mut` a proof knows nothing of what was written.
fn read_places(alphabet: &[u8], area: &[u8], places: &mut [u8])
    requires { LettersIn alphabet.now area.now places.old }
    ensures { places.new ≡ sets places.old 0 (places_in alphabet.now area.now) }
{
    for (i, letter) in area.iter().enumerate() {
        places[i] = short_check::place_of(alphabet, *letter) as u8;
    }
}

fn read_lengths(sheet: &[u8], lengths: &mut [u8])
    requires { ShortSheet sheet.now lengths.old }
    ensures { lengths.new ≡ sets lengths.old 0 (lengths_of (arguments sheet.now)) }
{
    for k in 0..split_sheet::count(sheet) {
        lengths[k] = split_sheet::argument(sheet, k).len() as u8;
    }
}

// Digits below a base, counted up by one. Where each was the highest they are all 0, and there are no next ones.
fn count_up(digits: &mut [u8], base: u8) -> bool
    requires { 1 ≤ base }
    ensures { CountsUp base digits.old result digits.new }
{
    let top = base - 1;
    for i in (0..digits.len()).rev() {
        if digits[i] < top {
            digits[i] += 1;
            return true;
        }
        digits[i] = 0;
    }
    false
}

// The first places and lengths, counted up: how many arguments the next sheet has. After the last lengths it has one more.
fn count_line(base: u8, count: usize, size: usize, lengths: &mut [u8], places: &mut [u8]) -> usize
    requires { CanCount base count size lengths.old places.old }
    ensures { Counts base count size lengths.old places.old result lengths.new places.new }
{
    if count_up(&mut places[..size], base) || count_up(&mut lengths[..count], LENGTHS) {
        return count;
    }
    count + 1
}

// Each place as its letter.
fn put_letters(alphabet: &[u8], places: &mut [u8])
    requires { PlacesIn alphabet.now places.old }
    ensures { places.new ≡ map (letter_at alphabet.now) places.old }
{
    for place in places.iter_mut() {
        *place = alphabet[usize::from(*place)];
    }
}

// The sheet whose arguments have these lengths and are cut from the area, one behind the other; its length.
fn write_sheet(out: &mut [u8], lengths: &[u8], area: &[u8]) -> usize
    requires { CanWrite (length out.old) lengths.now area.now }
    ensures { WritesSheet (length out.old) (parted lengths.now area.now) result out.new }
{
    let count = lengths.len();
    wire_write::begin_sheet(out, count);
    let mut at = 0;
    for (k, length) in lengths.iter().enumerate() {
        let end = at + usize::from(*length);
        wire_write::put_argument(out, count, k, at, &area[at..end]);
        at = end;
    }
    wire::area_start(2, count) + at
}

// Lengths and places of a sheet's arguments.
fn read_line(alphabet: &[u8], sheet: &[u8], lengths: &mut [u8], places: &mut [u8])
    requires { CanRead alphabet.now sheet.now lengths.old places.old }
    ensures { ReadsLine alphabet.now (arguments sheet.now) lengths.old places.old lengths.new places.new }
{
    read_lengths(sheet, lengths);
    let start = wire::area_start(2, split_sheet::count(sheet));
    read_places(alphabet, &sheet[start..], places);
}

// Lengths and places of the next sheet, and how many arguments it has: 4 after the last.
fn next_line(alphabet: &[u8], sheet: &[u8], lengths: &mut [u8], places: &mut [u8]) -> usize
    requires { CanRead alphabet.now sheet.now lengths.old places.old }
    ensures { NextLine alphabet.now (arguments sheet.now) result lengths.new places.new }
{
    read_line(alphabet, sheet, lengths, places);
    let count = split_sheet::count(sheet);
    let size = split_sheet::begin(sheet, count);
    count_line(alphabet.len() as u8, count, size, lengths, places)
}

fn answer(number: u32, last: u32, length: u32) -> NextSheet
    ensures { result ≡ answered number last length }
{
    NextSheet {
        number,
        place: 0,
        last,
        length,
    }
}

// A sheet of `count` arguments, from lengths and places.
fn write_line(
    alphabet: &[u8],
    count: usize,
    lengths: &[u8],
    places: &mut [u8],
    out: &mut [u8],
) -> NextSheet
    requires { CanWriteLine alphabet.now count lengths.now places.old (length out.old) }
    ensures { WritesLine alphabet.now count lengths.now places.old (length out.old) result places.new out.new }
{
    put_letters(alphabet, places);
    let length = write_sheet(out, &lengths[..count], places);
    answer(0, 0, length as u32)
}

fn step(alphabet: &[u8], sheet: &[u8], out: &mut [u8]) -> NextSheet
    requires { CanStep alphabet.now sheet.now (length out.old) }
    ensures { Reports (stepped alphabet.now sheet.now (length out.old)) result out.new }
{
    let mut lengths = [0u8; 3];
    let mut places = [0u8; 12];
    let count = next_line(alphabet, sheet, &mut lengths, &mut places);
    if count > ARGUMENTS {
        wire_write::clear_from(out, 0);
        return answer(0, 1, 0);
    }
    write_line(alphabet, count, &lengths, &mut places, out)
}

// The sheet behind this one, and zeros to the output's end. Where there is none the whole output is 0.
pub fn next_sheet(alphabet: &[u8], sheet: &[u8], out: &mut [u8]) -> NextSheet
    ensures { Reports (next_sheet alphabet.now sheet.now (length out.old)) result out.new }
{
    if let Err(e) = short_check::check(alphabet, sheet, out.len()) {
        wire_write::clear_from(out, 0);
        return answer(e.number(), 0, 0);
    }
    step(alphabet, sheet, out)
}
