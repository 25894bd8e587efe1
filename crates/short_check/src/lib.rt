// What the step to the next short sheet asks: an alphabet, a sheet over it, and room. 16, 17 and 19.
#![tactic(auto)]

ghost use Rattle.std.specs.Prelude.{◌≡◌};
ghost use Rattle.rules.specs.Accept.{index_of};
ghost use Rattle.rules.specs.Reported.{tested};
ghost use Rattle.rules.specs.Base.{contains};
ghost use Rattle.rules_short.specs.Short.{distinct as none_twice, alphabet_good, argument_legal, sheet_legal};
ghost use Rattle.short_check.specs.Tests.{input_fault};

use rules::Refusal;

// The most letters of an alphabet, arguments of a sheet, bytes of an argument, and bytes of a sheet: 2 + 2 * (3 + 1) + 3 * 4.
const LETTERS: usize = 8;

const ARGUMENTS: usize = 3;

const ARGUMENT: usize = 4;

const SHEET: usize = 22;

// The place of a byte in the alphabet; its length where it is none of the alphabet, as `index_of` of the rules has it.
pub fn place_of(alphabet: &[u8], x: u8) -> usize
    ensures { result ≡ index_of x alphabet.now }
{
    alphabet
        .iter()
        .position(|y| *y == x)
        .unwrap_or(alphabet.len())
}

// Whether a byte is of the alphabet. The library's `contains` takes longer on so few.
fn has(alphabet: &[u8], x: u8) -> bool
    ensures { result ≡ contains alphabet.now x }
{
    for y in alphabet {
        if *y == x {
            return true;
        }
    }
    false
}

fn distinct(alphabet: &[u8]) -> bool
    ensures { result ≡ none_twice alphabet.now }
{
    for i in 0..alphabet.len() {
        if has(&alphabet[i + 1..], alphabet[i]) {
            return false;
        }
    }
    true
}

fn alphabet_good(alphabet: &[u8]) -> bool
    ensures { result ≡ alphabet_good alphabet.now }
{
    1 <= alphabet.len() && alphabet.len() <= LETTERS && distinct(alphabet)
}

fn argument_legal(alphabet: &[u8], argument: &[u8]) -> bool
    ensures { result ≡ argument_legal alphabet.now argument.now }
{
    argument.len() <= ARGUMENT && argument.iter().all(|x| has(alphabet, *x))
}

fn sheet_legal(alphabet: &[u8], sheet: &[u8]) -> bool
    ensures { result ≡ sheet_legal alphabet.now sheet.now }
{
    if split_sheet::check(sheet).is_err() {
        return false;
    }
    let count = split_sheet::count(sheet);
    if count > ARGUMENTS {
        return false;
    }
    for k in 0..count {
        if !argument_legal(alphabet, split_sheet::argument(sheet, k)) {
            return false;
        }
    }
    true
}

// Whether a step can be made; the alphabet is tested first, and the output last.
pub fn check(alphabet: &[u8], sheet: &[u8], room: usize) -> Result<(), Refusal>
    ensures { tested result ≡ input_fault alphabet.now sheet.now room }
{
    if !alphabet_good(alphabet) {
        return Err(Refusal::BadAlphabet);
    }
    if !sheet_legal(alphabet, sheet) {
        return Err(Refusal::NotShort);
    }
    if room < SHEET {
        return Err(Refusal::ShortOutput);
    }
    Ok(())
}
