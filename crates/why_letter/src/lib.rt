// The letter for which a cluster was withdrawn: the first that no flag and no argument of the form has.
#![tactic(auto)]

ghost use Rattle.std.specs.Prelude.{◌≡◌, true, ◌||◌, ◌*◌, ◌≤◌, length, drop, replicate};
ghost use Rattle.utf8.specs.Utf8.{well_formed};
ghost use Rattle.rules.specs.Base.{contains, is_some};
ghost use Rattle.rules.specs.Split.{behind_equals};
ghost use Rattle.rules.specs.Why.{dashed_name};
ghost use Rattle.split_arg.specs.Clusters.{meaning};
ghost use Rattle.why_letter.specs.Withdrawn.{CanExplain, RestTold, LetterTold, ClusterTold, UnknownTold};

use split_arg::{Item, Letters};

// Whether the item before place i is a Short that has its value in its own argument: a Word behind it is the rest of that argument.
pub fn is_rest(items: &[u32], i: usize) -> bool
    requires { 7 * i ≤ length items.now }
    ensures { RestTold items.now i result }
{
    if i == 0 {
        return false;
    }
    let item = split_arg::read_item(items, i - 1);
    let Item::Short(_, own, _) = item else {
        return false;
    };
    own
}

// One letter after the other, as splitting does: among the few letters of a form the library's `contains` takes longer.
fn knows(s: &[u32], letter: u32) -> bool
    ensures { result ≡ contains s.now letter }
{
    for known in s {
        if *known == letter {
            return true;
        }
    }
    false
}

// Whether a letter is a flag's or an argument's.
fn is_known(letters: &Letters, letter: u32) -> bool
    ensures { result ≡ (contains letters.now.flags.now letter || contains letters.now.arguments.now letter) }
{
    knows(letters.flags, letter) || knows(letters.arguments, letter)
}

// The first letter of a name that is not. A loop: the step is the size of a character, which no range counts.
fn first_unknown(name: &[u8], letters: &Letters) -> Option<u32>
    requires { well_formed name.now ≡ true }
    ensures { LetterTold (meaning letters.now) name.now result }
{
    let mut at = 0;
    loop {
        let Some(letter) = split_arg::letter_at(name, at) else {
            return None;
        };
        if !is_known(letters, letter.value) {
            return Some(letter.value);
        }
        at += letter.size;
    }
}

// Whether an `=` stands from a byte on.
fn has_equals(os: &[u8], from: usize) -> bool
    requires { from ≤ length os.now }
    ensures { result ≡ is_some (behind_equals (drop from os.now)) }
{
    os[from..].contains(&b'=')
}

// Whether an argument has one dash and a UTF-8 name with no `=` behind its first byte. Splitting asks this too, and looks letters up; with
// a second caller the compiler would leave calls in splitting that it now puts in place, and every line would take longer.
fn has_name(os: &[u8]) -> bool
    ensures { result ≡ is_some (dashed_name os.now) }
{
    if os.len() < 2 || os[0] != b'-' || os[1] == b'-' || has_equals(os, 2) {
        return false;
    }
    utf8::valid(&os[1..])
}

// Of an argument that became one Word, the first unknown letter, if it looks like a cluster.
pub fn cluster_letter(os: &[u8], letters: &Letters) -> Option<u32>
    ensures { ClusterTold (meaning letters.now) os.now result }
{
    if !has_name(os) {
        return None;
    }
    first_unknown(&os[1..], letters)
}

fn no_letters() -> [u32; 128]
    ensures { result ≡ replicate 128 0 }
{
    [0u32; 128]
}

// The same of place i of a line, with the letters of the form.
pub fn unknown_letter(
    form: &[u8],
    codes: &[u32],
    sheet: &[u8],
    items: &[u32],
    i: usize,
) -> Option<u32>
    requires { CanExplain form.now codes.now sheet.now items.now i }
    ensures { UnknownTold form.now sheet.now items.now i result }
{
    let item = split_arg::read_item(items, i);
    let Item::Word(text) = item else {
        return None;
    };
    if is_rest(items, i) {
        return None;
    }
    let mut flags = no_letters();
    let mut arguments = no_letters();
    let counts = form_letters::letters(form, codes, &mut flags, &mut arguments);
    let n = counts.flags;
    let m = counts.arguments;
    let os = take_search::part_bytes(sheet, text);
    let letters = Letters {
        flags: &flags[0..n],
        arguments: &arguments[0..m],
    };
    cluster_letter(os, &letters)
}
