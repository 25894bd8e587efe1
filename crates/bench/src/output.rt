// An answer as text, written into a buffer.
ghost use Rattle.std.specs.Prelude.{◌≡◌, ◌++◌, ◌+◌, ◌*◌, ◌≤◌, length};
ghost use Rattle.rules.specs.Base.{concat_map};
ghost use Rattle.rules.specs.Bench.{decimal, place_text, word_line};
ghost use Rattle.rules.specs.Codes.{place_of};
ghost use Rattle.bench.specs.Text.{Appends, line_text};

// Each function here writes a text from `at` on, and answers where it ends.
fn append(out: &mut [u8], at: usize, part: &[u8]) -> usize
    requires { at + length part.now ≤ length out.old }
    ensures { Appends out.old at out.new result part.now }
{
    let end = at + part.len();
    out[at..end].copy_from_slice(part);
    end
}

fn append_number(out: &mut [u8], at: usize, n: u32) -> usize
    requires { at + 10 ≤ length out.old }
    ensures { Appends out.old at out.new result (decimal n) × (result ≤ at + 10) }
{
    let mut digits = [0u8; 20];
    let k = io::decimal(u64::from(n), &mut digits);
    append(out, at, &digits[..k])
}

// A place is itself plus 1, or 0 for none.
fn append_place(out: &mut [u8], at: usize, place: u32) -> usize
    requires { at + 10 ≤ length out.old }
    ensures { Appends out.old at out.new result (place_text (place_of place)) × (result ≤ at + 10) }
{
    if place == 0 {
        return append(out, at, b"-");
    }
    append_number(out, at, place - 1)
}

fn append_labelled(out: &mut [u8], at: usize, label: &[u8; 7], n: u32) -> usize
    requires { at + 17 ≤ length out.old }
    ensures { Appends out.old at out.new result (label.now ++ decimal n) × (result ≤ at + 17) }
{
    let end = append(out, at, label);
    append_number(out, end, n)
}

// The first line stands at the start.
pub fn first_line(out: &mut [u8], number: u32, place: u32, tries: u32, words: u32) -> usize
    requires { 69 ≤ length out.old }
    ensures { Appends out.old 0 out.new result (line_text number (place_of place) tries words) × (result ≤ 69) }
{
    let numbered = append_labelled(out, 0, b"answer ", number);
    let labelled = append(out, numbered, b" place ");
    let placed = append_place(out, labelled, place);
    let tried = append_labelled(out, placed, b" tries ", tries);
    let counted = append_labelled(out, tried, b" words ", words);
    append(out, counted, b"\n")
}

pub fn append_words(out: &mut [u8], at: usize, words: &[u32]) -> usize
    requires { at + 11 * length words.now ≤ length out.old }
    ensures { Appends out.old at out.new result (concat_map word_line words.now) }
{
    let mut end = at;
    for word in words {
        let written = append_number(out, end, *word);
        end = append(out, written, b"\n");
    }
    end
}
