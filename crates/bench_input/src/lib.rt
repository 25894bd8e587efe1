// A form and a sheet joined: where the form ends, and the two parts.
#![tactic(auto)]

ghost use Rattle.std.specs.Prelude.{◌≡◌, ◌≤◌, length, take, drop};
ghost use Rattle.rules.specs.Form.{form_length, form_end};

// How long the form is by the counts of its header. By `u16_at`, whose type bounds the sum: form_layout's readers of these counts give
// a usize, and the bound of each would be proved.
fn form_length(b: &[u8]) -> usize
    requires { 8 ≤ length b.now }
    ensures { result ≡ form_length b.now }
{
    let nodes = wire::u16_at(b, 0) as usize;
    let fields = wire::u16_at(b, 2) as usize;
    let names = wire::u16_at(b, 4) as usize;
    let area = wire::u16_at(b, 6) as usize;
    8 + 2 * fields + 16 * nodes + 6 * names + area
}

// Where the form ends. An input shorter than its form, or with counts out of limits, is all form.
pub fn form_end(input: &[u8]) -> usize
    ensures { result ≡ form_end input.now }
{
    if input.len() < 8 {
        return input.len();
    }
    let end = form_length(input);
    // The first `end` bytes have the length that their counts say, so only the counts' limits are left to test.
    if input.len() < end || !form_layout::length_good(&input[..end]) {
        return input.len();
    }
    end
}

pub fn form_part(input: &[u8]) -> &[u8]
    ensures { result.now ≡ take (form_end input.now) input.now }
{
    let end = form_end(input);
    &input[..end]
}

pub fn sheet_part(input: &[u8]) -> &[u8]
    ensures { result.now ≡ drop (form_end input.now) input.now }
{
    let end = form_end(input);
    &input[end..]
}
