// A text as a number, as the Rust's `u32::from_str` reads it.
#![tactic(auto)]

ghost use Rattle.std.specs.Prelude.{◌≡◌};
ghost use Rattle.rules.specs.Eval.{unsigned, number_of};
ghost use Rattle.eval_number.specs.Number.{option_of};

// One or more digits. A value above the largest number stays above it, whatever follows.
fn unsigned(digits: &[u8]) -> Option<u32>
    ensures { option_of result ≡ unsigned digits.now }
{
    if digits.is_empty() {
        return None;
    }
    let mut n: u32 = 0;
    for b in digits {
        if !b.is_ascii_digit() {
            return None;
        }
        n = n.checked_mul(10)?.checked_add(u32::from(*b - b'0'))?;
    }
    Some(n)
}

// One optional `+`, then the digits.
pub fn parse(text: &[u8]) -> Option<u32>
    ensures { option_of result ≡ number_of text.now }
{
    match text {
        [b'+', digits @ ..] => unsigned(digits),
        _ => unsigned(text),
    }
}
