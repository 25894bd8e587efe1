// Name records, six bytes each (type, offset and size in an area), and the names that they give.
#![tactic(auto)]

ghost use Rattle.std.specs.Prelude.{◌≡◌, true, ◌+◌, ◌*◌, ◌≤◌, length};
ghost use Rattle.rules.specs.Base.{first_fault};
ghost use Rattle.rules.specs.Codes.{place_code};
ghost use Rattle.rules.specs.Form.{read_name, name_bytes, one_character, type_good, name_good, portable_character, portable_name};
ghost use Rattle.form_names.specs.Names.{name_of, names_in, fault_or};

// A name record; `kind` is its type: 0 short, 1 long, 2 text.
#[derive(Clone, Copy)]
pub struct Name {
    pub kind: u32,
    pub offset: usize,
    pub size: usize,
}

// Record k.
pub fn record_at(records: &[u8], k: usize) -> Name
    requires { 6 * k + 6 ≤ length records.now }
    ensures { name_of result ≡ read_name records.now (6 * k) }
{
    let at = 6 * k;
    Name {
        kind: wire::u16_at(records, at),
        offset: wire::u16_at(records, at + 2) as usize,
        size: wire::u16_at(records, at + 4) as usize,
    }
}

// The bytes of a name that lies in the area.
pub fn bytes(area: &[u8], x: Name) -> &[u8]
    requires { x.offset + x.size ≤ length area.now }
    ensures { result.now ≡ name_bytes area.now (name_of x) }
{
    let from = x.offset;
    let to = from + x.size;
    &area[from..to]
}

// The one character that the bytes are, plus 1; 0 if they are anything else. Most names are one ASCII byte.
pub fn character(s: &[u8]) -> u32
    ensures { result ≡ place_code (one_character s.now) }
{
    if s.len() == 1 && s[0] < 0x80 {
        return u32::from(s[0]) + 1;
    }
    match utf8::decode_at(s, 0) {
        Some(c) if c.size == s.len() => c.value + 1,
        _ => 0,
    }
}

fn type_good(kind: u32, s: &[u8]) -> bool
    ensures { result ≡ type_good kind s.now }
{
    match kind {
        0 => character(s) != 0,
        1 => utf8::valid(s),
        _ => kind == 2,
    }
}

// Whether the name lies in the area and is what its type says.
pub fn name_good(area: &[u8], x: Name) -> bool
    ensures { result ≡ name_good area.now (name_of x) }
{
    if area.len() < x.size || area.len() - x.size < x.offset {
        return false;
    }
    type_good(x.kind, bytes(area, x))
}

// The lowest of `count` records that is at fault, or `count`.
pub fn names_fault(records: &[u8], area: &[u8], count: usize) -> usize
    requires { 6 * count ≤ length records.now }
    ensures { result ≡ fault_or count (first_fault (name_good area.now) 0 (names_in records.now count)) }
{
    for k in 0..count {
        let x = record_at(records, k);
        if !name_good(area, x) {
            return k;
        }
    }
    count
}

// Whether a character is one of 0..9, A..Z, a..z, and not W, which is reserved for vendor options. An arm for each: two must-fail edits
// change one of them.
fn portable_character(c: u32) -> bool
    ensures { result ≡ portable_character c }
{
    match c {
        87 => false,
        48..=57 => true,
        65..=90 => true,
        97..=122 => true,
        _ => false,
    }
}

// Whether a name of type 0 is such a character; names of other types always pass.
pub fn portable_name(area: &[u8], x: Name) -> bool
    requires { x.offset + x.size ≤ length area.now }
    ensures { result ≡ portable_name area.now (name_of x) }
{
    if x.kind != 0 {
        return true;
    }
    let c = character(bytes(area, x));
    c != 0 && portable_character(c - 1)
}
