// Little-endian numbers, counted offset tables, and words written to a slice.
#![tactic(auto)]

ghost use Rattle.std.specs.Prelude.{◌≡◌, ◌+◌, ◌-◌, ◌^◌, ◌≤◌, ◌<◌, min, length, replicate};
ghost use Rattle.std.proofs.lemmas.List.Edits.{sets};
ghost use Rattle.wire.specs.Wire.{number_at, Width, offset, area_start, table_good, entry_of, HasEntry};

// The bytes of a table's count, and of an offset in a table whose area has no limit.
pub const COUNT_BYTES: usize = 2;

pub const WIDE_OFFSET: usize = 4;

// A number of 32 bits as a place in a slice. A cast with a contract, for other crates.
pub fn wide(x: u32) -> usize
    ensures { result ≡ x }
{
    x as usize
}

// A sum, as `number_at` of the rules has it and the must-fail edit `high_byte` changes it; it compiles to one load already.
pub fn u16_at(b: &[u8], i: usize) -> u32
    requires { i + 2 ≤ length b.now }
    ensures { result ≡ number_at 2 b.now i }
{
    u32::from(b[i]) + 256 * u32::from(b[i + 1])
}

pub fn u32_at(b: &[u8], i: usize) -> u32
    requires { i + 4 ≤ length b.now }
    ensures { result ≡ number_at 4 b.now i }
{
    u16_at(b, i) + 65536 * u16_at(b, i + 2)
}

// A number of two or four bytes.
pub fn number_at(b: &[u8], width: usize, i: usize) -> u32
    requires { Width width × (i + width ≤ length b.now) }
    ensures { result ≡ number_at width b.now i }
{
    if width == 2 {
        return u16_at(b, i);
    }
    u32_at(b, i)
}

// Where the area of a table of `count` entries starts.
pub fn area_start(width: usize, count: usize) -> usize
    requires { Width width × (area_start width count < 2 ^ 64) }
    ensures { result ≡ area_start width count }
{
    2 + width * (count + 1)
}

// Offset k of a table that has it.
pub fn offset_at(b: &[u8], width: usize, k: usize) -> usize
    requires { Width width × (area_start width k ≤ length b.now) }
    ensures { result ≡ offset width b.now k }
{
    number_at(b, width, 2 + width * k) as usize
}

// Whether `b` is a table of `count` entries. The count itself, bytes 0 and 1, is the caller's to read.
pub fn table_good(b: &[u8], width: usize, count: usize) -> bool
    requires { Width width × (count < 2 ^ 16) }
    ensures { result ≡ table_good width count b.now }
{
    let start = area_start(width, count);
    if b.len() < start {
        return false;
    }
    let mut last = offset_at(b, width, 0);
    if last != 0 {
        return false;
    }
    for k in 0..count {
        let next = offset_at(b, width, k + 1);
        if next < last {
            return false;
        }
        last = next;
    }
    last == b.len() - start
}

// Entry k, as a part of the slice.
pub fn entry(b: &[u8], width: usize, count: usize, k: usize) -> &[u8]
    requires { HasEntry width count b.now k }
    ensures { result.now ≡ entry_of width count b.now k }
{
    let start = area_start(width, count);
    let from = start + offset_at(b, width, k);
    let to = start + offset_at(b, width, k + 1);
    &b[from..to]
}

// The elements from `from` on, `count` of them or as many as there are, all become `value`.
pub fn fill<T: Copy>(out: &mut [T], from: usize, count: usize, value: T)
    ensures { out.new ≡ sets out.old from (replicate count value) }
{
    if from < out.len() {
        let end = from + count.min(out.len() - from);
        // A `for`: the library's `fill` asks that a clone of the value is the value, which `Copy` does not say.
        for x in &mut out[from..end] {
            *x = value;
        }
    }
}

// The elements from `at` on become `elements`, as far as there is room.
pub fn copy<T: Copy>(out: &mut [T], at: usize, elements: &[T])
    ensures { out.new ≡ sets out.old at elements.now }
{
    if at < out.len() {
        let count = elements.len().min(out.len() - at);
        out[at..at + count].copy_from_slice(&elements[..count]);
    }
}
