// Bytes written to a slice: numbers, zeros to the end, and a sheet, argument by argument.
#![tactic(auto)]

ghost use Rattle.std.specs.Prelude.{◌≡◌, ◌+◌, ◌-◌, ◌≤◌, [], ◌++◌, length, take, replicate};
ghost use Rattle.std.proofs.lemmas.List.Edits.{sets};
ghost use Rattle.rules.specs.Run.{padded};
ghost use Rattle.rules.specs.Encode.{bytes_of};
ghost use Rattle.wire_write.specs.Written.{sheet_so_far, with_argument, CanBegin, CanPut};

// The two low bytes of a number, little-endian.
pub fn put_u16(out: &mut [u8], at: usize, n: u32)
    requires { at + 2 ≤ length out.old }
    ensures { out.new ≡ sets out.old at (bytes_of 2 n) }
{
    out[at] = (n % 256) as u8;
    out[at + 1] = (n / 256 % 256) as u8;
}

pub fn put_u32(out: &mut [u8], at: usize, n: u32)
    requires { at + 4 ≤ length out.old }
    ensures { out.new ≡ sets out.old at (bytes_of 4 n) }
{
    put_u16(out, at, n);
    put_u16(out, at + 2, n / 65536);
}

// The bytes from `at` to the end become 0. A call of `fill` by a name: form_join and short_sheets cite this equation.
pub fn clear_from(out: &mut [u8], at: usize)
    ensures { out.new ≡ take at out.old ++ replicate (length out.old - at) 0 }
{
    wire::fill(out, at, out.len(), 0);
}

// A sheet of `count` arguments, none of which is written yet. The whole slice is cleared.
pub fn begin_sheet(out: &mut [u8], count: usize)
    requires { CanBegin out.old count }
    ensures { out.new ≡ padded (length out.old) (sheet_so_far count []) }
{
    clear_from(out, 0);
    put_u16(out, 0, count as u32);
}

// Argument k of a sheet of `count` arguments, which begins at `at` in the area: where it ends, and its bytes.
pub fn put_argument(out: &mut [u8], count: usize, k: usize, at: usize, bytes: &[u8])
    requires { CanPut out.old count k at bytes.now }
    ensures { out.new ≡ with_argument count k at bytes.now out.old }
{
    let end = at + bytes.len();
    put_u16(out, 2 + 2 * (k + 1), end as u32);
    wire::copy(out, wire::area_start(2, count) + at, bytes);
}
