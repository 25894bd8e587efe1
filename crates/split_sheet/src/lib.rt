// The sheet: whether it is well made, and its arguments, each a part of the sheet.
#![tactic(auto)]

ghost use Rattle.std.specs.Prelude.{◌≡◌};
ghost use Rattle.wire.specs.Wire.{offset, entry_of};
ghost use Rattle.rules.specs.Sheet.{argument_count, sheet_fault};
ghost use Rattle.rules.specs.Reported.{tested};
ghost use Rattle.split_sheet.specs.Checked.{HasArgument, HasOffset};

use rules::Refusal;

// The most arguments that a sheet has, and the most bytes of their area.
const ARGUMENTS: usize = 256;

const AREA: usize = 32768;

// Whether the sheet is well made. 6 stands before the faults of the offsets: the count is read first.
pub fn check(s: &[u8]) -> Result<(), Refusal>
    ensures { tested result ≡ sheet_fault s.now }
{
    if s.len() < 2 {
        return Err(Refusal::BadSheet);
    }
    let count = wire::u16_at(s, 0) as usize;
    if count > ARGUMENTS {
        return Err(Refusal::TooManyArguments);
    }
    if !wire::table_good(s, 2, count) {
        return Err(Refusal::BadSheet);
    }
    if s.len() - wire::area_start(2, count) > AREA {
        return Err(Refusal::BadSheet);
    }
    Ok(())
}

pub fn count(s: &[u8]) -> usize
    requires { sheet_fault s.now ≡ 0 }
    ensures { result ≡ argument_count s.now }
{
    wire::u16_at(s, 0) as usize
}

// Argument k, as a part of the sheet.
pub fn argument<'a>(s: &'a [u8], k: usize) -> &'a [u8]
    requires { HasArgument s.now k }
    ensures { result.now ≡ entry_of 2 (argument_count s.now) s.now k }
{
    wire::entry(s, 2, count(s), k)
}

// Where in the area argument k begins, and the one before it ends. The last offset is the area's length.
pub fn begin(s: &[u8], k: usize) -> usize
    requires { HasOffset s.now k }
    ensures { result ≡ offset 2 s.now k }
{
    wire::offset_at(s, 2, k)
}
