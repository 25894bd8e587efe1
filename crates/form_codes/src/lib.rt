// The short names of a form as numbers, made once, so that no name is decoded again.
#![tactic(auto)]

ghost use Rattle.std.specs.Prelude.{◌≡◌, ◌≤◌, length, replicate};
ghost use Rattle.std.proofs.Math.Option.{some};
ghost use Rattle.std.proofs.Math.ListN.{get_elem?};
ghost use Rattle.rules.specs.Form.{name_count, read_form};
ghost use Rattle.form_layout.specs.Layout.{GoodNames, HasName};
ghost use Rattle.form_codes.specs.Codes.{codes_of, CodedNames, WroteCodes};

// The code of name record k: its character plus 1 if it is short, else 0.
fn code(form: &[u8], k: usize) -> u32
    requires { HasName form.now k }
    ensures { get_elem? (codes_of (read_form form.now)) k ≡ some result }
{
    let x = form_layout::name_at(form, k);
    if x.kind != 0 {
        return 0;
    }
    form_names::character(form_layout::name_bytes(form, k))
}

// The codes of all name records.
pub fn codes(form: &[u8], out: &mut [u32])
    requires { GoodNames form.now × (name_count form.now ≤ length out.old) }
    ensures { WroteCodes form.now out.old out.new }
{
    let count = form_layout::name_count(form);
    for k in 0..count {
        out[k] = code(form, k);
    }
}

// A literal with a contract: the proofs of other crates cite it.
pub fn no_codes() -> [u32; 128]
    ensures { result ≡ replicate 128 0 }
{
    [0u32; 128]
}

// The same in a table of their own.
pub fn codes_of(form: &[u8]) -> [u32; 128]
    requires { GoodNames form.now }
    ensures { CodedNames form.now result }
{
    let mut words = [0u32; 128];
    codes(form, &mut words);
    words
}
