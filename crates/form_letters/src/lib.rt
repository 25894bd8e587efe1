// The letters that splitting looks up: the short names of a form's flags and of its arguments.
#![tactic(auto)]

ghost use Rattle.std.specs.Prelude.{◌≡◌, true, List, ◌∷◌, [], ◌++◌, ◌+◌, ◌≤◌, ◌<◌, min, length, replicate};
ghost use Rattle.rules.specs.Form.{Node as RulesNode, name_count, read_form};
ghost use Rattle.rules.specs.Accept.{length_good};
ghost use Rattle.form_layout.specs.Layout.{node_of, GoodNames};
ghost use Rattle.form_codes.specs.Codes.{CodedNames};
ghost use Rattle.form_letters.specs.Letters.{WroteLetters, letter_if, Appended};
ghost use Rattle.form_letters.specs.Classes.{Classed, MarkedBits};

use form_layout::Kind;

// How many letters the flags and the arguments have.
#[derive(Clone, Copy)]
pub struct Counts {
    pub flags: usize,
    pub arguments: usize,
}

// Where the records of a node end; those from `count` on do not exist.
pub fn names_end(first: usize, size: usize, count: usize) -> usize
    ensures { result ≡ min (first + size) count }
{
    first.saturating_add(size).min(count)
}

// The records from `first` on, below `end`, get a bit.
fn mark(classes: &mut [u8; 128], bit: u8, first: usize, end: usize)
    requires { (end ≤ 128) × (length classes.old ≡ 128) }
    ensures { MarkedBits bit first end classes.old classes.new }
{
    for k in first..end {
        classes[k] |= bit;
    }
}

// A flag or an argument marks its names.
fn mark_node(x: form_layout::Node, count: usize, classes: &mut [u8; 128])
    requires { (count ≤ 128) × (length classes.old ≡ 128) }
    ensures { (xs : List RulesNode) → Classed xs count classes.old → Classed (xs ++ (node_of x ∷ [])) count classes.new }
{
    let bit = match x.kind {
        Kind::Flag => 1,
        Kind::Argument => 2,
        _ => return,
    };
    mark(classes, bit, x.p, names_end(x.p, x.q, count));
}

// The classes of all name records, in one pass over the nodes: bit 1 if a flag has it among its names, bit 2 if an argument has.
fn mark_nodes(form: &[u8], count: usize, classes: &mut [u8; 128])
    requires { (length_good form.now ≡ true) × (count ≡ name_count form.now) × (classes.old ≡ replicate 128 0) }
    ensures { Classed (read_form form.now).nodes count classes.new }
{
    let n = form_layout::node_count(form);
    for i in 0..n {
        mark_node(form_layout::node_at(form, i), count, classes);
    }
}

// The letter of a code, if there is one and it is wanted, goes behind the n that are there.
fn append(out: &mut [u32; 128], n: usize, wanted: bool, code: u32) -> usize
    requires { n < 128 }
    ensures { Appended out.old n (letter_if wanted code) out.new result }
{
    if !wanted || code == 0 {
        return n;
    }
    out[n] = code - 1;
    n + 1
}

// The letters go to the start of `flags` and of `arguments`, in the order of the name records.
pub fn letters(
    form: &[u8],
    codes: &[u32],
    flags: &mut [u32; 128],
    arguments: &mut [u32; 128],
) -> Counts
    requires { GoodNames form.now × CodedNames form.now codes.now }
    ensures flags { WroteLetters form.now 1 flags.old flags.new result.flags }
    ensures arguments { WroteLetters form.now 2 arguments.old arguments.new result.arguments }
{
    let count = form_layout::name_count(form);
    let mut classes = [0u8; 128];
    mark_nodes(form, count, &mut classes);
    let mut flag_count = 0;
    let mut argument_count = 0;
    for k in 0..count {
        let class = classes[k];
        let code = codes[k];
        flag_count = append(flags, flag_count, class & 1 != 0, code);
        argument_count = append(arguments, argument_count, class & 2 != 0, code);
    }
    Counts {
        flags: flag_count,
        arguments: argument_count,
    }
}
