// Two forms made one: the first's fields, nodes, names and area, each with the second's behind it, whose numbers move up.
#![tactic(auto)]

ghost use Rattle.std.specs.Prelude.{◌≡◌, true, List, [], ◌∷◌, ◌++◌, ℕ, ◌+◌, ◌*◌, ◌≤◌, ◌<◌, ◌^◌, length};
ghost use Rattle.std.proofs.Math.Option.{some};
ghost use Rattle.std.proofs.Math.ListN.{get_elem?};
ghost use Rattle.std.proofs.lemmas.List.Edits.{sets};
ghost use Rattle.rules.specs.Form.{field_count, node_count, name_count, read_form};
ghost use Rattle.rules.specs.Accept.{length_good};
ghost use Rattle.rules.specs.Reported.{number_of, place_told};
ghost use Rattle.rules.specs.Encode.{words_of, encode_node, encode_name};
ghost use Rattle.rules_join.specs.Join.{Moves as Shift, moves_behind, move_p, move_q, join};
ghost use Rattle.form_names.specs.Names.{name_of};
ghost use Rattle.form_layout.specs.Kinds.{kind_number};
ghost use Rattle.form_layout.specs.Layout.{node_of};
ghost use Rattle.form_join.specs.Moved.{moves_of, SmallMoves, MovesPast, CanMoveNode, CanMoveName, CanMoveField, NodeWithin, FormPasses, moved_fields, nowhere, IsText, NodeThere, NameThere};
ghost use Rattle.form_join.specs.Written.{WritesPart, CanPutNode, CanPutName, CanWritePart, CanJoin, CanJoinAt, CanJoinPart, WritesBoth, BothGood, counts_of, fitting, CanPutCounts, count_bytes, joined_area, joined_head, joined_tail, joined_bytes};
ghost use Rattle.form_join.specs.Records.{joined_up, Sized, CanPutMoved, PutsRecord, field_bytes, node_bytes, name_bytes};
ghost use Rattle.form_join.specs.Sizes.{fields_sized, nodes_sized, names_sized};
ghost use Rattle.form_join.specs.Answers.{ReportsJoin, Refuses, Fills, BothPass};

use form_layout::Kind;
use rules::{Refusal, Refused, RefusedAt};

// The most nodes, fields, name records and bytes of their area that a form has, and the bytes of the longest form.
const NODES: usize = 64;

const FIELDS: usize = 16;

const NAMES: usize = 128;

const AREA: usize = 4096;

const LONGEST: usize = 5928;

// A value that is a text, by the number of its kind.
const TEXT: u32 = 2;

// A place is itself plus 1, or 0 for none. `form` is the form at fault, 1 or 2, or 0. Refused, the length is 0.
#[repr(C)]
#[derive(Clone, Copy)]
pub struct Joined {
    pub number: u32,
    pub place: u32,
    pub length: u32,
    pub form: u32,
}

// How far a form's numbers move up.
#[derive(Clone, Copy)]
struct Moves {
    nodes: usize,
    names: usize,
    area: usize,
}

// The counts of a form.
#[derive(Clone, Copy)]
struct Counts {
    nodes: usize,
    fields: usize,
    names: usize,
    area: usize,
}

impl Moves {
    // The first's numbers stay.
    fn none() -> Moves
        ensures { result ≡ record { nodes = 0; names = 0; area = 0 } }
    {
        Moves {
            nodes: 0,
            names: 0,
            area: 0,
        }
    }

    // The second's move behind the first's.
    fn past(b: &[u8]) -> Moves
        requires { length_good b.now ≡ true }
        ensures { MovesPast b.now result }
    {
        Moves {
            nodes: form_layout::node_count(b),
            names: form_layout::name_count(b),
            area: form_layout::area_length(b),
        }
    }
}

// ---- what is moved

// p is a name of a flag or an argument, says which words a positional takes, and else is a child.
fn moved_p(x: form_layout::Node, d: Moves) -> usize
    requires { NodeWithin 128 (node_of x) × SmallMoves d }
    ensures { result ≡ move_p (moves_of d) (node_of x) }
{
    match x.kind {
        Kind::Zero | Kind::Flag | Kind::Argument => d.names + x.p,
        Kind::Positional => x.p,
        _ => d.nodes + x.p,
    }
}

// q is a child of a choice alone.
fn moved_q(x: form_layout::Node, d: Moves) -> usize
    requires { NodeWithin 128 (node_of x) × SmallMoves d }
    ensures { result ≡ move_q (moves_of d) (node_of x) }
{
    match x.kind {
        Kind::Choice => d.nodes + x.q,
        _ => x.q,
    }
}

// Whether r of node k is a name, which it is of a fallback to a text.
fn has_text(b: &[u8], k: usize, x: form_layout::Node) -> bool
    requires { CanMoveNode b.now k }
    ensures { IsText b.now k (kind_number x.kind) result }
{
    x.kind == Kind::Fallback && form_fields::kind(b, k) == TEXT
}

fn moved_node(b: &[u8], k: usize, d: Moves) -> form_layout::Node
    requires { CanMoveNode b.now k × SmallMoves d }
    ensures { NodeThere (moves_of d) b.now k result }
{
    let x = form_layout::node_at(b, k);
    let p = moved_p(x, d);
    let q = moved_q(x, d);
    let r = if has_text(b, k, x) {
        d.names + x.r
    } else {
        x.r
    };
    form_layout::Node {
        kind: x.kind,
        p: p,
        q: q,
        r: r,
        lo: x.lo,
        hi: x.hi,
    }
}

fn moved_name(b: &[u8], k: usize, d: Moves) -> form_names::Name
    requires { CanMoveName b.now k × SmallMoves d }
    ensures { NameThere (moves_of d) b.now k result }
{
    let x = form_layout::name_at(b, k);
    form_names::Name {
        kind: x.kind,
        offset: d.area + x.offset,
        size: x.size,
    }
}

fn moved_field(b: &[u8], k: usize, d: Moves) -> u32
    requires { CanMoveField b.now k × SmallMoves d }
    ensures { get_elem? (moved_fields (moves_of d) b.now) k ≡ some result }
{
    let n = d.nodes + form_layout::field_at(b, k);
    n as u32
}

// ---- what is written

// Four numbers of two bytes.
fn put_words(out: &mut [u8], at: usize, a: u32, b: u32, c: u32, d: u32)
    requires { at + 8 ≤ length out.old }
    ensures { out.new ≡ sets out.old at (words_of 2 (a ∷ b ∷ c ∷ d ∷ [])) }
{
    wire_write::put_u16(out, at, a);
    wire_write::put_u16(out, at + 2, b);
    wire_write::put_u16(out, at + 4, c);
    wire_write::put_u16(out, at + 6, d);
}

fn put_node(out: &mut [u8], at: usize, x: form_layout::Node)
    requires { CanPutNode out.old at x }
    ensures { out.new ≡ sets out.old at (encode_node (node_of x)) }
{
    put_words(out, at, x.kind.number(), x.p as u32, x.q as u32, x.r as u32);
    wire_write::put_u32(out, at + 8, x.lo);
    wire_write::put_u32(out, at + 12, x.hi);
}

fn put_name(out: &mut [u8], at: usize, x: form_names::Name)
    requires { CanPutName out.old at x }
    ensures { out.new ≡ sets out.old at (encode_name (name_of x)) }
{
    wire_write::put_u16(out, at, x.kind);
    wire_write::put_u16(out, at + 2, x.offset as u32);
    wire_write::put_u16(out, at + 4, x.size as u32);
}

// The records of one kind: how many a form has, and each by its bytes, with its numbers moved.
trait Record {
    ghost SIZE: { ℕ };

    ghost many: { List ℕ → ℕ };

    ghost moved: { Shift → List ℕ → List (List ℕ) };

    // The bytes of each.
    const SIZE: usize;

    fn count(b: &[u8]) -> usize
        requires { length_good b.now ≡ true }
        ensures { result ≡ many b.now };

    // Record k goes to `at`.
    fn put_moved(out: &mut [u8], at: usize, b: &[u8], k: usize, d: Moves)
        requires { CanPutMoved (length out.old) at SIZE (many b.now) k b.now d }
        ensures { PutsRecord (moved (moves_of d) b.now) k out.old at out.new };

    ghost sized: { (d : Shift) (b : List ℕ) → FormPasses b → Sized SIZE (many b) (moved d b) };
}

struct Fields;

impl Record for Fields {
    ghost SIZE = { 2 };

    ghost many = { field_count };

    ghost moved = { field_bytes };

    ghost sized = { fields_sized };

    const SIZE: usize = 2;

    fn count(b: &[u8]) -> usize {
        form_layout::field_count(b)
    }

    fn put_moved(out: &mut [u8], at: usize, b: &[u8], k: usize, d: Moves) {
        wire_write::put_u16(out, at, moved_field(b, k, d));
    }
}

struct Nodes;

impl Record for Nodes {
    ghost SIZE = { 16 };

    ghost many = { node_count };

    ghost moved = { node_bytes };

    ghost sized = { nodes_sized };

    const SIZE: usize = 16;

    fn count(b: &[u8]) -> usize {
        form_layout::node_count(b)
    }

    fn put_moved(out: &mut [u8], at: usize, b: &[u8], k: usize, d: Moves) {
        put_node(out, at, moved_node(b, k, d));
    }
}

struct Names;

impl Record for Names {
    ghost SIZE = { 6 };

    ghost many = { name_count };

    ghost moved = { name_bytes };

    ghost sized = { names_sized };

    const SIZE: usize = 6;

    fn count(b: &[u8]) -> usize {
        form_layout::name_count(b)
    }

    fn put_moved(out: &mut [u8], at: usize, b: &[u8], k: usize, d: Moves) {
        put_name(out, at, moved_name(b, k, d));
    }
}

// A form's records of one kind, moved, from `at` on; where they end.
fn write_records<R: Record>(out: &mut [u8], at: usize, b: &[u8], d: Moves) -> usize
    requires { CanWritePart (length out.old) at (R.SIZE * R.many b.now) b.now d }
    ensures { WritesPart out.old at (joined_up (R.moved (moves_of d) b.now)) result out.new }
{
    let count = R::count(b);
    for k in 0..count {
        R::put_moved(out, at + R::SIZE * k, b, k, d);
    }
    at + R::SIZE * count
}

fn write_area(out: &mut [u8], at: usize, b: &[u8]) -> usize
    requires { (length_good b.now ≡ true) × (at ≤ 5928) }
    ensures { WritesPart out.old at (read_form b.now).area result out.new }
{
    let start = form_layout::area_at(b);
    wire::copy(out, at, &b[start..]);
    at + form_layout::area_length(b)
}

// ---- both forms, part by part

// Four sums: an `Add` for `Counts`, with its ghost members, would be there for this one use.
fn counts_both(first: &[u8], second: &[u8]) -> Counts
    requires { BothGood first.now second.now }
    ensures { result ≡ counts_of first.now second.now }
{
    let nodes = form_layout::node_count(first) + form_layout::node_count(second);
    let fields = form_layout::field_count(first) + form_layout::field_count(second);
    let names = form_layout::name_count(first) + form_layout::name_count(second);
    let area = form_layout::area_length(first) + form_layout::area_length(second);
    Counts {
        nodes: nodes,
        fields: fields,
        names: names,
        area: area,
    }
}

// Whether counts pass no limit and the output has room for the longest form.
fn fits(c: Counts, size: usize) -> bool
    ensures { result ≡ fitting c size }
{
    c.nodes <= NODES && c.fields <= FIELDS && c.names <= NAMES && c.area <= AREA && LONGEST <= size
}

fn write_counts(out: &mut [u8], c: Counts)
    requires { CanPutCounts (length out.old) c }
    ensures { out.new ≡ sets out.old 0 (count_bytes c) }
{
    put_words(
        out,
        0,
        c.nodes as u32,
        c.fields as u32,
        c.names as u32,
        c.area as u32,
    );
}

// The first's records of one kind, then the second's, moved behind them.
fn join_records<R: Record>(out: &mut [u8], at: usize, first: &[u8], second: &[u8]) -> usize
    requires { CanJoinPart (length out.old) at (R.SIZE * R.many first.now + R.SIZE * R.many second.now) first.now second.now }
    ensures { WritesPart out.old at (joined_up (R.moved nowhere first.now ++ R.moved (moves_behind (read_form first.now)) second.now)) result out.new }
{
    let middle = write_records::<R>(out, at, first, Moves::none());
    write_records::<R>(out, middle, second, Moves::past(first))
}

// Not a kind of record: an area has no numbers that move, and is copied whole.
fn join_areas(out: &mut [u8], at: usize, first: &[u8], second: &[u8]) -> usize
    requires { CanJoinAt 1832 first.now second.now (length out.old) at }
    ensures { WritesBoth 5928 out.old at (joined_area first.now second.now) result out.new }
{
    let middle = write_area(out, at, first);
    write_area(out, middle, second)
}

// The counts and the fields, from the start on.
fn write_head(out: &mut [u8], first: &[u8], second: &[u8]) -> usize
    requires { CanJoin first.now second.now (length out.old) }
    ensures { WritesBoth 40 out.old 0 (joined_head first.now second.now) result out.new }
{
    let c = counts_both(first, second);
    write_counts(out, c);
    join_records::<Fields>(out, 8, first, second)
}

// The names and the area.
fn write_tail(out: &mut [u8], at: usize, first: &[u8], second: &[u8]) -> usize
    requires { CanJoinAt 1064 first.now second.now (length out.old) at }
    ensures { WritesBoth 5928 out.old at (joined_tail first.now second.now) result out.new }
{
    let area = join_records::<Names>(out, at, first, second);
    join_areas(out, area, first, second)
}

// The joined form, from the start on; its length.
fn write_form(out: &mut [u8], first: &[u8], second: &[u8]) -> usize
    requires { CanJoin first.now second.now (length out.old) }
    ensures { WritesBoth 5928 out.old 0 (joined_bytes first.now second.now) result out.new }
{
    let nodes = write_head(out, first, second);
    let names = join_records::<Nodes>(out, nodes, first, second);
    write_tail(out, names, first, second)
}

// ---- what is answered

fn refuse(out: &mut [u8], e: RefusedAt, form: u32) -> Joined
    requires { place_told e.place < 2 ^ 32 }
    ensures { Refuses (number_of e.refusal) (place_told e.place) form (length out.old) result out.new }
{
    wire_write::clear_from(out, 0);
    let Refused { number, place } = e.told();
    Joined {
        number,
        place,
        length: 0,
        form,
    }
}

// The joined form over zeros.
fn write_joined(out: &mut [u8], first: &[u8], second: &[u8]) -> Joined
    requires { CanJoin first.now second.now (length out.old) }
    ensures { Fills (length out.old) (joined_bytes first.now second.now) result out.new }
{
    wire_write::clear_from(out, 0);
    let length = write_form(out, first, second);
    Joined {
        number: 0,
        place: 0,
        length: length as u32,
        form: 0,
    }
}

// The join of two accepted forms. Too large is past a limit, or longer than the output.
fn join_accepted(first: &[u8], second: &[u8], out: &mut [u8]) -> Joined
    requires { BothPass first.now second.now }
    ensures { ReportsJoin (join first.now second.now (length out.old)) result out.new }
{
    let c = counts_both(first, second);
    if fits(c, out.len()) {
        return write_joined(out, first, second);
    }
    refuse(out, RefusedAt::from(Refusal::TooLarge), 0)
}

// The joined form, and zeros to the output's end. Refused, the whole output is 0.
pub fn join(first: &[u8], second: &[u8], out: &mut [u8]) -> Joined
    ensures { ReportsJoin (join first.now second.now (length out.old)) result out.new }
{
    if let Err(e) = form_check::check(first) {
        return refuse(out, e, 1);
    }
    if let Err(e) = form_check::check(second) {
        return refuse(out, e, 2);
    }
    join_accepted(first, second, out)
}
