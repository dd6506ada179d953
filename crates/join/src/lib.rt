// Joining two graph files: the second's rows stand behind the first's, and the numbers in a row that point elsewhere are moved along.
// Nothing is written before both files and the joined counts are judged, and each table is passed once.
#![tactic(auto)]

ghost use Rattle.std.specs.Prelude.{◌≡◌, ◌+◌, ◌*◌, ◌^◌, ◌≤◌, ◌<◌, ◌++◌, length};
ghost use Rattle.little.specs.Little.{written};
ghost use Rattle.layout.specs.Files.{ceilings};
ghost use Rattle.writer.specs.GraphFile.{tables};
ghost use Rattle.parts.specs.Accepted.{Good};
ghost use Rattle.join.specs.Moved.{raised, moved_edge, moved_row};
ghost use Rattle.join.specs.Joined.{joined_numbers};
ghost use Rattle.join.specs.Joins.{Joins};
ghost use Rattle.join.specs.Inner.{width_of, changed, moved_table, offset_by, Room, RoomIn, node_rows_at, joined_at, RoomAt, told, outcome_of, ReadsBoth};

mod graphs;

use graphs::Graphs;
use layout::{File, Refusal, Sort, Trailer};
use parts::FileTables;
use writer::Outcome;

// The kind of a Text.
const TEXT: u8 = 5;

// One in the upper half of a word of eight bytes.
const UPPER: u64 = 0x1_0000_0000;

// What is moved in the rows of a table: the start of a run; both ends and the start of a run; the offset of a Text. An enum, since one loop puts all three: a
// trait of theirs would need a row's bytes, change and room as ghost members with laws, and say no more.
#[derive(Clone, Copy)]
pub enum Moving {
    Nodes(u32),
    Edges(u32, u32),
    Rows(u64),
}

// ---- rows

// The bytes of a row.
fn width_of(m: Moving) -> usize
    ensures { result ≡ width_of m }
{
    match m {
        Moving::Nodes(_) => formats::form_of(File::Graph, Sort::Nodes).width,
        Moving::Edges(_, _) => formats::form_of(File::Graph, Sort::Edges).width,
        Moving::Rows(_) => formats::row_width(File::Graph),
    }
}

// What is added to the value of a property row: a Text's is its offset.
fn offset_by(row: &[u8], text: u64) -> u64
    requires { 16 ≤ length row.now }
    ensures { result ≡ offset_by text row.now }
{
    if little::u8_at(row, 2) == TEXT {
        text
    } else {
        0
    }
}

// Puts a node row, an edge row or a property row at `at`, with what is moved in it; every other byte stays. A row is put in words of eight bytes: a run's
// start is the lower half of one, both ends are the two halves of another, and no sum carries.
fn put_node(out: &mut [u8], at: usize, row: &[u8], run: u32)
    requires { (length row.now ≡ 16) × (at + 16 ≤ length out.old) × Room (Moving.Nodes run) row.now }
    ensures { out.new ≡ written out.old at (raised 4 8 run row.now) }
{
    little::put_u64(out, at, little::u64_at(row, 0));
    little::put_u64(out, at + 8, little::u64_at(row, 8) + run as u64);
}

fn put_edge(out: &mut [u8], at: usize, row: &[u8], ends: u32, run: u32)
    requires { (length row.now ≡ 24) × (at + 24 ≤ length out.old) × Room (Moving.Edges ends run) row.now }
    ensures { out.new ≡ written out.old at (moved_edge ends run row.now) }
{
    let both = ends as u64 + UPPER * (ends as u64);
    little::put_u64(out, at, little::u64_at(row, 0));
    little::put_u64(out, at + 8, little::u64_at(row, 8) + both);
    little::put_u64(out, at + 16, little::u64_at(row, 16) + run as u64);
}

fn put_property(out: &mut [u8], at: usize, row: &[u8], text: u64)
    requires { (length row.now ≡ 16) × (at + 16 ≤ length out.old) × Room (Moving.Rows text) row.now }
    ensures { out.new ≡ written out.old at (moved_row text row.now) }
{
    let by = offset_by(row, text);
    little::put_u64(out, at, little::u64_at(row, 0));
    little::put_u64(out, at + 8, little::u64_at(row, 8) + by);
}

// Puts a row at `at`, with what is moved in it; every other byte stays.
fn put_row(out: &mut [u8], at: usize, row: &[u8], m: Moving)
    requires { (length row.now ≡ width_of m) × (at + width_of m ≤ length out.old) × Room m row.now }
    ensures { out.new ≡ written out.old at (changed m row.now) }
{
    match m {
        Moving::Nodes(run) => put_node(out, at, row, run),
        Moving::Edges(ends, run) => put_edge(out, at, row, ends, run),
        Moving::Rows(text) => put_property(out, at, row, text),
    }
}

// Puts a table of n rows at `at`, with what is moved in each; every other byte stays.
fn put_rows(out: &mut [u8], at: usize, table: &[u8], n: usize, m: Moving)
    requires { (length table.now ≡ width_of m * n) × (at + length table.now ≤ length out.old) × RoomIn m n table.now }
    ensures { out.new ≡ written out.old at (moved_table m n table.now) }
{
    let width = width_of(m);
    // by number, since a row's place in the output is needed beside its place in the table
    for i in 0..n {
        let from = width * i;
        put_row(out, at + from, &table[from..from + width], m);
    }
}

// ---- tables

// Puts bytes as they are, and behind them a table with what is moved in it; every other byte stays.
fn put_behind(out: &mut [u8], at: usize, first: &[u8], second: &[u8], n: usize, m: Moving)
    requires { (length second.now ≡ width_of m * n) × (at + length first.now + length second.now ≤ length out.old) × RoomIn m n second.now }
    ensures { out.new ≡ written out.old at (first.now ++ moved_table m n second.now) }
{
    writer::put_bytes(out, at, first);
    put_rows(out, at + first.len(), second, n, m);
}

// ---- the four tables of two accepted files

// How many property rows are the nodes': the first edge's run starts behind them.
fn node_rows(x: &FileTables<'_>) -> usize
    requires { Good File.Graph x.now }
    ensures { result ≡ node_rows_at x.now }
{
    if x.numbers.edges == 0 {
        x.numbers.rows
    } else {
        x.head(File::Graph, Sort::Edges, 0).first
    }
}

// The second's nodes after the first's: their runs stand behind those of the first's nodes.
fn put_nodes(out: &mut [u8], g: &Graphs<'_>)
    requires { length (joined_at g.now).nodes ≤ length out.old }
    ensures { out.new ≡ written out.old 0 (joined_at g.now).nodes }
{
    let run = node_rows(&g.first) as u32;
    let n = g.second.numbers.nodes;
    put_behind(
        out,
        0,
        g.first.bytes.nodes,
        g.second.bytes.nodes,
        n,
        Moving::Nodes(run),
    );
}

// The second's edges after the first's: the runs of the first's edges stand behind those of the second's nodes.
fn put_edges(out: &mut [u8], at: usize, g: &Graphs<'_>)
    requires { RoomAt at (joined_at g.now).edges out.old }
    ensures { out.new ≡ written out.old at (joined_at g.now).edges }
{
    let n = g.first.numbers;
    let a = g.first.bytes.edges;
    let nodes = node_rows(&g.second) as u32;
    put_rows(out, at, a, n.edges, Moving::Edges(0, nodes));
    let ends = n.nodes as u32;
    let run = n.rows as u32;
    put_rows(
        out,
        at + a.len(),
        g.second.bytes.edges,
        g.second.numbers.edges,
        Moving::Edges(ends, run),
    );
}

// The property rows in the order of the new rows: those of the first's nodes and of the second's nodes, and the rest, their edges'.
fn put_properties(out: &mut [u8], at: usize, g: &Graphs<'_>)
    requires { RoomAt at (joined_at g.now).rows out.old }
    ensures { out.new ≡ written out.old at (joined_at g.now).rows }
{
    let text = Moving::Rows(g.first.numbers.text as u64);
    let width = width_of(text);
    let p = node_rows(&g.first);
    let q = node_rows(&g.second);
    let (a, behind_a) = g.first.bytes.rows.split_at(width * p);
    let (b, behind_b) = g.second.bytes.rows.split_at(width * q);
    put_behind(out, at, a, b, q, text);
    let left = g.second.numbers.rows - q;
    put_behind(out, at + a.len() + b.len(), behind_a, behind_b, left, text);
}

// The second's text after the first's.
fn put_texts(out: &mut [u8], at: usize, g: &Graphs<'_>)
    requires { RoomAt at (joined_at g.now).text out.old }
    ensures { out.new ≡ written out.old at (joined_at g.now).text }
{
    let a = g.first.bytes.text;
    writer::put_bytes(out, at, a);
    writer::put_bytes(out, at + a.len(), g.second.bytes.text);
}

// Puts the joined tables one after another from the first byte on; every other byte stays.
fn put_tables(out: &mut [u8], g: &Graphs<'_>)
    requires { RoomAt 0 (tables (joined_at g.now)) out.old }
    ensures { out.new ≡ written out.old 0 (tables (joined_at g.now)) }
{
    let a = g.first.bytes;
    let b = g.second.bytes;
    let edges = a.nodes.len() + b.nodes.len();
    let rows = edges + a.edges.len() + b.edges.len();
    let text = rows + a.rows.len() + b.rows.len();
    put_nodes(out, g);
    put_edges(out, edges, g);
    put_properties(out, rows, g);
    put_texts(out, text, g);
}

// ---- the joiner

// Why two graphs are not joined: one of them is refused, a joined count is above its ceiling, or the output is too short.
#[derive(Clone, Copy)]
enum Unjoined {
    First(Refusal),
    Second(Refusal),
    Count,
    Short,
}

// What is returned then: the code of the graph that is refused and 0 or 1 for which, 44 and 0, or 42 and 0.
fn told(why: Unjoined) -> Outcome
    ensures { result ≡ told why }
{
    match why {
        Unjoined::First(r) => Outcome {
            code: formats::code_of(r.file, r.cause),
            number: 0,
        },
        Unjoined::Second(r) => Outcome {
            code: formats::code_of(r.file, r.cause),
            number: 1,
        },
        Unjoined::Count => Outcome {
            code: 44,
            number: 0,
        },
        Unjoined::Short => Outcome {
            code: 42,
            number: 0,
        },
    }
}

// The numbers of the joined file.
fn numbers_of(g: &Graphs<'_>) -> Trailer
    requires { g.now.first.numbers.back + g.now.second.numbers.back ≤ 2 * (ceilings File.Graph).file }
    ensures { result ≡ joined_numbers g.now.first.numbers g.now.second.numbers }
{
    let n = g.first.numbers;
    let m = g.second.numbers;
    Trailer {
        nodes: n.nodes + m.nodes,
        edges: n.edges + m.edges,
        rows: n.rows + m.rows,
        text: n.text + m.text,
        labels: n.labels.max(m.labels),
        names: n.names.max(m.names),
        back: n.back + m.back,
    }
}

// Both graphs, accepted, or which of them is refused: the first, else the second.
fn read_both<'a>(first: &'a [u8], second: &'a [u8]) -> Result<Graphs<'a>, Unjoined>
    ensures { ReadsBoth result first.now second.now }
{
    let a = reader::read_tables(File::Graph, first).map_err(Unjoined::First)?;
    let b = reader::read_tables(File::Graph, second).map_err(Unjoined::Second)?;
    Ok(Graphs::new(a, b))
}

// Writes the joined file: its length, or why it is not written.
fn write_joined(first: &[u8], second: &[u8], out: &mut [u8]) -> Result<u32, Unjoined>
    ensures { Joins first.now second.now out.old (outcome_of result) out.new }
{
    let g = read_both(first, second)?;
    let n = numbers_of(&g);
    let most = formats::ceilings_of(File::Graph);
    if !reader::held(most, n) {
        return Err(Unjoined::Count);
    }
    let size = n.back + formats::trailer_size(File::Graph);
    if out.len() < size {
        return Err(Unjoined::Short);
    }
    put_tables(out, &g);
    writer::put_trailer(out, n.back, n);
    Ok(size as u32)
}

// Joins two graph files: 0 and the length written, a refusal of one of them with 0 or 1 for which, 44 and 0, or 42 and 0.
pub fn join_graphs(first: &[u8], second: &[u8], out: &mut [u8]) -> Outcome
    ensures { Joins first.now second.now out.old result out.new }
{
    match write_joined(first, second, out) {
        Ok(number) => Outcome { code: 0, number },
        Err(why) => told(why),
    }
}
