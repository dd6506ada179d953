// Writing a graph file: lent tables are judged where they lie, and put one after another with their trailer behind them.
#![tactic(auto)]

ghost use Rattle.std.specs.Prelude.{◌≡◌, ◌+◌, ◌≤◌, length};
ghost use Rattle.little.specs.Little.{written};
ghost use Rattle.little.specs.Promise.{Says};
ghost use Rattle.layout.specs.Files.{ceilings, body_in};
ghost use Rattle.layout.specs.Refusals.{Held};
ghost use Rattle.writer.specs.GraphFile.{tables, counted, counts, trailer};
ghost use Rattle.writer.specs.Writes.{Whole, Writes};
ghost use Rattle.writer.specs.Told.{Tells};

use layout::{File, TableBytes, Trailer};

// What a tool with an output returns: 0 and the length written, or a refusal and 0. C has this struct.
#[repr(C)]
#[derive(Clone, Copy)]
pub struct Outcome {
    pub code: u32,
    pub number: u32,
}

// ---- whether the tables can be written

// Whether each table is whole rows.
fn whole(t: TableBytes<'_>) -> bool
    ensures { Says result (Whole (body_in t.entry)) }
{
    t.nodes.len() % 16 == 0 && t.edges.len() % 24 == 0 && t.rows.len() % 16 == 0
}

// The numbers that the tables give, but for back.
fn numbers_of(t: TableBytes<'_>, labels: u32, names: u32) -> Trailer
    ensures { result ≡ counted (body_in t.entry) labels names 0 }
{
    Trailer {
        nodes: t.nodes.len() / 16,
        edges: t.edges.len() / 24,
        rows: t.rows.len() / 16,
        text: t.text.len(),
        labels: labels as usize,
        names: names as usize,
        back: 0,
    }
}

// The numbers of tables that can be written. The counts are held first, so that the sum of the lengths is small.
fn judge(t: TableBytes<'_>, labels: u32, names: u32) -> Option<Trailer>
    ensures { Tells result (body_in t.entry) labels names }
{
    let most = formats::ceilings_of(File::Graph);
    let mut n = numbers_of(t, labels, names);
    if !whole(t) || !reader::held(most, n) {
        return None;
    }
    n.back = t.nodes.len() + t.edges.len() + t.rows.len() + t.text.len();
    match tables::try_rows(File::Graph, n, t) {
        Ok(()) => Some(n),
        Err(_) => None,
    }
}

// ---- the file

// Puts bytes at `at`; every other byte stays. The loop is compiled to a call of memcpy; the library's `copy_from_slice` calls memmove, and the header says that
// nothing but memcpy and memset is needed of C.
pub fn put_bytes(out: &mut [u8], at: usize, bytes: &[u8])
    requires { at + length bytes.now ≤ length out.old }
    ensures { out.new ≡ written out.old at bytes.now }
{
    for i in 0..bytes.len() {
        out[at + i] = bytes[i];
    }
}

// Puts the four counts at `at`; every other byte stays.
fn put_counts(out: &mut [u8], at: usize, n: Trailer)
    requires { (Held (ceilings File.Graph) n) × (at + 16 ≤ length out.old) }
    ensures { out.new ≡ written out.old at (counts n) }
{
    little::put_u32(out, at, n.nodes as u32);
    little::put_u32(out, at + 4, n.edges as u32);
    little::put_u32(out, at + 8, n.rows as u32);
    little::put_u32(out, at + 12, n.text as u32);
}

// Puts the trailer at `at`, the mark as one number; every other byte stays.
pub fn put_trailer(out: &mut [u8], at: usize, n: Trailer)
    requires { (Held (ceilings File.Graph) n) × (n.back ≤ (ceilings File.Graph).file) × (at + 28 ≤ length out.old) }
    ensures { out.new ≡ written out.old at (trailer n) }
{
    put_counts(out, at, n);
    little::put_u16(out, at + 16, n.labels as u16);
    little::put_u16(out, at + 18, n.names as u16);
    little::put_u32(out, at + 20, n.back as u32);
    little::put_u32(out, at + 24, 0x31485047);
}

// Puts the tables one after another from the first byte on; every other byte stays.
fn put_tables(out: &mut [u8], t: TableBytes<'_>)
    requires { length t.nodes.now + length t.edges.now + length t.rows.now + length t.text.now ≤ length out.old }
    ensures { out.new ≡ written out.old 0 (tables (body_in t.entry)) }
{
    put_bytes(out, 0, t.nodes);
    put_bytes(out, t.nodes.len(), t.edges);
    put_bytes(out, t.nodes.len() + t.edges.len(), t.rows);
    put_bytes(out, t.nodes.len() + t.edges.len() + t.rows.len(), t.text);
}

// ---- the writer

// Writes the file of tables that are known to be good, with their numbers, where the output has room for it: nothing is judged again.
pub fn put_file(n: Trailer, t: TableBytes<'_>, out: &mut [u8]) -> Outcome
    requires { Tells (Some n) (body_in t) n.labels n.names }
    ensures { Writes (body_in t.entry) n.labels n.names out.old result out.new }
{
    let size = n.back + 28;
    if out.len() < size {
        return Outcome {
            code: 42,
            number: 0,
        };
    }
    put_tables(out, t);
    put_trailer(out, n.back, n);
    Outcome {
        code: 0,
        number: size as u32,
    }
}

// Writes the graph file that the lent tables are: 0 and its length, or a refusal and 0.
pub fn write_graph(t: TableBytes<'_>, labels: u32, names: u32, out: &mut [u8]) -> Outcome
    ensures { Writes (body_in t.entry) labels names out.old result out.new }
{
    match judge(t, labels, names) {
        Some(n) => put_file(n, t, out),
        None => Outcome {
            code: 41,
            number: 0,
        },
    }
}
