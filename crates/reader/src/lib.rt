// Reading a graph file or a schema file: the refusal that it is owed, or its tables. Both files are read by the same functions.
#![tactic(auto)]

ghost use Rattle.std.specs.Prelude.{◌≡◌, ◌≤◌, length};
ghost use Rattle.little.specs.Promise.{Says};
ghost use Rattle.layout.specs.Files.{trailer_size, numbers, starts, ceilings};
ghost use Rattle.layout.specs.Refusals.{Marked, Held, Located};
ghost use Rattle.layout.specs.Promise.{Reads};
ghost use Rattle.reader.specs.Inner.{SizesOf, Opens};

mod pair;

use layout::{Ceilings, File, Refused, Sort, Starts, Tables, Trailer};
pub use pair::{read_pair, read_tables};

// The bytes of each table.
#[derive(Clone, Copy)]
pub struct Sizes {
    pub nodes: usize,
    pub edges: usize,
    pub rows: usize,
    pub text: usize,
}

// ---- the trailer

// Whether the last four bytes are the mark.
fn marked(file: File, bytes: &[u8]) -> bool
    ensures { Says result (Marked file bytes.now) }
{
    match file {
        File::Graph => bytes.ends_with(&[0x47, 0x50, 0x48, 0x31]),
        File::Schema => bytes.ends_with(&[0x53, 0x43, 0x48, 0x31]),
    }
}

// The numbers of a trailer.
fn numbers_of(file: File, t: &[u8]) -> Trailer
    requires { trailer_size file ≤ length t.now }
    ensures { result ≡ numbers file t.now }
{
    match file {
        File::Graph => Trailer {
            nodes: little::u32_at(t, 0) as usize,
            edges: little::u32_at(t, 4) as usize,
            rows: little::u32_at(t, 8) as usize,
            text: little::u32_at(t, 12) as usize,
            labels: little::u16_at(t, 16) as usize,
            names: little::u16_at(t, 18) as usize,
            back: little::u32_at(t, 20) as usize,
        },
        File::Schema => Trailer {
            nodes: little::u16_at(t, 0) as usize,
            edges: little::u16_at(t, 2) as usize,
            rows: little::u32_at(t, 4) as usize,
            text: 0,
            labels: little::u16_at(t, 8) as usize,
            names: little::u16_at(t, 10) as usize,
            back: little::u32_at(t, 12) as usize,
        },
    }
}

// Whether no number of the trailer is above its ceiling.
pub fn held(c: Ceilings, n: Trailer) -> bool
    ensures { Says result (Held c n) }
{
    n.nodes <= c.nodes
        && n.edges <= c.edges
        && n.rows <= c.rows
        && n.text <= c.text
        && n.labels <= c.labels
        && n.names <= c.names
}

// The bytes that the counts give each table.
fn sizes_of(file: File, n: Trailer) -> Sizes
    requires { Held (ceilings file) n }
    ensures { SizesOf file n result }
{
    Sizes {
        nodes: formats::form_of(file, Sort::Nodes).width * n.nodes,
        edges: formats::form_of(file, Sort::Edges).width * n.edges,
        rows: formats::row_width(file) * n.rows,
        text: n.text,
    }
}

// Where the tables start, from the body's first byte on.
fn starts_of(file: File, n: Trailer, body: usize) -> Starts
    requires { (Held (ceilings file) n) × (body ≤ 4294967295) }
    ensures { result ≡ starts file n body }
{
    let z = sizes_of(file, n);
    let edges = body + z.nodes;
    let rows = edges + z.edges;
    let text = rows + z.rows;
    Starts {
        nodes: body,
        edges,
        rows,
        text,
        end: text + z.text,
    }
}

// Whether back is the body size, and not more than the bytes before the trailer.
fn located(file: File, n: Trailer, bytes: usize) -> bool
    requires { Held (ceilings file) n }
    ensures { Says result (Located file n bytes) }
{
    n.back == starts_of(file, n, 0).end && n.back <= bytes
}

// ---- a file

// The tables, where 2 to 5, or 9 to 12, do not refuse the file.
fn open(file: File, bytes: &[u8]) -> Result<Tables, Refused>
    ensures { Opens result file bytes.now }
{
    let size = formats::trailer_size(file);
    let most = formats::ceilings_of(file);
    if bytes.len() < size || most.file < bytes.len() {
        return Err(Refused::Length);
    }
    if !marked(file, bytes) {
        return Err(Refused::Mark);
    }
    let before = bytes.len() - size;
    let n = numbers_of(file, &bytes[before..]);
    if !held(most, n) {
        return Err(Refused::Count);
    }
    if !located(file, n, before) {
        return Err(Refused::Back);
    }
    Ok(Tables {
        numbers: n,
        starts: starts_of(file, n, before - n.back),
    })
}

// The refusal that a file is owed, or its tables.
pub fn read_file(file: File, bytes: &[u8]) -> Result<Tables, Refused>
    ensures { Reads result file (ceilings file) bytes.now }
{
    let t = open(file, bytes)?;
    tables::try_rows(file, t.numbers, formats::table_bytes(bytes, t.starts))?;
    Ok(t)
}
