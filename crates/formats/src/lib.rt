// The numbers that 01 gives each file and each table, as functions, and the heads of node and edge rows.
#![tactic(auto)]

ghost use Rattle.std.specs.Prelude.{◌≡◌, ◌⊎◌, ◌+◌, ◌*◌, ◌≤◌, length};
ghost use Rattle.little.specs.Little.{little};
ghost use Rattle.layout.specs.Files.{either, of, form, row_width, trailer_size, ceilings, Ordered, body_in, body_at};
ghost use Rattle.layout.specs.Codes.{code_of, place_of};
ghost use Rattle.layout.specs.Runs.{head_at};
ghost use Rattle.formats.specs.Inside.{Inside};

use layout::{
    Ceilings, File, Form, Head, MOST_EDGES, MOST_NODES, MOST_SCHEMA_EDGES, Refused, Sort, Starts,
    TableBytes,
};

// The code that 01 gives a graph file, or the one that it gives a schema file.
pub fn code(file: File, graph: u32, schema: u32) -> u32
    ensures { result ≡ either file graph schema }
{
    match file {
        File::Graph => graph,
        File::Schema => schema,
    }
}

// The code of a refusal.
pub fn code_of(file: File, r: Refused) -> u32
    ensures { result ≡ code_of file r }
{
    match r {
        Refused::Length => code(file, 2, 9),
        Refused::Mark => code(file, 3, 10),
        Refused::Count => code(file, 4, 11),
        Refused::Back => code(file, 5, 12),
        Refused::Node(_) => code(file, 6, 13),
        Refused::Edge(_) => code(file, 7, 14),
        Refused::Row(_) => code(file, 8, 15),
    }
}

// The place of a refusal: a bad row's, else 0.
pub fn place_of(r: Refused) -> u32
    ensures { result ≡ place_of r }
{
    match r {
        Refused::Node(i) => i,
        Refused::Edge(e) => e,
        Refused::Row(r) => r,
        _ => 0,
    }
}

// How the rows of a table lie.
pub fn form_of(file: File, sort: Sort) -> Form
    ensures { (result ≡ form file sort) × Inside result }
{
    match file {
        File::Graph => match sort {
            Sort::Nodes => Form {
                width: 16,
                run: 8,
                counted: 4,
            },
            Sort::Edges => Form {
                width: 24,
                run: 16,
                counted: 4,
            },
        },
        File::Schema => match sort {
            Sort::Nodes => Form {
                width: 16,
                run: 8,
                counted: 2,
            },
            Sort::Edges => Form {
                width: 40,
                run: 16,
                counted: 2,
            },
        },
    }
}

pub fn trailer_size(file: File) -> usize
    ensures { (result ≡ trailer_size file) × (4 ≤ result) × (result ≤ 28) }
{
    match file {
        File::Graph => 28,
        File::Schema => 20,
    }
}

pub fn row_width(file: File) -> usize
    ensures { (result ≡ row_width file) × (result ≤ 16) }
{
    match file {
        File::Graph => 16,
        File::Schema => 4,
    }
}

pub fn ceilings_of(file: File) -> Ceilings
    ensures { result ≡ ceilings file }
{
    match file {
        File::Graph => Ceilings {
            file: 1048576,
            nodes: MOST_NODES,
            edges: MOST_EDGES,
            rows: 16384,
            text: 262144,
            labels: 64,
            names: 256,
        },
        File::Schema => Ceilings {
            file: 16384,
            nodes: 32,
            edges: MOST_SCHEMA_EDGES,
            rows: 1024,
            text: 0,
            labels: 64,
            names: 256,
        },
    }
}

// The bytes of the tables that start there.
pub fn table_bytes(bytes: &[u8], s: Starts) -> TableBytes<'_>
    requires { Ordered s (length bytes.now) }
    ensures { body_in result ≡ body_at bytes.now s }
{
    TableBytes {
        nodes: &bytes[s.nodes..s.edges],
        edges: &bytes[s.edges..s.rows],
        rows: &bytes[s.rows..s.text],
        text: &bytes[s.text..s.end],
    }
}

// A number of two or of four bytes.
fn count_at(table: &[u8], at: usize, bytes: usize) -> usize
    requires { ((bytes ≡ 2) ⊎ (bytes ≡ 4)) × (at + bytes ≤ length table.now) }
    ensures { result ≡ little bytes table.now at }
{
    if bytes == 2 {
        return little::u16_at(table, at) as usize;
    }
    little::u32_at(table, at) as usize
}

// The label set and the run of row i.
pub fn head_at(table: &[u8], m: Form, i: usize) -> Head
    requires { (Inside m) × (m.width * i + m.width ≤ length table.now) }
    ensures { result ≡ head_at m table.now i }
{
    let at = m.width * i;
    let run = at + m.run;
    Head {
        labels: little::u64_at(table, at),
        first: little::u32_at(table, run) as usize,
        count: count_at(table, run + 4, m.counted),
    }
}

// The head of row i of the nodes or the edges.
pub fn head(file: File, sort: Sort, t: TableBytes<'_>, i: usize) -> Head
    requires { (form file sort).width * i + (form file sort).width ≤ length (of sort t.nodes.now t.edges.now) }
    ensures { result ≡ head_at (form file sort) (of sort t.entry.nodes.now t.entry.edges.now) i }
{
    let m = form_of(file, sort);
    match sort {
        Sort::Nodes => head_at(t.nodes, m, i),
        Sort::Edges => head_at(t.edges, m, i),
    }
}
