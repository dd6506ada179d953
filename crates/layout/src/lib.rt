// What the definitions and the code share: which file and which table, its numbers, and what a file is refused for. No code.
#![tactic(auto)]

// Ceilings that the code needs as constants: what is kept of each node or each edge stands in an array of as many.
pub const MOST_NODES: usize = 1024;

pub const MOST_EDGES: usize = 4096;

pub const MOST_SCHEMA_EDGES: usize = 64;

#[derive(Clone, Copy)]
pub enum File {
    Graph,
    Schema,
}

// Nodes or edges; in a schema file, schema nodes or schema edges.
#[derive(Clone, Copy)]
pub enum Sort {
    Nodes,
    Edges,
}

// Out of a node (rule 3) or into it (rule 4).
#[derive(Clone, Copy)]
pub enum Way {
    Out,
    Into,
}

// How a row lies: its bytes, where its first property row stands, and the bytes of the count that follows that.
#[derive(Clone, Copy)]
pub struct Form {
    pub width: usize,
    pub run: usize,
    pub counted: usize,
}

// How large a file and the numbers of its trailer may be.
#[derive(Clone, Copy)]
pub struct Ceilings {
    pub file: usize,
    pub nodes: usize,
    pub edges: usize,
    pub rows: usize,
    pub text: usize,
    pub labels: usize,
    pub names: usize,
}

// The numbers of a trailer. A schema has no text.
#[derive(Clone, Copy)]
pub struct Trailer {
    pub nodes: usize,
    pub edges: usize,
    pub rows: usize,
    pub text: usize,
    pub labels: usize,
    pub names: usize,
    pub back: usize,
}

// Where the tables of a body start, and where the last one ends.
#[derive(Clone, Copy)]
pub struct Starts {
    pub nodes: usize,
    pub edges: usize,
    pub rows: usize,
    pub text: usize,
    pub end: usize,
}

#[derive(Clone, Copy)]
pub struct Tables {
    pub numbers: Trailer,
    pub starts: Starts,
}

// The bytes of the tables of a body.
#[derive(Clone, Copy)]
pub struct TableBytes<'a> {
    pub nodes: &'a [u8],
    pub edges: &'a [u8],
    pub rows: &'a [u8],
    pub text: &'a [u8],
}

// What node and edge rows of both files share: a label set and a run of property rows.
#[derive(Clone, Copy)]
pub struct Head {
    pub labels: u64,
    pub first: usize,
    pub count: usize,
}

// A part of the text bytes.
#[derive(Clone, Copy)]
pub struct Part {
    pub at: u32,
    pub len: u32,
}

// A property value is one of five kinds, and a Real carries its float.
#[derive(Clone, Copy)]
pub enum Value {
    Boolean(bool),
    Integer(i64),
    Real(f64),
    Date(u32),
    Text(Part),
}

// What a file is refused for, in the order in which it is tried; of a bad row, its place in its own table.
#[derive(Clone, Copy)]
pub enum Refused {
    Length,
    Mark,
    Count,
    Back,
    Node(u32),
    Edge(u32),
    Row(u32),
}

// The file that is refused, and what for.
#[derive(Clone, Copy)]
pub struct Refusal {
    pub file: File,
    pub cause: Refused,
}
