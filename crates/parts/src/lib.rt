// The tables of accepted files, read where they lie, and the two files of a check: all that a function above needs of them.
#![tactic(auto)]

ghost use Rattle.std.specs.Prelude.{◌≡◌, ◌+◌, ◌≤◌, ◌<◌};
ghost use Rattle.layout.specs.Files.{form};
ghost use Rattle.layout.specs.Runs.{head_at};
ghost use Rattle.layout.specs.Schema.{open_at};
ghost use Rattle.layout.specs.Ways.{way_of};
ghost use Rattle.meaning.specs.Rules.{near};
ghost use Rattle.parts.specs.Accepted.{Accepted, Good, TablesOf, count_at, objects_at, edge_number};

mod pair;

use layout::{File, Head, Sort, TableBytes, Tables, Trailer, Way};
pub use pair::Pair;

// The numbers of a file and the bytes of its tables.
#[derive(Clone, Copy)]
pub struct FileTables<'a> {
    pub numbers: Trailer,
    pub bytes: TableBytes<'a>,
}

impl<'a> FileTables<'a> {
    // Those of an accepted file.
    pub fn new(file: File, bytes: &'a [u8], t: Tables) -> FileTables<'a>
        requires { Accepted file bytes.now t }
        ensures { TablesOf file bytes.now t result }
    {
        FileTables {
            numbers: t.numbers,
            bytes: formats::table_bytes(bytes, t.starts),
        }
    }

    // The table of nodes or of edges.
    pub fn objects(&self, sort: Sort) -> &'a [u8]
        ensures { result.now ≡ objects_at sort self.now }
    {
        match sort {
            Sort::Nodes => self.bytes.nodes,
            Sort::Edges => self.bytes.edges,
        }
    }

    // How many nodes or edges there are.
    pub fn count(&self, sort: Sort) -> usize
        ensures { result ≡ count_at sort self.now }
    {
        match sort {
            Sort::Nodes => self.numbers.nodes,
            Sort::Edges => self.numbers.edges,
        }
    }

    // The label set and the run of node or edge i.
    pub fn head(&self, file: File, sort: Sort, i: usize) -> Head
        requires { Good file self.now × (i < count_at sort self.now) }
        ensures { result ≡ head_at (form file sort) (objects_at sort self.now) i }
    {
        let m = formats::form_of(file, sort);
        formats::head_at(self.objects(sort), m, i)
    }

    // A number of an edge row.
    fn edge_number(&self, file: File, e: usize, at: usize) -> u32
        requires { Good file self.now × (e < self.now.numbers.edges) × (at + 4 ≤ (form file Sort.Edges).width) }
        ensures { result ≡ edge_number file self.now e at }
    {
        let m = formats::form_of(file, Sort::Edges);
        little::u32_at(self.bytes.edges, m.width * e + at)
    }

    // Whether the type of a schema node or a schema edge is open.
    pub fn open_at(&self, sort: Sort, j: usize) -> u16
        requires { Good File.Schema self.now × (j < count_at sort self.now) }
        ensures { result ≡ open_at sort (objects_at sort self.now) j }
    {
        let m = formats::form_of(File::Schema, sort);
        little::u16_at(self.objects(sort), m.width * j + m.run + 6)
    }

    // A number of an edge row: at one place on the way out, at another on the way in. Given the source's place and then the target's, it is what the node
    // that counts has; given the target's first, what is across.
    pub fn by_way(&self, way: Way, file: File, e: usize, out: usize, into: usize) -> u32
        requires { Good file self.now × (e < self.now.numbers.edges) × (out + 4 ≤ (form file Sort.Edges).width) × (into + 4 ≤ (form file Sort.Edges).width) }
        ensures { result ≡ near (way_of way) (edge_number file self.now e out) (edge_number file self.now e into) }
    {
        match way {
            Way::Out => self.edge_number(file, e, out),
            Way::Into => self.edge_number(file, e, into),
        }
    }
}
