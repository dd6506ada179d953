// The two files of a check, accepted.
ghost use Rattle.layout.specs.declared.File.TheVariants.{Graph, Schema};
ghost use Rattle.parts.specs.Accepted.{Good};

use crate::FileTables;
use layout::{File, Head, Sort, Way};

// The tables of a graph and those of a schema.
#[derive(Clone, Copy)]
pub struct Pair<'a> {
    pub graph: FileTables<'a>,
    pub schema: FileTables<'a>,
    ghost graph_good: { ∥ Good Graph graph ∥₁ },
    ghost schema_good: { ∥ Good Schema schema ∥₁ },
}

impl<'a> Pair<'a> {
    ghost use Rattle.std.specs.Prelude.{◌≡◌, ◌<◌};
    ghost use Rattle.layout.specs.Files.{form};
    ghost use Rattle.layout.specs.Runs.{head_at};
    ghost use Rattle.layout.specs.Schema.{open_at};
    ghost use Rattle.layout.specs.Ways.{way_of};
    ghost use Rattle.meaning.specs.Rules.{near};
    ghost use Rattle.parts.specs.Accepted.{count_at, objects_at, edge_number};

    pub fn new(graph: FileTables<'a>, schema: FileTables<'a>) -> Pair<'a>
        requires { Good File.Graph graph × Good File.Schema schema }
        ensures { (result.graph ≡ graph.entry) × (result.schema ≡ schema.entry) }
    {
        Pair { graph, schema }
    }

    // The label set and the run of node or edge i.
    pub fn graph_head(&self, sort: Sort, i: usize) -> Head
        requires { i < count_at sort self.now.graph }
        ensures { result ≡ head_at (form File.Graph sort) (objects_at sort self.now.graph) i }
    {
        self.graph.head(File::Graph, sort, i)
    }

    // The label set and the run of schema node or schema edge j.
    pub fn schema_head(&self, sort: Sort, j: usize) -> Head
        requires { j < count_at sort self.now.schema }
        ensures { result ≡ head_at (form File.Schema sort) (objects_at sort self.now.schema) j }
    {
        self.schema.head(File::Schema, sort, j)
    }

    // The node of edge e that counts: its source on the way out, its target on the way in.
    pub fn near(&self, way: Way, e: usize) -> u32
        requires { e < self.now.graph.numbers.edges }
        ensures { result ≡ near (way_of way) (edge_number File.Graph self.now.graph e 8) (edge_number File.Graph self.now.graph e 12) }
    {
        self.graph.by_way(way, File::Graph, e, 8, 12)
    }

    // The schema node of schema edge s that counts.
    pub fn schema_near(&self, way: Way, s: usize) -> u32
        requires { s < self.now.schema.numbers.edges }
        ensures { result ≡ near (way_of way) (edge_number File.Schema self.now.schema s 8) (edge_number File.Schema self.now.schema s 12) }
    {
        self.schema.by_way(way, File::Schema, s, 8, 12)
    }

    // The minimum of the interval across: rule 3 is bounded by the target interval, rule 4 by the source interval.
    pub fn least(&self, way: Way, s: usize) -> u32
        requires { s < self.now.schema.numbers.edges }
        ensures { result ≡ near (way_of way) (edge_number File.Schema self.now.schema s 32) (edge_number File.Schema self.now.schema s 24) }
    {
        self.schema.by_way(way, File::Schema, s, 32, 24)
    }

    // Its maximum.
    pub fn most(&self, way: Way, s: usize) -> u32
        requires { s < self.now.schema.numbers.edges }
        ensures { result ≡ near (way_of way) (edge_number File.Schema self.now.schema s 36) (edge_number File.Schema self.now.schema s 28) }
    {
        self.schema.by_way(way, File::Schema, s, 36, 28)
    }

    // Whether the type of a schema node or a schema edge is open.
    pub fn open_at(&self, sort: Sort, j: usize) -> u16
        requires { j < count_at sort self.now.schema }
        ensures { result ≡ open_at sort (objects_at sort self.now.schema) j }
    {
        self.schema.open_at(sort, j)
    }
}
