// Whether a node or an edge of the graph fits a schema node or a schema edge: by its label set, by its record, by both.
#![tactic(auto)]

ghost use Rattle.std.specs.Prelude.{◌≡◌, ◌≤◌, ◌<◌};
ghost use Rattle.little.specs.Promise.{Says};
ghost use Rattle.meaning.specs.Fits.{SameLabels, Fits};
ghost use Rattle.layout.specs.Search.{Seeks, From};
ghost use Rattle.records.specs.Record.{Tests};
ghost use Rattle.parts.specs.Accepted.{count_at, graph_at, schema_at};
ghost use Rattle.fitting.specs.Objects.{object_in, shape_in};

use layout::Sort;
use parts::Pair;
use records::{Misfit, ObjectRows, ShapeRows};

// How many label sets a whole stretch has: a loop of a known number of turns has no test of its end in machine code.
const STRETCH: usize = 8;

// Whether node or edge i of the graph has the label set of schema node or schema edge j.
pub fn same_labels(p: &Pair<'_>, sort: Sort, i: usize, j: usize) -> bool
    requires { (i < count_at sort p.now.graph) × (j < count_at sort p.now.schema) }
    ensures { Says result (SameLabels (object_in (graph_at p.now.graph) sort i) (shape_in (schema_at p.now.schema) sort j)) }
{
    p.graph_head(sort, i).labels == p.schema_head(sort, j).labels
}

// From one schema node or schema edge on, up to another, the lowest one that has this label set.
fn labels_within(p: &Pair<'_>, sort: Sort, labels: u64, from: usize, to: usize) -> Option<usize>
    requires { (from ≤ to) × (to ≤ count_at sort p.now.schema) }
    ensures { Seeks result to (From from (λ j. labels ≡ (shape_in (schema_at p.now.schema) sort j).labels)) }
{
    for at in from..to {
        if p.schema_head(sort, at).labels == labels {
            return Some(at);
        }
    }
    None
}

// From schema node or schema edge `from` on, the lowest one that has the label set of node or edge i. That set is read once, and compared stretch by
// stretch.
pub fn next_labels(p: &Pair<'_>, sort: Sort, i: usize, from: usize) -> Option<usize>
    requires { (i < count_at sort p.now.graph) × (from ≤ count_at sort p.now.schema) }
    ensures { Seeks result (count_at sort p.now.schema) (From from (λ j. SameLabels (object_in (graph_at p.now.graph) sort i) (shape_in (schema_at p.now.schema) sort j))) }
{
    let labels = p.graph_head(sort, i).labels;
    let count = p.schema.count(sort);
    let whole = (count - from) / STRETCH;
    for n in 0..whole {
        let j = from + STRETCH * n;
        let found = labels_within(p, sort, labels, j, j + STRETCH);
        if found.is_some() {
            return found;
        }
    }
    labels_within(p, sort, labels, from + STRETCH * whole, count)
}

// Whether node or edge i of the graph fits schema node or schema edge j.
pub fn object_fits(p: &Pair<'_>, sort: Sort, i: usize, j: usize) -> bool
    requires { (i < count_at sort p.now.graph) × (j < count_at sort p.now.schema) }
    ensures { Says result (Fits (object_in (graph_at p.now.graph) sort i) (shape_in (schema_at p.now.schema) sort j)) }
{
    let opens = p.open_at(sort, j);
    records::fits(
        ObjectRows {
            rows: p.graph.bytes.rows,
            text: p.graph.bytes.text,
            head: p.graph_head(sort, i),
        },
        ShapeRows {
            rows: p.schema.bytes.rows,
            head: p.schema_head(sort, j),
            opens,
        },
    )
}

// The record test of node or edge i of the graph by schema node or schema edge j. The rows are put together here as in `object_fits`: a function for that would
// say each field once more in its contract.
pub fn object_test(p: &Pair<'_>, sort: Sort, i: usize, j: usize) -> Result<(), Misfit>
    requires { (i < count_at sort p.now.graph) × (j < count_at sort p.now.schema) }
    ensures { Tests result (object_in (graph_at p.now.graph) sort i) (shape_in (schema_at p.now.schema) sort j) }
{
    let open = p.open_at(sort, j);
    records::test(
        ObjectRows {
            rows: p.graph.bytes.rows,
            text: p.graph.bytes.text,
            head: p.graph_head(sort, i),
        },
        ShapeRows {
            rows: p.schema.bytes.rows,
            head: p.schema_head(sort, j),
            opens: open,
        },
    )
}
