// Rules 1 and 2, and what is kept of them: which schema nodes each node fits, a bit for each, and which schema edge places each edge, so that no fit is
// found twice. That the masks are right stays a clause of each function: as a ghost field it would have to have one proof at most, and that a node fits has several.
#![tactic(auto)]

ghost use Rattle.std.specs.Prelude.{◌≤◌, ◌<◌};
ghost use Rattle.little.specs.Promise.{Says};
ghost use Rattle.meaning.specs.Fits.{HasLabel};
ghost use Rattle.meaning.specs.Places.{Lowest};
ghost use Rattle.layout.specs.Ways.{way_of};
ghost use Rattle.parts.specs.Accepted.{Good, graph_at, schema_at};
ghost use Rattle.placing.specs.Masks.{MaskOf, MasksTo, PlacesNodes, Masked};
ghost use Rattle.placing.specs.PlacedEdges.{EndFits, PlacedAt, PlaceOf, PlacesTo, PlacesEdges, LabelsApart};
ghost use Rattle.placing.specs.Inner.{ApartBehind};

use layout::{File, MOST_EDGES, MOST_NODES, MOST_SCHEMA_EDGES, Sort, Way};
use parts::{FileTables, Pair};

// What is kept of an edge that several schema edges place, and of one that none does: no schema edge has these numbers. An `Option` or an enum in their place would
// take two bytes for each edge, and a look at an edge compares one.
pub const SEVERAL: u8 = MOST_SCHEMA_EDGES as u8;

pub const NOWHERE: u8 = 255;

// ---- rule 1

// Whether bit j of a mask is set.
pub fn has(mask: u32, j: usize) -> bool
    requires { j < 32 }
    ensures { Says result (HasLabel mask j) }
{
    (mask >> j) % 2 == 1
}

// Which schema nodes node i fits, a bit for each. The last schema node comes first, and each one moves the bits of those after it up.
fn mask_of(p: &Pair<'_>, i: usize) -> u32
    requires { i < p.now.graph.numbers.nodes }
    ensures { MaskOf (graph_at p.now.graph) (schema_at p.now.schema) i result }
{
    let mut mask: u32 = 0;
    for j in (0..p.schema.numbers.nodes).rev() {
        mask = 2 * mask;
        if fitting::object_fits(p, Sort::Nodes, i, j) {
            mask += 1;
        }
    }
    mask
}

// Rule 1, from a node on: the lowest node that fits no schema node, and the masks of the nodes before it; or those of all nodes, where there is none.
pub fn place_nodes(p: &Pair<'_>, masks: &mut [u32; MOST_NODES], from: usize) -> Option<usize>
    requires { (from ≤ p.now.graph.numbers.nodes) × MasksTo (graph_at p.now.graph) (schema_at p.now.schema) from masks.old }
    ensures { PlacesNodes result (graph_at p.now.graph) (schema_at p.now.schema) from masks.new }
{
    for i in from..p.graph.numbers.nodes {
        let mask = mask_of(p, i);
        if mask == 0 {
            return Some(i);
        }
        masks[i] = mask;
    }
    None
}

// ---- rule 2

// Whether the source of edge e fits the source of schema edge s (out), or its target the target (into): the mask says so.
pub fn end_fits(p: &Pair<'_>, way: Way, masks: &[u32; MOST_NODES], e: usize, s: usize) -> bool
    requires { Masked p.now masks.now × (e < p.now.graph.numbers.edges) × (s < p.now.schema.numbers.edges) }
    ensures { Says result (EndFits (graph_at p.now.graph) (schema_at p.now.schema) (way_of way) e s) }
{
    let node = p.near(way, e) as usize;
    let shape = p.schema_near(way, s) as usize;
    has(masks[node], shape)
}

// Whether edge e fits schema edge s, and its ends fit the ends. The label sets come first, since most differ, and the masks before the record.
pub fn placed(p: &Pair<'_>, masks: &[u32; MOST_NODES], e: usize, s: usize) -> bool
    requires { Masked p.now masks.now × (e < p.now.graph.numbers.edges) × (s < p.now.schema.numbers.edges) }
    ensures { Says result (PlacedAt (graph_at p.now.graph) (schema_at p.now.schema) e s) }
{
    fitting::same_labels(p, Sort::Edges, e, s)
        && end_fits(p, Way::Out, masks, e, s)
        && end_fits(p, Way::Into, masks, e, s)
        && fitting::object_fits(p, Sort::Edges, e, s)
}

// Whether no schema edge behind s has its label set.
fn apart_behind(schema: &FileTables<'_>, s: usize) -> bool
    requires { Good File.Schema schema.now × (s < schema.now.numbers.edges) }
    ensures { Says result (ApartBehind (schema_at schema.now) s) }
{
    let labels = schema.head(File::Schema, Sort::Edges, s).labels;
    for j in s + 1..schema.numbers.edges {
        if schema.head(File::Schema, Sort::Edges, j).labels == labels {
            return false;
        }
    }
    true
}

// Whether no two schema edges have one label set: then no edge has two places, and nobody needs to look for a second one.
pub fn labels_apart(schema: &FileTables<'_>) -> bool
    requires { Good File.Schema schema.now }
    ensures { Says result (LabelsApart (schema_at schema.now)) }
{
    for at in 0..schema.numbers.edges {
        if !apart_behind(schema, at) {
            return false;
        }
    }
    true
}

// What is kept of edge e, whose lowest place is s: that place, if there is none behind it.
fn place_of(p: &Pair<'_>, masks: &[u32; MOST_NODES], e: usize, s: usize, apart: bool) -> u8
    requires masked { Masked p.now masks.now × (e < p.now.graph.numbers.edges) × Says apart (LabelsApart (schema_at p.now.schema)) }
    requires lowest { Lowest p.now.schema.numbers.edges (PlacedAt (graph_at p.now.graph) (schema_at p.now.schema) e) s }
    ensures { PlaceOf (graph_at p.now.graph) (schema_at p.now.schema) e result }
{
    if apart {
        return s as u8;
    }
    for k in s + 1..p.schema.numbers.edges {
        if placed(p, masks, e, k) {
            return SEVERAL;
        }
    }
    s as u8
}

// Rule 2, from an edge on: the lowest edge that no schema edge places, and the places of the edges before it; or those of all edges, where there is none.
// The search for an edge's place goes through the schema edges that have its label set, and stops at the first that is one; `place_of` then says whether
// it is alone. Who calls again behind an edge knows already whether the label sets are apart.
// The loop left by its label, with the place found, is the form that 01 names for this search.
pub fn place_edges(
    p: &Pair<'_>,
    masks: &[u32; MOST_NODES],
    places: &mut [u8; MOST_EDGES],
    from: usize,
    apart: bool,
) -> Option<usize>
    requires masked { Masked p.now masks.now × Says apart (LabelsApart (schema_at p.now.schema)) }
    requires from_le_edges { (from ≤ p.now.graph.numbers.edges) × PlacesTo (graph_at p.now.graph) (schema_at p.now.schema) from places.old }
    ensures { PlacesEdges result (graph_at p.now.graph) (schema_at p.now.schema) from places.new }
{
    for e in from..p.graph.numbers.edges {
        let mut s = 0;
        let place = 'search: loop {
            let Some(j) = fitting::next_labels(p, Sort::Edges, e, s) else {
                break 'search None;
            };
            if placed(p, masks, e, j) {
                break 'search Some(j);
            }
            s = j + 1;
        };
        let Some(first) = place else {
            return Some(e);
        };
        places[e] = place_of(p, masks, e, first, apart);
    }
    None
}
