// The four rules on two accepted files: violation after violation, in 01's order.
#![tactic(auto)]

ghost use Rattle.std.specs.Prelude.{◌≡◌, ◌≤◌};
ghost use Rattle.meaning.specs.Violations.{rule_of};
ghost use Rattle.meaning.specs.Answer.{IsAnswer};
ghost use Rattle.layout.specs.Ways.{way_of};
ghost use Rattle.parts.specs.Accepted.{graph_at, schema_at};
ghost use Rattle.placing.specs.Masks.{Masked};
ghost use Rattle.placing.specs.PlacedEdges.{Kept};
ghost use Rattle.telling.specs.Told.{answer_in};
ghost use Rattle.rules.specs.Onward.{at_start, StandsNodes, StandsEdges, StandsNumbers, Stands, NextFound};
ghost use Rattle.rules.specs.Inner.{onward_to, Sought, KnownOfNodes, KnownOfEdges};

use counting::Start;
use layout::{MOST_EDGES, MOST_NODES, Sort, Way};
use parts::Pair;
use telling::{Finding, Verdict};

// Where a search for violations stands: at a rule, by which node, edge or schema edge, and then which node; each violation before that is passed. Behind the
// last rule it is at rule 5: rules go by 01's numbers, since violations are ordered by them. And what is known on the way: whether no two schema edges have one label set (from rule 2 on), and whether some edge has several
// places (from rule 3 on).
#[derive(Clone, Copy)]
pub struct Search {
    pub rule: u32,
    pub by: usize,
    pub then: usize,
    pub apart: bool,
    pub several: bool,
}

// What is told of the next violation, if there is one; and where the search stands behind it.
#[derive(Clone, Copy)]
pub struct Onward {
    pub found: Option<Finding>,
    pub search: Search,
}

// What a search keeps on its way: the mask of each node, the place of each edge, and "one counter for each of the 1,024 possible nodes". Who lends them writes them
// down where they stand: a function that returned them would take their 12 kB of stack twice.
#[derive(Drop)]
pub struct Notes {
    pub masks: [u32; MOST_NODES],
    pub places: [u8; MOST_EDGES],
    pub counts: [u32; MOST_NODES],
}

// ---- one rule

// What is told, and where the search stands then.
fn onward_to(
    found: Option<Finding>,
    rule: u32,
    by: usize,
    then: usize,
    apart: bool,
    several: bool,
) -> Onward
    ensures { result ≡ onward_to found rule by then apart several }
{
    let search = Search {
        rule,
        by,
        then,
        apart,
        several,
    };
    Onward { found, search }
}

// Rule 1, from a node on. Rule 2 reads alike, but each has its own table, its own words and its own fact for the rule behind it: one function for both would
// take these as parameters.
fn seek_node(p: &Pair<'_>, masks: &mut [u32; MOST_NODES], from: Search) -> Onward
    requires { (from.rule ≡ 1) × StandsNodes (graph_at p.now.graph) (schema_at p.now.schema) masks.old from }
    ensures sought { Sought (graph_at p.now.graph) (schema_at p.now.schema) from result }
    ensures stands_nodes { StandsNodes (graph_at p.now.graph) (schema_at p.now.schema) masks.new result.search }
    ensures known_of_nodes { KnownOfNodes (schema_at p.now.schema) result.search }
{
    match placing::place_nodes(p, masks, from.by) {
        Some(i) => {
            let told = telling::numbers_of(telling::tell_unfit(p, Sort::Nodes, i));
            onward_to(Some(told), 1, i + 1, 0, false, false)
        }
        None => onward_to(None, 2, 0, 0, placing::labels_apart(&p.schema), false),
    }
}

// Rule 2, from an edge on.
fn seek_edge(
    p: &Pair<'_>,
    masks: &[u32; MOST_NODES],
    places: &mut [u8; MOST_EDGES],
    from: Search,
) -> Onward
    requires { Masked p.now masks.now × (from.rule ≡ 2) × StandsEdges (graph_at p.now.graph) (schema_at p.now.schema) places.old from }
    ensures sought { Sought (graph_at p.now.graph) (schema_at p.now.schema) from result }
    ensures stands_edges { StandsEdges (graph_at p.now.graph) (schema_at p.now.schema) places.new result.search }
    ensures known_of_edges { KnownOfEdges (graph_at p.now.graph) places.new result.search }
{
    let apart = from.apart;
    match placing::place_edges(p, masks, places, from.by, apart) {
        Some(e) => {
            let told = telling::numbers_of(telling::tell_edge(p, masks, e));
            onward_to(Some(told), 2, e + 1, 0, apart, false)
        }
        None => {
            let several = counting::some_several(places, p.graph.numbers.edges);
            onward_to(None, 3, 0, 0, apart, several)
        }
    }
}

// The way of rule 3 or of rule 4.
fn way_of(rule: u32) -> Way
    requires { (3 ≤ rule) × (rule ≤ 4) }
    ensures { rule_of (way_of result) ≡ rule }
{
    if rule == 3 { Way::Out } else { Way::Into }
}

// Rule 3 or rule 4, from a schema edge and a node there on.
fn seek_number(
    p: &Pair<'_>,
    masks: &[u32; MOST_NODES],
    places: &[u8; MOST_EDGES],
    counts: &mut [u32; MOST_NODES],
    from: Search,
) -> Onward
    requires kept { Kept p.now masks.now places.now × (3 ≤ from.rule) × (from.rule ≤ 4) }
    requires stands_numbers { StandsNumbers (graph_at p.now.graph) (schema_at p.now.schema) places.now counts.old from }
    ensures sought { Sought (graph_at p.now.graph) (schema_at p.now.schema) from result × (result.search.apart ≡ from.apart) }
    ensures stands_numbers_2 { StandsNumbers (graph_at p.now.graph) (schema_at p.now.schema) places.now counts.new result.search }
{
    let Search {
        rule,
        by,
        then,
        apart,
        several,
    } = from;
    let way = way_of(rule);
    let start = Start {
        way,
        edge: by,
        node: then,
        several,
    };
    match counting::rule_numbers(p, start, masks, places, counts) {
        Some(w) => {
            let told = telling::numbers_of(telling::tell_number(p, way, w.edge, w.node, w.number));
            onward_to(
                Some(told),
                rule,
                w.edge as usize,
                w.node as usize + 1,
                apart,
                several,
            )
        }
        None => onward_to(None, rule + 1, 0, 0, apart, several),
    }
}

// ---- all four rules

// The rule at which the search stands. Rules 3 and 4 are two calls of one function, so that it is not compiled into this one, where a look would have too few
// registers.
fn seek(p: &Pair<'_>, notes: &mut Notes, from: Search) -> Onward
    requires { Stands p.now notes.old.masks notes.old.places notes.old.counts from × (from.rule ≤ 4) }
    ensures sought { Sought (graph_at p.now.graph) (schema_at p.now.schema) from result }
    ensures stands { Stands p.now notes.new.masks notes.new.places notes.new.counts result.search }
{
    match from.rule {
        1 => seek_node(p, &mut notes.masks, from),
        2 => seek_edge(p, &notes.masks, &mut notes.places, from),
        3 => seek_number(p, &notes.masks, &notes.places, &mut notes.counts, from),
        _ => seek_number(p, &notes.masks, &notes.places, &mut notes.counts, from),
    }
}

// The next violation in 01's order, behind where the search stands. The notes that are lent are the search's own: each node and each edge is
// placed once, and each schema edge counted once for each of rules 3 and 4, however often the search goes on.
pub fn next(p: &Pair<'_>, notes: &mut Notes, from: Search) -> Onward
    requires { Stands p.now notes.old.masks notes.old.places notes.old.counts from }
    ensures next_found { NextFound (graph_at p.now.graph) (schema_at p.now.schema) from result }
    ensures stands { Stands p.now notes.new.masks notes.new.places notes.new.counts result.search }
{
    let mut at = from; // the search itself says which rule is next, so that nothing is counted here
    while at.rule < 5 {
        let onward = seek(p, notes, at);
        if onward.found.is_some() {
            return onward;
        }
        at = onward.search;
    }
    onward_to(None, 5, 0, 0, at.apart, at.several)
}

// A search that has passed nothing.
pub fn start() -> Search
    ensures { result ≡ at_start }
{
    Search {
        rule: 1,
        by: 0,
        then: 0,
        apart: false,
        several: false,
    }
}

// The answer that an accepted graph and an accepted schema are owed: the first violation, or that there is none.
pub fn judge(p: &Pair<'_>) -> Finding
    ensures { IsAnswer (graph_at p.now.graph) (schema_at p.now.schema) (answer_in result) }
{
    let mut notes = Notes {
        masks: [0; MOST_NODES],
        places: [placing::NOWHERE; MOST_EDGES],
        counts: [0; MOST_NODES],
    };
    let onward = next(p, &mut notes, start());
    onward
        .found
        .unwrap_or(telling::numbers_of(Verdict::Conforms))
}
