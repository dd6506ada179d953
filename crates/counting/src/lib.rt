// Rules 3 and 4, which are one rule read along the edges and against them: each node's number of edges at each schema edge.
#![tactic(auto)]

ghost use Rattle.std.specs.Prelude.{◌≤◌, ◌<◌, get_or};
ghost use Rattle.little.specs.Promise.{Says};
ghost use Rattle.meaning.specs.Places.{Every};
ghost use Rattle.meaning.specs.Rules.{Within};
ghost use Rattle.layout.specs.Files.{most_nodes, most_edges};
ghost use Rattle.layout.specs.Schema.{interval_of};
ghost use Rattle.parts.specs.Accepted.{graph_at, schema_at};
ghost use Rattle.counting.specs.Passes.{AllWithin, ClearedTo};
ghost use Rattle.counting.specs.Numbers.{SomeSeveral, RuleReady, RuleTried};

use layout::{MOST_EDGES, MOST_NODES, Way};
use parts::Pair;

// Where rule 3 or rule 4 begins, or goes on behind a violation: at a schema edge, and there at a node. And whether some edge has several places.
#[derive(Clone, Copy)]
pub struct Start {
    pub way: Way,
    pub edge: usize,
    pub node: usize,
    pub several: bool,
}

// A step of rule 3 or of rule 4, which takes one schema edge: the two files, what is kept of them, and whether some edge has several places: where none
// has, a look compares one byte.
// What it asks of these stands in the contracts of its methods: a ghost field takes a fact that has one proof at most, and that a node fits may have several.
#[derive(Clone, Copy)]
struct Step<'c, 'f, 'm, 'e> {
    p: &'c Pair<'f>,
    masks: &'m [u32; MOST_NODES],
    places: &'e [u8; MOST_EDGES],
    way: Way,
    edge: usize,
    several: bool,
}

// How many edges a whole stretch has: a loop of a known number of turns has no test of its end in machine code.
const STRETCH: usize = 16;

// A wrong number: its schema edge, its node, and the number counted.
#[derive(Clone, Copy)]
pub struct Wrong {
    pub edge: u32,
    pub node: u32,
    pub number: u32,
}

// ---- what is kept of the edges

// Whether some edge has several places.
pub fn some_several(places: &[u8; MOST_EDGES], edges: usize) -> bool
    requires { edges ≤ most_edges }
    ensures { Says result (SomeSeveral edges places.now) }
{
    places[..edges].contains(&placing::SEVERAL)
}

// ---- the intervals

// Whether a number is within an interval, whose maximum may be 4,294,967,295 for "any": no number is above that.
fn within(number: u32, least: u32, most: u32) -> bool
    ensures { Says result (Within number (interval_of least most)) }
{
    least <= number && number <= most
}

// Whether each of these nodes that owes a number has one within the interval. It has no branch, so that several are judged at once.
fn all_within(
    near: usize,
    least: u32,
    most: u32,
    masks: &[u32; MOST_NODES],
    counts: &[u32; MOST_NODES],
    from: usize,
    nodes: usize,
) -> bool
    requires { (near < 32) × (from ≤ nodes) × (nodes ≤ most_nodes) × Every nodes (λ v. get_or counts.now v 0 ≤ most_edges) }
    ensures { Says result (AllWithin near (interval_of least most) masks.now counts.now from nodes) }
{
    let mut wrong: u32 = 0;
    for v in from..nodes {
        let mut owes = (masks[v] >> near) % 2;
        if within(counts[v], least, most) {
            owes = 0;
        }
        wrong += owes;
    }
    wrong == 0
}

// Sets the counters of these nodes to zero. Those before them are zero already.
fn clear(counts: &mut [u32; MOST_NODES], from: usize, nodes: usize)
    requires { (from ≤ nodes) × (nodes ≤ most_nodes) × ClearedTo counts.old from counts.old }
    ensures { ClearedTo counts.old nodes counts.new }
{
    counts[from..nodes].fill(0);
}

// ---- a step

impl Step<'_, '_, '_, '_> {
    ghost use Rattle.std.specs.Prelude.{◌≤◌, ◌<◌};
    ghost use Rattle.little.specs.Promise.{Says};
    ghost use Rattle.layout.specs.Ways.{way_of};
    ghost use Rattle.parts.specs.Accepted.{graph_at, schema_at};
    ghost use Rattle.placing.specs.PlacedEdges.{PlacedAt};
    ghost use Rattle.counting.specs.Passes.{CountedTo, StepReady, StepTried};
    ghost use Rattle.counting.specs.Numbers.{AllZero, CountersTo};

    // A look: whether edge e is placed at the step's schema edge. What is kept of the edge says so, and a test where it has several places.
    fn placed_at(self, e: usize) -> bool
        requires { StepReady self × (e < self.p.now.graph.numbers.edges) }
        ensures { Says result (PlacedAt (graph_at self.entry.p.now.graph) (schema_at self.entry.p.now.schema) e self.entry.edge) }
    {
        let s = self.edge;
        let place = self.places[e];
        place == s as u8
            || self.several
                && place == placing::SEVERAL
                && placing::placed(self.p, self.masks, e, s)
    }

    // A look at each edge of a stretch: the counter of its near end is raised by one, if it is placed at the step's schema edge.
    fn look_through(self, from: usize, to: usize, counts: &mut [u32; MOST_NODES])
        requires step_ready { StepReady self × (from ≤ to) × (to ≤ self.p.now.graph.numbers.edges) }
        requires counted_to { CountedTo (graph_at self.p.now.graph) (schema_at self.p.now.schema) (way_of self.way) self.edge from counts.old }
        ensures { CountedTo (graph_at self.entry.p.now.graph) (schema_at self.entry.p.now.schema) (way_of self.entry.way) self.entry.edge to counts.new }
    {
        for e in from..to {
            if self.placed_at(e) {
                let near = self.p.near(self.way, e) as usize;
                counts[near] += 1;
            }
        }
    }

    // Each node's number of edges that are placed at the step's schema edge, in counters that are lent: all zero at first, filled in one pass over the edges.
    fn count_edges(self, counts: &mut [u32; MOST_NODES])
        requires { StepReady self × AllZero counts.old }
        ensures { CountersTo (graph_at self.entry.p.now.graph) (schema_at self.entry.p.now.schema) (way_of self.entry.way) self.entry.edge 0 counts.new }
    {
        let edges = self.p.graph.numbers.edges;
        let whole = edges / STRETCH;
        for i in 0..whole {
            let e = STRETCH * i;
            self.look_through(e, e + STRETCH, counts);
        }
        self.look_through(STRETCH * whole, edges, counts);
    }

    // From a node on, the lowest node whose number at the step's schema edge is not within the interval across. Each counter that is passed is left at zero.
    // At the first node all are judged at once; where one is wrong, it is looked for by itself, and so are those behind it.
    fn first_wrong(self, counts: &mut [u32; MOST_NODES], from: usize) -> Option<usize>
        requires ready { StepReady self × (from ≤ self.p.now.graph.numbers.nodes) }
        requires counters_to { CountersTo (graph_at self.p.now.graph) (schema_at self.p.now.schema) (way_of self.way) self.edge from counts.old }
        ensures { StepTried result (graph_at self.entry.p.now.graph) (schema_at self.entry.p.now.schema) (way_of self.entry.way) self.entry.edge from counts.new }
    {
        let way = self.way;
        let s = self.edge;
        let near = self.p.schema_near(way, s) as usize;
        let least = self.p.least(way, s);
        let most = self.p.most(way, s);
        let nodes = self.p.graph.numbers.nodes;
        if from == 0 && all_within(near, least, most, self.masks, counts, from, nodes) {
            clear(counts, from, nodes);
            return None;
        }
        for v in from..nodes {
            if placing::has(self.masks[v], near) && !within(counts[v], least, most) {
                return Some(v);
            }
            counts[v] = 0;
        }
        None
    }
}

// ---- a rule

// Rule 3 or rule 4, from a schema edge and a node there on: the first schema edge, and there the first node, whose number is wrong. The counters that are
// lent are zero where no node is passed yet, and each one that is passed is zero again, so that whoever calls again behind a violation finds them as they have to be.
pub fn rule_numbers(
    p: &Pair<'_>,
    from: Start,
    masks: &[u32; MOST_NODES],
    places: &[u8; MOST_EDGES],
    counts: &mut [u32; MOST_NODES],
) -> Option<Wrong>
    requires { RuleReady from p.now masks.now places.now counts.old }
    ensures { RuleTried result from (graph_at p.now.graph) (schema_at p.now.schema) counts.new }
{
    let way = from.way;
    let mut node = from.node;
    for s in from.edge..p.schema.numbers.edges {
        let step = Step {
            p,
            masks,
            places,
            way,
            edge: s,
            several: from.several,
        };
        if node == 0 {
            step.count_edges(counts);
        }
        let found = step.first_wrong(counts, node);
        if let Some(wrong) = found {
            let number = counts[wrong];
            counts[wrong] = 0;
            return Some(Wrong {
                edge: s as u32,
                node: wrong as u32,
                number,
            });
        }
        node = 0;
    }
    None
}
