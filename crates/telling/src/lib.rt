// What is told of a violation: its line of 01's table of codes.
#![tactic(auto)]

ghost use Rattle.std.specs.Prelude.{◌≡◌, ◌≤◌, ◌<◌, Err, Some};
ghost use Rattle.meaning.specs.Places.{Lowest};
ghost use Rattle.meaning.specs.Fits.{Fits};
ghost use Rattle.meaning.specs.Violations.{edge, number, Misnumbered};
ghost use Rattle.meaning.specs.Answer.{answer, Told};
ghost use Rattle.layout.specs.Files.{of, most_edges, most_schema_edges};
ghost use Rattle.layout.specs.Search.{Seeks, From};
ghost use Rattle.layout.specs.Ways.{way_of};
ghost use Rattle.records.specs.Record.{letter, property};
ghost use Rattle.parts.specs.Accepted.{count_at, graph_at, schema_at};
ghost use Rattle.fitting.specs.Objects.{object_in, shape_in};
ghost use Rattle.placing.specs.Masks.{Masked};
ghost use Rattle.telling.specs.Told.{told, finding_of, answer_in, printed, violation_of, FitsNone};

use layout::{MOST_NODES, Sort, Way};
use parts::Pair;
use records::Misfit;
use std::fmt;

// What is told of a violation, or that there is none. The numbers are those of 01's table; a record has the property at fault besides. `Conforms` is a
// case and no `None` outside, since code 0 is a line of that table, and 01 wants its number "for each of the enum's cases".
#[derive(Clone, Copy)]
pub enum Verdict {
    Conforms,
    NodeLabels(u32),
    NodeRecord(u32, u32, u32, u32),
    EdgeLabels(u32),
    EdgeRecord(u32, u32, u32, u32),
    EdgeEnds(u32, u32, u32),
    TooFewOut(u32, u32, u32),
    TooManyOut(u32, u32, u32),
    TooFewInto(u32, u32, u32),
    TooManyInto(u32, u32, u32),
}

// What is told of a violation in five numbers: code, place, schema place, count, property. Code 0 tells that there is none. C has this struct.
#[repr(C)]
#[derive(Clone, Copy)]
pub struct Finding {
    pub code: u32,
    pub place: u32,
    pub schema: u32,
    pub count: u32,
    pub property: u32,
}

// The five numbers as the programs print them.
impl fmt::Display for Finding {
    ghost output = { λ v. Some (printed (answer_in v)) };

    fn fmt<W: fmt::Write>(&self, f: &mut fmt::Formatter<W>) -> fmt::Result {
        write!(
            f,
            "{} {} {} {} {}",
            self.code, self.place, self.schema, self.count, self.property
        )
    }
}

// ---- a node or an edge that fits nothing

// What is told of node or edge i, whose record misfits schema node or schema edge j: 22, or 24, with 01's number of the first letter that is broken.
fn tell_record(sort: Sort, i: usize, j: usize, misfit: Misfit) -> Verdict
    requires { (i < most_edges) × (j < most_schema_edges) }
    ensures { told result ≡ answer (of sort 22 24) i j (letter (Err misfit)) (property (Err misfit)) }
{
    let place = i as u32;
    let at = j as u32;
    let (letter, name) = match misfit {
        Misfit::Missing(name) => (1, name),
        Misfit::Unlisted(name) => (2, name),
        Misfit::Mistyped(name) => (3, name),
    };
    match sort {
        Sort::Nodes => Verdict::NodeRecord(place, at, letter, name),
        Sort::Edges => Verdict::EdgeRecord(place, at, letter, name),
    }
}

// What is told of node or edge i, which fits no schema node or schema edge: 21 and 22, or 23 and 24.
pub fn tell_unfit(p: &Pair<'_>, sort: Sort, i: usize) -> Verdict
    requires { (i < count_at sort p.now.graph) × FitsNone (graph_at p.now.graph) (schema_at p.now.schema) sort (count_at sort p.now.schema) i }
    ensures { Told (graph_at p.now.graph) (schema_at p.now.schema) (violation_of sort i) (told result) }
{
    let Some(j) = fitting::next_labels(p, sort, i, 0) else {
        let place = i as u32;
        return match sort {
            Sort::Nodes => Verdict::NodeLabels(place),
            Sort::Edges => Verdict::EdgeLabels(place),
        };
    };
    let Err(misfit) = fitting::object_test(p, sort, i, j) else {
        unreachable!(); // it fits nothing
    };
    tell_record(sort, i, j, misfit)
}

// ---- an edge against rule 2

// From schema edge `from` on, the lowest one that edge e fits.
fn find_fit(p: &Pair<'_>, e: usize, from: usize) -> Option<usize>
    requires { (e < p.now.graph.numbers.edges) × (from ≤ p.now.schema.numbers.edges) }
    ensures { Seeks result p.now.schema.numbers.edges (From from (λ s. Fits (object_in (graph_at p.now.graph) Sort.Edges e) (shape_in (schema_at p.now.schema) Sort.Edges s))) }
{
    (from..p.schema.numbers.edges).find(|s| {
        fitting::same_labels(p, Sort::Edges, e, *s) && fitting::object_fits(p, Sort::Edges, e, *s)
    })
}

// What is told of an edge whose ends do not fit at s, the lowest schema edge that it fits itself: 25, with 1 if its source misfits there, else 2.
fn tell_ends(p: &Pair<'_>, masks: &[u32; MOST_NODES], e: usize, s: usize) -> Verdict
    requires masked { Masked p.now masks.now × (e < p.now.graph.numbers.edges) }
    requires lowest { Lowest p.now.schema.numbers.edges (λ k. Fits (object_in (graph_at p.now.graph) Sort.Edges e) (shape_in (schema_at p.now.schema) Sort.Edges k)) s }
    ensures { Told (graph_at p.now.graph) (schema_at p.now.schema) (edge e) (told result) }
{
    let source_fits = placing::end_fits(p, Way::Out, masks, e, s);
    let misfit = if source_fits { 2 } else { 1 };
    Verdict::EdgeEnds(e as u32, s as u32, misfit)
}

// What is told of an edge against rule 2: 23 if no schema edge has its label set; 25 if it fits the lowest that has, or one behind; else 24 at the lowest.
pub fn tell_edge(p: &Pair<'_>, masks: &[u32; MOST_NODES], e: usize) -> Verdict
    requires { Masked p.now masks.now × (e < p.now.graph.numbers.edges) }
    ensures { Told (graph_at p.now.graph) (schema_at p.now.schema) (edge e) (told result) }
{
    let Some(j) = fitting::next_labels(p, Sort::Edges, e, 0) else {
        return Verdict::EdgeLabels(e as u32);
    };
    match fitting::object_test(p, Sort::Edges, e, j) {
        Ok(()) => tell_ends(p, masks, e, j),
        Err(misfit) => match find_fit(p, e, j + 1) {
            Some(s) => tell_ends(p, masks, e, s),
            None => tell_record(Sort::Edges, e, j, misfit),
        },
    }
}

// ---- a wrong number

// What is told of a wrong number k of node v at schema edge s: too few, else too many. Rule 3 is bounded by the target interval, rule 4 by the source
// interval.
pub fn tell_number(p: &Pair<'_>, way: Way, s: u32, v: u32, k: u32) -> Verdict
    requires { Misnumbered (graph_at p.now.graph) (schema_at p.now.schema) (way_of way) s v k }
    ensures { Told (graph_at p.now.graph) (schema_at p.now.schema) (number (way_of way) s v k) (told result) }
{
    let least = p.least(way, s as usize);
    match way {
        Way::Out if k < least => Verdict::TooFewOut(s, v, k),
        Way::Out => Verdict::TooManyOut(s, v, k),
        Way::Into if k < least => Verdict::TooFewInto(s, v, k),
        Way::Into => Verdict::TooManyInto(s, v, k),
    }
}

// ---- the numbers

fn five(code: u32, place: u32, schema: u32, count: u32, property: u32) -> Finding
    ensures { result ≡ finding_of (answer code place schema count property) }
{
    Finding {
        code,
        place,
        schema,
        count,
        property,
    }
}

// 01's numbers for a verdict, and the fifth. It has a name of its own, and is no `From`, since the list of public promises names it.
pub fn numbers_of(v: Verdict) -> Finding
    ensures { result ≡ finding_of (told v) }
{
    match v {
        Verdict::Conforms => five(0, 0, 0, 0, 0),
        Verdict::NodeLabels(i) => five(21, i, 0, 0, 0),
        Verdict::NodeRecord(i, j, k, name) => five(22, i, j, k, name),
        Verdict::EdgeLabels(e) => five(23, e, 0, 0, 0),
        Verdict::EdgeRecord(e, s, k, name) => five(24, e, s, k, name),
        Verdict::EdgeEnds(e, s, k) => five(25, e, s, k, 0),
        Verdict::TooFewOut(s, v, k) => five(31, v, s, k, 0),
        Verdict::TooManyOut(s, v, k) => five(32, v, s, k, 0),
        Verdict::TooFewInto(s, v, k) => five(33, v, s, k, 0),
        Verdict::TooManyInto(s, v, k) => five(34, v, s, k, 0),
    }
}
