// Judging the rows of the tables of a graph or of a schema, where they lie. Both files are judged by the same functions.
#![tactic(auto)]

ghost use Rattle.std.specs.Prelude.{◌≡◌, ◌+◌, ◌*◌, ◌≤◌, ◌<◌, length};
ghost use Rattle.little.specs.Little.{little};
ghost use Rattle.little.specs.Promise.{Says};
ghost use Rattle.layout.specs.Files.{of, form, row_width, body_in};
ghost use Rattle.layout.specs.Runs.{LabelsBelow, GoodHead, name_at};
ghost use Rattle.layout.specs.Rows.{GoodInterval, GoodSchemaEdge, OwnObject, GoodProperty, GoodListed, OwnRow};
ghost use Rattle.tables.specs.Told.{Given, Tries};
ghost use Rattle.tables.specs.Inner.{Finds, GoodIn, Extends, Stands, Walks};

use layout::{File, Head, Refused, Sort, TableBytes, Trailer};

// How far a walk came: where the next run starts, and the lowest bad property row before that.
#[derive(Clone, Copy)]
pub struct Reached {
    pub next: usize,
    pub bad: Option<usize>,
}

// ---- heads of node and edge rows

// Whether no label is at or above the label count.
fn labelled(labels: u64, count: usize) -> bool
    ensures { Says result (LabelsBelow labels count) }
{
    63 < count || labels >> count == 0
}

// Whether a head is good where its run has to start at `start`. No sum is taken that could wrap.
fn good_head(h: Head, n: Trailer, start: usize) -> bool
    ensures { Says result (GoodHead n h start) }
{
    h.first == start && start <= n.rows && h.count <= n.rows - start && labelled(h.labels, n.labels)
}

// ---- what is asked of a row besides its head

// Whether both ends of the edge row at this place are nodes.
fn good_ends(edges: &[u8], at: usize, nodes: usize) -> bool
    requires { at + 16 ≤ length edges.now }
    ensures { Says result ((little 4 edges.now (at + 8) < nodes) × (little 4 edges.now (at + 12) < nodes)) }
{
    (little::u32_at(edges, at + 8) as usize) < nodes
        && (little::u32_at(edges, at + 12) as usize) < nodes
}

// Whether open, at this place, is 0 or 1.
fn good_open(table: &[u8], at: usize) -> bool
    requires { at + 2 ≤ length table.now }
    ensures { Says result (little 2 table.now at ≤ 1) }
{
    little::u16_at(table, at) <= 1
}

// Whether a minimum and a maximum, at this place, are allowed.
fn good_interval(edges: &[u8], at: usize) -> bool
    requires { at + 8 ≤ length edges.now }
    ensures { Says result (GoodInterval (little 4 edges.now at) (little 4 edges.now (at + 4))) }
{
    let least = little::u32_at(edges, at);
    let most = little::u32_at(edges, at + 4);
    least <= 65535 && least <= most && (most <= 65535 || most == 4294967295)
}

// Whether the ends, open and both intervals of a schema edge row are good.
fn good_schema_edge(edges: &[u8], e: usize, nodes: usize) -> bool
    requires { 40 * e + 40 ≤ length edges.now }
    ensures { Says result (GoodSchemaEdge nodes edges.now e) }
{
    let at = 40 * e;
    good_ends(edges, at, nodes)
        && good_open(edges, at + 22)
        && good_interval(edges, at + 24)
        && good_interval(edges, at + 32)
}

// Whether what is asked of a node or an edge row besides its head is so.
fn own_object(file: File, sort: Sort, t: TableBytes<'_>, i: usize, count: usize) -> bool
    requires { (form file sort).width * i + (form file sort).width ≤ length (of sort t.nodes.now t.edges.now) }
    ensures { Says result (OwnObject file sort count (of sort t.entry.nodes.now t.entry.edges.now) i) }
{
    match (file, sort) {
        (File::Graph, Sort::Nodes) => true,
        (File::Graph, Sort::Edges) => good_ends(t.edges, 24 * i, count),
        (File::Schema, Sort::Nodes) => good_open(t.nodes, 16 * i + 14),
        (File::Schema, Sort::Edges) => good_schema_edge(t.edges, i, count),
    }
}

// ---- property rows

// The name of a property row.
fn name_at(file: File, rows: &[u8], r: usize) -> usize
    requires { row_width file * r + row_width file ≤ length rows.now }
    ensures { result ≡ name_at file rows.now r }
{
    little::u16_at(rows, formats::row_width(file) * r) as usize
}

// Whether a graph's property row is good by itself: its value is made here, once.
fn good_property(rows: &[u8], text: usize, r: usize) -> bool
    requires { (16 * r + 16 ≤ length rows.now) × (text ≤ 4294967295) }
    ensures { Says result (GoodProperty text rows.now r) }
{
    let at = 16 * r;
    let kind = little::u8_at(rows, at + 2);
    let len = little::u32_at(rows, at + 4);
    let bits = little::u64_at(rows, at + 8);
    little::u8_at(rows, at + 3) == 0 && values::judge(text, kind, len, bits).is_some()
}

// Whether a schema's property row is good by itself.
fn good_listed(rows: &[u8], r: usize) -> bool
    requires { 4 * r + 4 ≤ length rows.now }
    ensures { Says result (GoodListed rows.now r) }
{
    let kind = little::u8_at(rows, 4 * r + 2);
    1 <= kind && kind <= 5 && little::u8_at(rows, 4 * r + 3) <= 1
}

// Whether a property row is good by itself.
fn own_row(file: File, rows: &[u8], text: usize, r: usize) -> bool
    requires { (row_width file * r + row_width file ≤ length rows.now) × (text ≤ 4294967295) }
    ensures { Says result (OwnRow file text rows.now r) }
{
    match file {
        File::Graph => good_property(rows, text, r),
        File::Schema => good_listed(rows, r),
    }
}

// Whether a row is good in a run that starts at `first`.
fn good_row(file: File, n: Trailer, t: TableBytes<'_>, first: usize, r: usize) -> bool
    requires { (row_width file * r + row_width file ≤ length t.rows.now) × (length t.text.now ≤ 4294967295) }
    ensures { Says result (GoodIn file t.entry.rows.now (length t.entry.text.now) n.names first r) }
{
    let name = name_at(file, t.rows, r);
    name < n.names
        && (r <= first || name_at(file, t.rows, r - 1) < name)
        && own_row(file, t.rows, t.text.len(), r)
}

// The lowest bad row of a run.
fn bad_in_run(file: File, n: Trailer, t: TableBytes<'_>, first: usize, end: usize) -> Option<usize>
    requires { (row_width file * end ≤ length t.rows.now) × (length t.text.now ≤ 4294967295) × (first ≤ end) }
    ensures { Finds result end (λ r. first ≤ r → GoodIn file t.entry.rows.now (length t.entry.text.now) n.names first r) }
{
    for r in first..end {
        if !good_row(file, n, t, first, r) {
            return Some(r);
        }
    }
    None
}

// The lowest bad row up to the end of the next run.
fn bad_up_to(file: File, n: Trailer, t: TableBytes<'_>, p: Reached, end: usize) -> Option<usize>
    requires { (row_width file * end ≤ length t.rows.now) × (length t.text.now ≤ 4294967295) × (p.next ≤ end) }
    ensures { Extends result p.bad p.next end (GoodIn file t.entry.rows.now (length t.entry.text.now) n.names p.next) }
{
    match p.bad {
        Some(k) => Some(k),
        // no `or_else`: what a closure promises of slices that it holds in `t` does not reach this proof
        None => bad_in_run(file, n, t, p.next, end),
    }
}

// ---- tables

// How many rows the nodes or the edges have.
fn count_of(sort: Sort, n: Trailer) -> usize
    ensures { result ≡ of sort n.nodes n.edges }
{
    match sort {
        Sort::Nodes => n.nodes,
        Sort::Edges => n.edges,
    }
}

// What is said of a bad row of the nodes or the edges.
fn bad_object(sort: Sort, i: u32) -> Refused
    ensures { result ≡ of sort (Refused.Node i) (Refused.Edge i) }
{
    match sort {
        Sort::Nodes => Refused::Node(i),
        Sort::Edges => Refused::Edge(i),
    }
}

// Goes through the nodes or the edges, and through their runs with them, so that every table is read once.
fn walk_through(
    file: File,
    sort: Sort,
    n: Trailer,
    t: TableBytes<'_>,
    before: Reached,
) -> Result<Reached, Refused>
    requires given { Given file n (body_in t) }
    requires stands { Stands file n (body_in t) sort 0 before }
    ensures { Walks result file n (body_in t.entry) sort }
{
    let mut p = before;
    for i in 0..count_of(sort, n) {
        let h = formats::head(file, sort, t, i);
        if !good_head(h, n, p.next) || !own_object(file, sort, t, i, n.nodes) {
            return Err(bad_object(sort, i as u32));
        }
        let end = p.next + h.count;
        p = Reached {
            next: end,
            bad: bad_up_to(file, n, t, p, end),
        };
    }
    Ok(p)
}

// 6 to 8, or 13 to 15.
pub fn try_rows(file: File, n: Trailer, t: TableBytes<'_>) -> Result<(), Refused>
    requires { Given file n (body_in t) }
    ensures { Tries result file n (body_in t.entry) }
{
    let at_first = Reached { next: 0, bad: None };
    let p = walk_through(file, Sort::Nodes, n, t, at_first)?;
    let q = walk_through(file, Sort::Edges, n, t, p)?;
    match q.bad {
        Some(r) => Err(Refused::Row(r as u32)),
        None if q.next < n.rows => Err(Refused::Row(q.next as u32)),
        None => Ok(()),
    }
}
