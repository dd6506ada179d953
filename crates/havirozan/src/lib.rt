// Havirozan as a C program calls it: the checker, the list of all violations, the writer, where the tables of a graph file lie, the reader of angle sheets, and the joiner.
#![tactic(auto)]

ghost use Rattle.std.specs.Prelude.{◌≡◌, ◌++◌, ◌≤◌, length, drop};
ghost use Rattle.layout.specs.Files.{ceilings, body};
ghost use Rattle.layout.specs.Codes.{code_of, place_of};
ghost use Rattle.layout.specs.Checked.{reply, Checked};
ghost use Rattle.telling.specs.Told.{finding_of, answer_in};
ghost use Rattle.faults.specs.Lists.{ListsAll};
ghost use Rattle.writer.specs.Writes.{Writes};
ghost use Rattle.sheet.specs.Reads.{ReadsSheet};
ghost use Rattle.join.specs.Joins.{Joins};
ghost use Rattle.havirozan.specs.TablePlaces.{no_tables, places_of, TablesLie};
ghost use Rattle.havirozan.specs.Inner.{Small};

use faults::Listed;
use layout::{File, Refused, TableBytes, Tables};
use telling::Finding;
use writer::Outcome;

// Where the tables of a graph file lie, from its first byte on, and how many rows or text bytes each has; or a refusal. C has this struct.
#[repr(C)]
#[derive(Clone, Copy, Default)]
pub struct TablePlaces {
    pub code: u32,
    pub place: u32,
    pub nodes_at: u32,
    pub nodes: u32,
    pub edges_at: u32,
    pub edges: u32,
    pub rows_at: u32,
    pub rows: u32,
    pub text_at: u32,
    pub text: u32,
    pub labels: u32,
    pub names: u32,
}

// ---- the checker

// Puts the 20 bytes of the answer at the start of the block; every byte from 20 on stays.
fn put_reply(r: Finding, answer: &mut [u8])
    requires { 20 ≤ length answer.old }
    ensures { answer.new ≡ reply (answer_in r) ++ drop 20 answer.old }
{
    little::put_u32(answer, 0, r.code);
    little::put_u32(answer, 4, r.place);
    little::put_u32(answer, 8, r.schema);
    little::put_u32(answer, 12, r.count);
    little::put_u32(answer, 16, r.property);
}

// The code of the graph and the schema; the five numbers of the answer stand in the block's first 20 bytes.
#[unsafe(no_mangle)]
pub extern "C" fn check(graph: &[u8], schema: &[u8], answer: &mut [u8]) -> u32
    ensures { Checked (ceilings File.Graph) (ceilings File.Schema) graph.now schema.now answer.old result answer.new }
{
    if answer.len() < 20 {
        return 1;
    }
    let r = checker::judge(graph, schema);
    put_reply(r, answer);
    r.code
}

// ---- the list of all violations

// Fills the list that is lent with what is told of every violation, in 01's order and as many as fit: code and place of a refusal, else 0 and 0, and the total.
#[unsafe(no_mangle)]
pub extern "C" fn check_all(graph: &[u8], schema: &[u8], list: &mut [Finding]) -> Listed
    ensures { ListsAll finding_of (ceilings File.Graph) (ceilings File.Schema) graph.now schema.now list.old result list.new }
{
    faults::list_all(graph, schema, list, |v| v)
}

// ---- the writer

// Writes the graph file that the lent tables are: 0 and its length, or a refusal and 0.
#[unsafe(no_mangle)]
pub extern "C" fn write_graph(
    nodes: &[u8],
    edges: &[u8],
    rows: &[u8],
    text: &[u8],
    labels: u32,
    names: u32,
    out: &mut [u8],
) -> Outcome
    ensures { Writes (body nodes.now edges.now rows.now text.now) labels names out.old result out.new }
{
    let tables = TableBytes {
        nodes,
        edges,
        rows,
        text,
    };
    writer::write_graph(tables, labels, names, out)
}

// ---- the tables of a file

// A refusal: no table.
fn refused(r: Refused) -> TablePlaces
    ensures { result ≡ no_tables (code_of File.Graph r) (place_of r) }
{
    TablePlaces {
        code: formats::code_of(File::Graph, r),
        place: formats::place_of(r),
        ..TablePlaces::default()
    }
}

// The tables of an accepted file as 32-bit numbers.
fn places_of(t: Tables) -> TablePlaces
    requires { Small t }
    ensures { result ≡ places_of t }
{
    let n = t.numbers;
    let s = t.starts;
    TablePlaces {
        code: 0,
        place: 0,
        nodes_at: s.nodes as u32,
        nodes: n.nodes as u32,
        edges_at: s.edges as u32,
        edges: n.edges as u32,
        rows_at: s.rows as u32,
        rows: n.rows as u32,
        text_at: s.text as u32,
        text: n.text as u32,
        labels: n.labels as u32,
        names: n.names as u32,
    }
}

// Where the tables of a graph file lie, or the refusal that it is owed.
#[unsafe(no_mangle)]
pub extern "C" fn find_tables(graph: &[u8]) -> TablePlaces
    ensures { TablesLie graph.now result }
{
    match reader::read_file(File::Graph, graph) {
        Ok(t) => places_of(t),
        Err(r) => refused(r),
    }
}

// ---- the angle sheet

// Reads an angle sheet and writes its graph: 0 and the file's length, or a refusal with the number of the line at fault, or 42 and 0.
#[unsafe(no_mangle)]
pub extern "C" fn read_sheet(sheet: &[u8], out: &mut [u8]) -> Outcome
    ensures { ReadsSheet sheet.now out.old result out.new }
{
    sheet::read_sheet(sheet, out)
}

// ---- two graphs joined

// Joins two graph files: 0 and the length written, a refusal of one of them with 0 or 1 for which, 44 and 0, or 42 and 0.
#[unsafe(no_mangle)]
pub extern "C" fn join_graphs(first: &[u8], second: &[u8], out: &mut [u8]) -> Outcome
    ensures { Joins first.now second.now out.old result out.new }
{
    join::join_graphs(first, second, out)
}
