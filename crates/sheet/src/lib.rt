// Reading an angle sheet: its lines are read one after another, what they say is put into the tables of the sheet's graph, and
// these are lent to the writer.
#![tactic(auto)]

ghost use Rattle.std.specs.Prelude.{◌≡◌, ◌+◌, ◌*◌, ◌≤◌, ◌<◌, length};
ghost use Rattle.little.specs.Little.{written};
ghost use Rattle.layout.specs.Value.{Finite};
ghost use Rattle.writer.specs.Writes.{Writable, Writes};
ghost use Rattle.lines.specs.Promise.{Heads};
ghost use Rattle.sheet.specs.Tables.{node_row, edge_row, property_row, twos, angle_rows, node_table, edge_table, angle_tables};
ghost use Rattle.sheet.specs.Reads.{ReadsSheet};

use layout::{TableBytes, Trailer};
use lines::{Angle, Heading};
use writer::Outcome;

// ---- rows

// Puts node row i; every other byte stays.
fn put_node(nodes: &mut [u8], i: usize, labels: u64, first: u32, count: u32)
    requires { 16 * i + 16 ≤ length nodes.old }
    ensures { nodes.new ≡ written nodes.old (16 * i) (node_row labels first count) }
{
    let at = 16 * i;
    little::put_u64(nodes, at, labels);
    little::put_u32(nodes, at + 8, first);
    little::put_u32(nodes, at + 12, count);
}

// Puts edge row i, of an edge that leaves the Run, node 1, and has no property; every other byte stays.
fn put_edge(edges: &mut [u8], i: usize, labels: u64, target: u32, first: u32)
    requires { 24 * i + 24 ≤ length edges.old }
    ensures { edges.new ≡ written edges.old (24 * i) (edge_row labels 1 target first 0) }
{
    let at = 24 * i;
    little::put_u64(edges, at, labels);
    little::put_u32(edges, at + 8, 1);
    little::put_u32(edges, at + 12, target);
    little::put_u32(edges, at + 16, first);
    little::put_u32(edges, at + 20, 0);
}

// Puts property row r, its kind and its zero byte as one number; every other byte stays.
fn put_property(rows: &mut [u8], r: usize, name: u16, kind: u16, size: u32, value: u64)
    requires { (16 * r + 16 ≤ length rows.old) × (kind < 256) }
    ensures { rows.new ≡ written rows.old (16 * r) (property_row name kind size value) }
{
    let at = 16 * r;
    little::put_u16(rows, at, name);
    little::put_u16(rows, at + 2, kind);
    little::put_u32(rows, at + 4, size);
    little::put_u64(rows, at + 8, value);
}

// An Integer's bits: "64-bit two's complement".
fn bits_of(degrees: i64) -> u64
    ensures { result ≡ twos degrees }
{
    degrees.cast_unsigned()
}

// Puts the two property rows of angle i, behind the serial's, the date's and those of the angles before it.
fn put_angle(rows: &mut [u8], i: usize, a: Angle)
    requires { (32 * i + 64 ≤ length rows.old) × Finite a.coefficient }
    ensures { rows.new ≡ written rows.old (32 * i + 32) (angle_rows a) }
{
    put_property(rows, 2 * i + 2, 3, 2, 0, bits_of(a.degrees));
    put_property(rows, 2 * i + 3, 4, 3, 0, f64::to_bits(a.coefficient));
}

// ---- the tables that depend on the number of angles alone

// Puts the node rows: Sensor, Run, and n angles.
fn put_nodes(nodes: &mut [u8], n: usize)
    requires { (n ≤ 180) × (16 * n + 32 ≤ length nodes.old) }
    ensures { nodes.new ≡ written nodes.old 0 (node_table n) }
{
    put_node(nodes, 0, 1, 0, 1);
    put_node(nodes, 1, 2, 1, 1);
    for i in 0..n {
        put_node(nodes, i + 2, 4, 2 * i as u32 + 2, 2);
    }
}

// Puts the edge rows: OF, and one AT for each of n angles.
fn put_edges(edges: &mut [u8], n: usize)
    requires { (n ≤ 180) × (24 * n + 24 ≤ length edges.old) }
    ensures { edges.new ≡ written edges.old 0 (edge_table n) }
{
    let behind = 2 * n as u32 + 2;
    put_edge(edges, 0, 8, 0, behind);
    for i in 0..n {
        put_edge(edges, i + 1, 16, i as u32 + 2, behind);
    }
}

// Writes the graph of n angles, of which the property rows and the text are there already. What a good sheet gives are good tables,
// so they are not judged again.
fn write_tables(n: usize, rows: &[u8], serial: &[u8], out: &mut [u8]) -> Outcome
    requires { (n ≤ 180) × (length rows.now ≡ 32 * n + 32) × (length serial.now ≤ 32) × Writable (angle_tables n rows.now serial.now) 5 5 }
    ensures { Writes (angle_tables n rows.now serial.now) 5 5 out.old result out.new }
{
    let mut nodes = [0u8; 2912];
    put_nodes(&mut nodes, n);
    let mut edges = [0u8; 4344];
    put_edges(&mut edges, n);
    let numbers = Trailer {
        nodes: 2 + n,
        edges: 1 + n,
        rows: 2 + 2 * n,
        text: serial.len(),
        labels: 5,
        names: 5,
        back: 72 * n + 88 + serial.len(),
    };
    let tables = TableBytes {
        nodes: &nodes[..16 * n + 32],
        edges: &edges[..24 * n + 24],
        rows,
        text: serial,
    };
    writer::put_file(numbers, tables, out)
}

// ---- the sheet

// Reads the lines behind the first one, and writes the graph if all are good.
fn read_further(sheet: &[u8], h: Heading, out: &mut [u8]) -> Outcome
    requires { Heads sheet.now h }
    ensures { ReadsSheet sheet.now out.old result out.new }
{
    let mut rows = [0u8; 5792];
    put_property(&mut rows, 0, 0, 5, h.serial as u32, 0);
    put_property(&mut rows, 1, 1, 4, 0, h.date as u64);
    // no range: each line says where the next one starts, and n counts the angles
    let mut n = 0;
    let mut at = h.next;
    while at < sheet.len() {
        if n == 180 {
            return Outcome {
                code: 52,
                number: 182,
            };
        }
        let Some((angle, next)) = lines::angle_line(sheet, at) else {
            return Outcome {
                code: 52,
                number: n as u32 + 2,
            };
        };
        put_angle(&mut rows, n, angle);
        at = next;
        n += 1;
    }
    write_tables(n, &rows[..32 * n + 32], &sheet[..h.serial], out)
}

// Reads an angle sheet and writes its graph: 0 and the file's length, or a refusal with the number of the line at fault, or 42 and 0.
pub fn read_sheet(sheet: &[u8], out: &mut [u8]) -> Outcome
    ensures { ReadsSheet sheet.now out.old result out.new }
{
    let Some(h) = lines::first_line(sheet) else {
        return Outcome {
            code: 51,
            number: 1,
        };
    };
    read_further(sheet, h, out)
}
