// All the faults of a graph at once: the graph from standard input and the schema from schema.bin, and a line of five numbers for each violation.
#![tactic(auto)]

use std::io;

// The most violations that get a line.
const MOST_LINES: usize = 1024;

// ---- printing

// Five numbers in decimal, one space between, then a newline. No `Finding` is printed here, since a row has its numbers alone.
fn print_line(rt: &impl Print, numbers: [u32; 5]) -> io::Result<()> {
    let [code, place, schema, count, property] = numbers;
    println!(rt; "{code} {place} {schema} {count} {property}")
}

// The lines of the violations that were written, where there are `total` of them.
fn print_lines(rt: &impl Print, rows: &[[u32; 5]; MOST_LINES], total: usize) -> io::Result<()> {
    for row in rows.iter().take(total) {
        print_line(rt, *row)?;
    }
    Ok(())
}

// How many violations there are, where not all have a line. It starts with a word, so that nobody reads it as five numbers.
fn print_total(rt: &impl Print, total: u32) -> io::Result<()> {
    println!(rt; "and so on: {total} in all")
}

// ---- the two files

// The buffers have a byte more than the program takes, so that a longer file is seen to be longer. Without a violation there is one line, as `graphcheck` has it: the refusal, or zeros.
fn main(rt: HostRuntime) -> io::Result<()> {
    let mut graph = [0u8; 40001];
    let (n, _) = streams::read_full(&mut rt.stdin(), &mut graph);
    let mut schema = [0u8; 16385];
    let m = streams::load(&rt, "schema.bin", &mut schema);
    let mut rows = [[0u32; 5]; MOST_LINES];
    let listed = faults::check_rows_small(&graph[..n], &schema[..m], &mut rows);
    if listed.total == 0 {
        return print_line(&rt, [listed.code, listed.place, 0, 0, 0]);
    }
    print_lines(&rt, &rows, listed.total as usize)?;
    if MOST_LINES < listed.total as usize {
        print_total(&rt, listed.total)?;
    }
    Ok(())
}
