// The small program: the graph from standard input and the schema from schema.bin, answered in one line.
#![tactic(auto)]

use std::io;

// The buffers have a byte more than the program takes, so that a longer file is seen to be longer.
fn main(rt: HostRuntime) -> io::Result<()> {
    let mut graph = [0u8; 40001];
    let (n, _) = streams::read_full(&mut rt.stdin(), &mut graph);
    let mut schema = [0u8; 16385];
    let m = streams::load(&rt, "schema.bin", &mut schema);
    println!(rt; "{}", checker::judge_small(&graph[..n], &schema[..m]))
}
