// The small program for angle sheets: the sheet from standard input, its graph file to standard output. A refusal goes to standard
// error as its code and its line, and nothing to standard output.
#![tactic(auto)]

use std::io;

// A good sheet has 3,825 bytes at most, and a longer one is refused as its first 3,826 bytes are; its graph has 13,108 at most.
fn main(rt: HostRuntime) -> io::Result<()> {
    let mut sheet = [0u8; 3826];
    let (n, _) = streams::read_full(&mut rt.stdin(), &mut sheet);
    let mut graph = [0u8; 13108];
    let o = sheet::read_sheet(&sheet[..n], &mut graph);
    if o.code != 0 {
        return eprintln!(rt; "{} {}", o.code, o.number);
    }
    rt.write_all(&graph[..o.number as usize])
}
