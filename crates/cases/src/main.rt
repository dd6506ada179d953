// Runs every example: the arguments are a graph file and a schema file, in turn, and each pair gets a line.
#![tactic(auto)]

ghost use Rattle.std.specs.Prelude.{◌≤◌};
ghost use Rattle.streams.specs.Reads.{IsPrefixLen};

use std::env::FillError;
use std::rt::{Env, Files};
use std::{io, str};

// The most arguments that are taken, the program's name among them: where there are more, no pair is.
const MOST_ARGUMENTS: usize = 4096;

// ---- a pair of files

// The buffers have a byte more than the small program takes, so that a longer file is seen to be longer.
fn run_files<R: Files + Print>(rt: &R, graph_path: &str, schema_path: &str) -> io::Result<()> {
    let mut graph = [0u8; 40001];
    let n = streams::load(rt, graph_path, &mut graph);
    let mut schema = [0u8; 16385];
    let m = streams::load(rt, schema_path, &mut schema);
    println!(rt; "{}", checker::judge_small(&graph[..n], &schema[..m]))
}

// ---- the arguments

// Puts the argument at the start of the buffer and says how long it is; one that is longer than the buffer counts as empty.
fn argument<R: Env>(rt: &R, i: usize, buf: &mut [u8]) -> usize
    ensures { IsPrefixLen result buf.new }
{
    rt.arg(i, buf).unwrap_or(0)
}

// The path that the bytes are. One that is no text cannot be opened here, and counts as empty, which is no file's.
fn path_of(bytes: &[u8]) -> &str {
    str::from_utf8(bytes).unwrap_or("")
}

// The pair of files that two of the arguments name.
fn run_arguments<R: Env + Files + Print>(
    rt: &R,
    graph_arg: usize,
    schema_arg: usize,
) -> io::Result<()> {
    let mut graph = [0u8; 64];
    let n = argument(rt, graph_arg, &mut graph);
    let mut schema = [0u8; 64];
    let m = argument(rt, schema_arg, &mut schema);
    run_files(rt, path_of(&graph[..n]), path_of(&schema[..m]))
}

// How many arguments there are, the program's name among them, or one more than are taken.
fn argument_count<R: Env>(rt: &R) -> usize
    ensures { result ≤ 4097 }
{
    let mut argument = [0u8; 64];
    for i in 0..=MOST_ARGUMENTS {
        if let Err(FillError::NotPresent) = rt.arg(i, &mut argument) {
            return i;
        }
    }
    MOST_ARGUMENTS + 1
}

fn main(rt: HostRuntime) -> io::Result<()> {
    let count = argument_count(&rt);
    if MOST_ARGUMENTS < count {
        return Ok(());
    }
    for pair in 0..count.saturating_sub(1) / 2 {
        run_arguments(&rt, 2 * pair + 1, 2 * pair + 2)?;
    }
    Ok(())
}
