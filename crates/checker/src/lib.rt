// The answer that a graph file and a schema file are owed: the graph's refusal, else the schema's, else what the four rules say.
#![tactic(auto)]

ghost use Rattle.std.specs.Prelude.{◌≡◌};
ghost use Rattle.meaning.specs.Answer.{answer};
ghost use Rattle.layout.specs.Files.{ceilings, small_ceilings};
ghost use Rattle.layout.specs.Codes.{code_of, place_of};
ghost use Rattle.layout.specs.Checked.{Answers};
ghost use Rattle.telling.specs.Told.{answer_in};

use layout::{File, Refusal, Refused};
use telling::Finding;

// What is told of a refusal: its code, its place, and zeros.
fn refused(r: Refusal) -> Finding
    ensures { answer_in result ≡ answer (code_of r.file r.cause) (place_of r.cause) 0 0 0 }
{
    Finding {
        code: formats::code_of(r.file, r.cause),
        place: formats::place_of(r.cause),
        schema: 0,
        count: 0,
        property: 0,
    }
}

// The five numbers that any two files are owed.
pub fn judge(graph: &[u8], schema: &[u8]) -> Finding
    ensures { Answers (ceilings File.Graph) (ceilings File.Schema) graph.now schema.now (answer_in result) }
{
    match reader::read_pair(graph, schema) {
        Ok(p) => rules::judge(&p),
        Err(r) => refused(r),
    }
}

// The same for the small program, whose longest graph is shorter: "The program takes graphs up to 40,000 bytes and schemas up to 16,384".
pub fn judge_small(graph: &[u8], schema: &[u8]) -> Finding
    ensures { Answers (small_ceilings File.Graph) (small_ceilings File.Schema) graph.now schema.now (answer_in result) }
{
    if 40000 < graph.len() {
        return refused(Refusal {
            file: File::Graph,
            cause: Refused::Length,
        });
    }
    judge(graph, schema)
}
