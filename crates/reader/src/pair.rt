// Reading the two files of a check.
ghost use Rattle.reader.specs.Pair.{ReadsTables, ReadsPair};

use crate::read_file;
use layout::{File, Refusal};
use parts::{FileTables, Pair};

// The tables of an accepted file, or its refusal.
pub fn read_tables(file: File, bytes: &[u8]) -> Result<FileTables<'_>, Refusal>
    ensures { ReadsTables result file bytes.now }
{
    match read_file(file, bytes) {
        Ok(t) => Ok(FileTables::new(file, bytes, t)),
        Err(cause) => Err(Refusal { file, cause }),
    }
}

// Both files, accepted, or the refusal that they are owed: the graph's, else the schema's.
pub fn read_pair<'a>(graph: &'a [u8], schema: &'a [u8]) -> Result<Pair<'a>, Refusal>
    ensures { ReadsPair result graph.now schema.now }
{
    let g = read_tables(File::Graph, graph)?;
    let s = read_tables(File::Schema, schema)?;
    Ok(Pair::new(g, s))
}
