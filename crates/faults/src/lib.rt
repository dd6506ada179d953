// All the faults at once: a list that the caller lends is filled with what is told of each violation, in 01's order.
#![tactic(auto)]

ghost use Rattle.std.specs.Prelude.{◌≡◌, ◌≤◌};
ghost use Rattle.meaning.specs.Answer.{Answer};
ghost use Rattle.layout.specs.Files.{ceilings, small_ceilings};
ghost use Rattle.telling.specs.Told.{answer_in};
ghost use Rattle.faults.specs.Lists.{listed_by, row_of, ListsAll};
ghost use Rattle.faults.specs.Finders.{ReadsFile, ReadsFiles, Opens, FinderStands, Goes};

use layout::{File, MOST_EDGES, MOST_NODES, Refusal, Tables};
use parts::{FileTables, Pair};
use rules::{Notes, Search};
use telling::Finding;

// What is returned beside the list: code and place of a refusal, else 0 and 0; and how many violations there are, whether or not the list has room for them.
// C has this struct.
#[repr(C)]
#[derive(Clone, Copy)]
pub struct Listed {
    pub code: u32,
    pub place: u32,
    pub total: u32,
}

// A search through two files: what it found last, where it stands, and the tables that were read, or the refusal. It is a plain value, whose opening is one
// (`open_one`): so it keeps where the tables lie and not their bytes, and reads the files itself.
#[derive(Clone, Copy)]
pub struct Finder {
    pub found: Option<Finding>,
    pub search: Search,
    pub files: Result<(Tables, Tables), Refusal>,
}

// ---- opening

// The tables of a file, or its refusal. By `map_err` it would be no plainer: what that promises speaks of the closure, and takes a lemma here.
fn read_file(file: File, bytes: &[u8]) -> Result<Tables, Refusal>
    ensures { ReadsFile result file bytes.now }
{
    match reader::read_file(file, bytes) {
        Ok(t) => Ok(t),
        Err(cause) => Err(Refusal { file, cause }),
    }
}

// The tables of both files, or the refusal that they are owed: the graph's, else the schema's.
fn read_files(graph: &[u8], schema: &[u8]) -> Result<(Tables, Tables), Refusal>
    ensures { ReadsFiles result graph.now schema.now }
{
    let t = read_file(File::Graph, graph)?;
    let u = read_file(File::Schema, schema)?;
    Ok((t, u))
}

// The refusal that the two files are owed, or a search that has passed nothing.
pub fn open(graph: &[u8], schema: &[u8]) -> Finder
    ensures { Opens graph.now schema.now result }
{
    Finder {
        found: None,
        search: rules::start(),
        files: read_files(graph, schema),
    }
}

// ---- finding

// The next violation, or that there is none. Refused files have none.
pub fn next(graph: &[u8], schema: &[u8], notes: &mut Notes, f: Finder) -> Finder
    requires { FinderStands graph.now schema.now notes.old.masks notes.old.places notes.old.counts f }
    ensures goes { Goes graph.now schema.now f result }
    ensures finder_stands { FinderStands graph.now schema.now notes.new.masks notes.new.places notes.new.counts result }
{
    let Ok((t, u)) = f.files else {
        return f;
    };
    let g = FileTables::new(File::Graph, graph, t);
    let s = FileTables::new(File::Schema, schema, u);
    let onward = rules::next(&Pair::new(g, s), notes, f.search);
    Finder {
        found: onward.found,
        search: onward.search,
        files: f.files,
    }
}

// What is returned beside the list.
pub fn listed_by(f: Finder, total: usize) -> Listed
    requires { total ≤ 4294967295 }
    ensures { result ≡ listed_by f.files total }
{
    let total = total as u32;
    match f.files {
        Ok(_) => Listed {
            code: 0,
            place: 0,
            total,
        },
        Err(r) => Listed {
            code: formats::code_of(r.file, r.cause),
            place: formats::place_of(r.cause),
            total,
        },
    }
}

// ---- the list

// Fills the list that is lent with what is told of every violation, as many as fit, each in the form that the caller picks.
pub fn list_all<R: Copy, F: Fn(Finding) -> R>(
    graph: &[u8],
    schema: &[u8],
    list: &mut [R],
    form: F,
) -> Listed
    ghost form_of: { Answer → R }
    requires is_callable { F.IsAlwaysCallable form }
    requires forms { (v : Finding) (r : R) → F.post form v r → r ≡ form_of (answer_in v) }
    ensures { ListsAll form_of (ceilings File.Graph) (ceilings File.Schema) graph.now schema.now list.old result list.new }
{
    let mut notes = Notes {
        masks: [0; MOST_NODES],
        places: [placing::NOWHERE; MOST_EDGES],
        counts: [0; MOST_NODES],
    };
    let mut total = 0; // no range: the violations beyond the room are counted, too
    let mut f = open(graph, schema);
    loop {
        f = next(graph, schema, &mut notes, f);
        let Some(v) = f.found else {
            return listed_by(f, total);
        };
        if total < list.len() {
            list[total] = form(v);
        }
        total += 1;
    }
}

// ---- the list as rows of five numbers

fn row(v: Finding) -> [u32; 5]
    ensures { result ≡ row_of (answer_in v) }
{
    [v.code, v.place, v.schema, v.count, v.property]
}

// Fills the rows that are lent with what is told of every violation, as many as fit.
pub fn check_rows(graph: &[u8], schema: &[u8], rows: &mut [[u32; 5]]) -> Listed
    ensures { ListsAll row_of (ceilings File.Graph) (ceilings File.Schema) graph.now schema.now rows.old result rows.new }
{
    list_all(graph, schema, rows, row)
}

// The same for the small program, whose longest graph is shorter: "The program takes graphs up to 40,000 bytes and schemas up to 16,384".
// `checker::judge_small` has the same bound, and returns something else.
pub fn check_rows_small(graph: &[u8], schema: &[u8], rows: &mut [[u32; 5]]) -> Listed
    ensures { ListsAll row_of (small_ceilings File.Graph) (small_ceilings File.Schema) graph.now schema.now rows.old result rows.new }
{
    if 40000 < graph.len() {
        return Listed {
            code: 2,
            place: 0,
            total: 0,
        };
    }
    check_rows(graph, schema, rows)
}
