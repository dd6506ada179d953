// The rows of a run, one after another.
ghost use Rattle.std.specs.Prelude.{◌+◌, ◌*◌, ◌≤◌, length};

use layout::Head;

// Above every name, which is a number of 16 bits: one comparison orders the two names ahead, and tells the end of a run as well. A row ahead that is an
// Option takes a second test at each step of the walk.
pub(crate) const NO_NAME: u32 = 65536;

// The row ahead in a run, by the numbers that stand in the table: its name, its kind (of a listed row, its type) and its flag. After the last row it has
// no name.
#[derive(Clone, Copy)]
pub(crate) struct Row {
    pub(crate) name: u32,
    pub(crate) kind: u32,
    pub(crate) flag: u32,
}

impl Row {
    ghost use Rattle.std.specs.Prelude.{◌≡◌, ◌<◌};
    ghost use Rattle.records.specs.Walk.{row_at, no_name};

    // Row r of a table whose rows have `width` bytes. No other function of this crate reads a row.
    fn at(rows: &[u8], width: usize, r: usize) -> Row
        requires { width * r + 4 ≤ length rows.now }
        ensures { (result ≡ row_at width rows.now r) × (result.name < no_name) }
    {
        let v = little::u32_at(rows, width * r);
        Row {
            name: v % 65536,
            kind: v / 65536 % 256,
            flag: v / 16777216,
        }
    }
}

// A run of rows of `width` bytes, cut out of its table, and how many of them are read.
#[derive(Drop)]
pub(crate) struct Run<'a> {
    rows: &'a [u8],
    width: usize,
    count: usize,
    read: usize,
    ghost in_table: { (4 ≤ width) × (width * count ≤ length rows.now) },
    ghost within: { read ≤ count },
}

impl<'a> Run<'a> {
    ghost use Rattle.records.specs.Walk.{Starts, Goes};

    // Before its first row. The table is cut here, once, so that the walk counts from the run's first row.
    pub(crate) fn new(table: &'a [u8], width: usize, head: Head) -> Run<'a>
        requires { (4 ≤ width) × (width * (head.first + head.count) ≤ length table.now) }
        ensures { Starts width table.entry.now head result }
    {
        Run {
            rows: &table[width * head.first..],
            width,
            count: head.count,
            read: 0,
        }
    }

    // The next row comes ahead.
    pub(crate) fn next(&mut self) -> Row
        ensures { Goes self.old self.new result }
    {
        if self.read == self.count {
            return Row {
                name: NO_NAME,
                kind: 0,
                flag: 0,
            };
        }
        let row = Row::at(self.rows, self.width, self.read);
        self.read += 1;
        row
    }
}
