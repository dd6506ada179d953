// The record test: whether the property rows of an object fit the rows that a schema object lists.
#![tactic(auto)]

ghost use Rattle.std.specs.Prelude.{◌≡◌, true};
ghost use Rattle.little.specs.Promise.{Says};
ghost use Rattle.meaning.specs.Fits.{Fits};
ghost use Rattle.records.specs.Record.{Tests, Runs, object_in_rows, shape_in_rows};
ghost use Rattle.records.specs.Walk.{Keeps, FirstLetter};

mod run;

use layout::Head;
use run::{NO_NAME, Run};

// The property rows of an object: their table, the text bytes, and the head that says where its run stands.
#[derive(Clone, Copy)]
pub struct ObjectRows<'a> {
    pub rows: &'a [u8],
    pub text: &'a [u8],
    pub head: Head,
}

// The rows that a schema object lists, and whether its type is open, as it stands in the file: 1 is open.
#[derive(Clone, Copy)]
pub struct ShapeRows<'a> {
    pub rows: &'a [u8],
    pub head: Head,
    pub opens: u16,
}

// The first of (b), (c), (d) that is broken, with the lowest name at fault by it.
#[derive(Clone, Copy)]
pub enum Misfit {
    Missing(u32),
    Unlisted(u32),
    Mistyped(u32),
}

// The lowest name at fault: the one held, or, where none is held, the name ahead, if it is at fault.
fn lowest(held: Option<u32>, name: u32, fault: bool) -> Option<u32>
    ensures { Keeps held name (fault ≡ true) result }
{
    held.or(fault.then_some(name))
}

// What is told of the lowest unlisted and the lowest wrongly typed name: (c) comes before (d).
fn first_letter(unlisted: Option<u32>, mistyped: Option<u32>) -> Result<(), Misfit>
    ensures { FirstLetter unlisted mistyped result }
{
    match (unlisted, mistyped) {
        (Some(name), _) => Err(Misfit::Unlisted(name)),
        (None, Some(name)) => Err(Misfit::Mistyped(name)),
        (None, None) => Ok(()),
    }
}

// The record test. Names rise in both runs, so that one walk down both at once is enough: the lower of the two names ahead is passed, equal ones together.
// Each row is read once at most.
#[inline(always)]
pub fn test(o: ObjectRows<'_>, s: ShapeRows<'_>) -> Result<(), Misfit>
    requires { Runs o.rows.now o.text.now o.head s.rows.now s.head }
    ensures { Tests result (object_in_rows o.entry) (shape_in_rows s.entry) }
{
    let mut object = Run::new(o.rows, 16, o.head);
    let mut shape = Run::new(s.rows, 4, s.head);
    let mut present = object.next();
    let mut asked = shape.next();
    let mut unlisted = None;
    let mut mistyped = None; // no range: each turn passes a row of the one run, of the other, or of both
    while asked.name < NO_NAME {
        if asked.name < present.name {
            // (b): the listed name is not present
            if asked.flag != 1 {
                return Err(Misfit::Missing(asked.name));
            }
            asked = shape.next(); // it is optional
        } else if present.name < asked.name {
            // (c): the present name is not listed
            unlisted = lowest(unlisted, present.name, s.opens != 1);
            present = object.next();
        } else {
            // (d): the name is present and listed
            mistyped = lowest(mistyped, present.name, present.kind != asked.kind);
            present = object.next();
            asked = shape.next(); // both are passed
        }
    }
    // the names left are not listed
    let rest = present.name < NO_NAME && s.opens != 1;
    first_letter(lowest(unlisted, present.name, rest), mistyped)
}

// Whether an object fits a schema object: the label sets are equal, and the record fits.
pub fn fits(o: ObjectRows<'_>, s: ShapeRows<'_>) -> bool
    requires { Runs o.rows.now o.text.now o.head s.rows.now s.head }
    ensures { Says result (Fits (object_in_rows o.entry) (shape_in_rows s.entry)) }
{
    o.head.labels == s.head.labels && test(o, s).is_ok()
}
