// The two graphs that are joined, accepted.
ghost use Rattle.layout.specs.declared.File.TheVariants.{Graph};
ghost use Rattle.parts.specs.Accepted.{Good};

use layout::File;
use parts::FileTables;

// The tables of the first graph and those of the second.
#[derive(Clone, Copy)]
pub struct Graphs<'a> {
    pub first: FileTables<'a>,
    pub second: FileTables<'a>,
    ghost first_good: { ∥ Good Graph first ∥₁ },
    ghost second_good: { ∥ Good Graph second ∥₁ },
}

impl<'a> Graphs<'a> {
    ghost use Rattle.std.specs.Prelude.{◌≡◌};

    pub(crate) fn new(first: FileTables<'a>, second: FileTables<'a>) -> Graphs<'a>
        requires { Good File.Graph first × Good File.Graph second }
        ensures { (result.first ≡ first.entry) × (result.second ≡ second.entry) }
    {
        Graphs { first, second }
    }
}
