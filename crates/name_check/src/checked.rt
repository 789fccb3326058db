ghost use Rattle.std.specs.Prelude.{◌≡◌, ◌<◌, ◌≤ℤ◌, [], pos};
ghost use Rattle.std.specs.List.{All};
ghost use Rattle.source_tree.specs.Numbers.{program_names, program_numbers};
ghost use Rattle.name_check.specs.Names.{name_faults};
ghost use Rattle.name_check.specs.Ties.{ties_of};

use source_tree::Program;
use sqlite_items::Items;

/// A program that keeps the rules of names, with each use of a name tied to its declaration.
#[derive(Debug, Drop)]
pub struct Checked {
    pub(crate) program: Program,
    pub(crate) ties: Items<u32>,
    pub ghost few: { program_names program < 4294967295 },
    pub ghost natural: { All (λ n. pos 0 ≤ℤ n) (program_numbers program) },
    pub ghost kept: { name_faults program ≡ [] },
    pub ghost tied: { ties ≡ ties_of program },
}

impl Checked {
    pub fn program(&self) -> &Program
        ensures program { result.now ≡ self.now.program }
        ensures kept { name_faults result.now ≡ [] }
    {
        &self.program
    }

    /// For each use of a name in text order the number of its declaration. Declared names are numbered from 0 in text
    /// order: a procedure takes one number, and then its parameters and locals theirs. The variable of a `for` is a use.
    pub fn ties(&self) -> &[u32]
        ensures ties { result.now ≡ ties_of self.now.program }
        ensures below { All (λ tie. tie < program_names self.now.program) result.now }
    {
        self.ties.as_slice()
    }
}
