//! Reading a whole code.
ghost use Rattle.std.specs.Prelude.{◌≡◌, ◌≤◌, [], length};
ghost use Rattle.semantics.specs.Sizes.{most_instructions, most_names};
ghost use Rattle.std.specs.Option.{option_map};
ghost use Rattle.reading.specs.Arena.{term, InArena};
ghost use Rattle.reading.specs.Reading.{attempt, ReadsAsShown, ReadsFromLayout, ReadsTranslations};
ghost use Rattle.reading.specs.Workspace.{workspace_of, root};

use crate::reader::Reader;
use semantics::layout::Instruction;

impl Reader {
    /// Reads a code forward, with so many inputs past the binders: the place of its term in the arena, or none where it is no
    /// term's.
    pub fn read(&mut self, code: &[Instruction], inputs: usize) -> Option<usize>
        requires long { length code.now ≤ most_instructions }
        requires few { inputs ≤ most_names }
        ensures term { attempt code.now inputs [] [] ≡ option_map (term (workspace_of self.new).nodes) result }
        ensures place { InArena (workspace_of self.new).nodes result }
    {
        self.nodes.clear();
        self.stack.clear();
        self.marks.clear();
        // No `From` joins these types, and `as` is proved to lose nothing.
        self.scope = inputs as u64;
        let (last, front) = code.split_last()?;
        for instruction in front {
            self.step(*instruction)?;
        }
        self.root(*last)
    }

    /// The only node left when END comes last.
    #[tactic(auto, using(crate::proofs::Turns::open_not_sole))]
    fn root(&self, last: Instruction) -> Option<usize>
        ensures { result ≡ root last (workspace_of self.now) }
    {
        match (last, self.stack.as_slice(), self.marks.is_empty()) {
            (Instruction::End, [root], true) => Some(*root),
            _ => None,
        }
    }
}

/// The translation of a term in scope reads as that term.
pub fn reads_translations()
    ensures { ReadsTranslations }
{}

/// A code that reads as a term is shown as that term.
pub fn reads_as_shown()
    ensures { ReadsAsShown }
{}

/// Reading does not look at the places of nodes, which the caller's layout of code does not have.
pub fn reads_from_layout()
    ensures { ReadsFromLayout }
{}
