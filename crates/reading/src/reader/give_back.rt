//! Reading code back as a listing, into scratch and into the caller's records.
ghost use Rattle.std.specs.Prelude.{min};
ghost use Rattle.reading.specs.Written.{most_written};
ghost use Rattle.reading.specs.GiveBack.{reads_as, Listed, GivenBack};

use crate::MOST_WRITTEN;
use crate::reader::{Reader, Unread};
use crate::write::write;
use semantics::layout::{Instruction, MOST_INSTRUCTIONS, MOST_NAMES, Node};

impl Reader {
    // A code and the count of its inputs come from two places of the caller, and stand together in these calls alone.

    /// Leaves the listing of the term that a code reads as in `records`, where it fits the room.
    pub fn list(
        &mut self,
        code: &[Instruction],
        inputs: usize,
        room: usize,
    ) -> Result<usize, Unread>
        ensures listed { Listed (reads_as code.now inputs) self.new.records (min room most_written) result }
    {
        if code.len() > MOST_INSTRUCTIONS || inputs > MOST_NAMES {
            return Err(Unread::NoTranslation);
        }
        let root = self.read(code, inputs).ok_or(Unread::NoTranslation)?;
        self.stack.clear();
        self.stack.push(root);
        self.records.clear();
        let limit = room.min(MOST_WRITTEN);
        write(
            self.nodes.as_slice(),
            &mut self.stack,
            &mut self.records,
            limit,
        )?;
        Ok(self.records.len())
    }

    /// Writes the listing of the term that a code reads as over the caller's first records, where it fits.
    pub fn give_back(
        &mut self,
        code: &[Instruction],
        inputs: usize,
        out: &mut [Node],
    ) -> Result<usize, Unread>
        ensures { GivenBack (reads_as code.now inputs) out.old out.new result }
    {
        let n = self.list(code, inputs, out.len())?;
        out[..n].copy_from_slice(self.records.as_slice());
        Ok(n)
    }
}
