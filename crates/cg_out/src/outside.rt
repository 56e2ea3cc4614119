//! What the program is handed of the outside.
ghost use Rattle.std.specs.Prelude.{◌≡◌, ◌<◌, ◌++◌, List, ℕ, OnOk, OnErr};
ghost use Rattle.std.specs.FinMap.{insert};
ghost use Rattle.cg_out.specs.Outside.{FilesSeen, SinkSeen, HasCause, CountsCall, Reads, HasReadCause, IsTornWrite, IfTold, IsFront};

use crate::fault::{Failed, ReadFault};

/// Files by their names, as bytes. What they hold and how many calls there were is told by some
/// implementations and not by others; what was told once may cease to be, and never begins again.
pub trait Files {
    /// The bytes under each name, where that is told; how often the outside has failed, a count
    /// that stands still at 18446744073709551615; and how many calls there were, whatever they
    /// answered, where that is told.
    ghost seen: { Self → FilesSeen };

    /// Appends the first `limit + 1` bytes of the file, or all of a shorter one.
    fn read(&mut self, name: &[u8], limit: usize, into: &mut Vec<u8>) -> Result<(), ReadFault>
        requires { limit < usize.MAX }
        ensures ok { OnOk result (Reads (seen self.old).content name.now limit into.old.items into.new.items) }
        ensures err { OnErr result (into.new.items ≡ into.old.items) }
        ensures content { (seen self.new).content ≡ (seen self.old).content }
        ensures cause { HasReadCause (seen self.old).content name.now (seen self.old).faults (seen self.new).faults result }
        ensures calls { CountsCall (seen self.old).calls (seen self.new).calls };

    /// Sets the file to the bytes, and takes no memory. After a failure the name holds its old
    /// bytes or the first of the new ones.
    fn write(&mut self, name: &[u8], bytes: &[u8]) -> Result<(), Failed>
        ensures ok { OnOk result (IfTold (seen self.old).content (seen self.new).content (λ a b. b ≡ insert a name.now bytes.now)) }
        ensures err { OnErr result (IfTold (seen self.old).content (seen self.new).content (λ a b. IsTornWrite a b name.now bytes.now)) }
        ensures cause { HasCause (seen self.old).faults (seen self.new).faults result }
        ensures calls { CountsCall (seen self.old).calls (seen self.new).calls };
}

/// Where reports go, as bytes, and words for a person.
pub trait Sink {
    /// All bytes so far, where they are told, and the counts as those of files.
    ghost seen: { Self → SinkSeen };

    /// Appends the bytes, and takes no memory. After a failure the first of them stand there.
    fn write(&mut self, bytes: &[u8]) -> Result<(), Failed>
        ensures ok { OnOk result (IfTold (seen self.old).written (seen self.new).written (λ a b. b ≡ a ++ bytes.now)) }
        ensures err { OnErr result (IfTold (seen self.old).written (seen self.new).written (λ a b. (front : List ℕ) × IsFront front bytes.now × (b ≡ a ++ front))) }
        ensures cause { HasCause (seen self.old).faults (seen self.new).faults result }
        ensures calls { CountsCall (seen self.old).calls (seen self.new).calls };

    /// Says to a person at a terminal why the text of a file is refused, by a sentence and where it
    /// shows: a line, 0 where the text as a whole is meant, and maybe a column, both counted from 1.
    /// Nothing is told of it, and no report is touched.
    fn explain(&mut self, file: &[u8], line: u32, column: Option<u32>, message: &str)
        ensures { seen self.new ≡ seen self.old };
}
