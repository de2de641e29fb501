// The exit statuses.

ghost use Rattle.std.specs.Prelude.{◌≡◌};
ghost use Rattle.engine.specs.Status.{code_of};

/// How a call ended. The program's exit status is its code.
#[derive(Clone, Copy, Debug, PartialEq, Eq)]
pub enum Status {
    /// The whole output was written.
    Done,
    /// The whole output was written, and its last line is a fault's.
    Faulted,
    /// The words aren't a command. Nothing was read.
    Words,
    /// The script has more than 1048576 bytes, isn't in the grammar, or isn't valid. `fmt` takes one that isn't valid.
    Script,
    /// A read of the script failed.
    Read,
    /// A write of the output failed. A prefix of it was written.
    Write,
    /// Memory ran out. Nothing was written to the output.
    Memory,
    /// No strand has the pedigree that was asked for, or a child's fault ends the way down to it. Nothing was written
    /// to the output.
    NoStrand,
}

impl Status {
    /// 0 to 7, in the order of the variants.
    pub fn code(self) -> u8
        ensures { result ≡ code_of self }
    {
        self as u8
    }
}
