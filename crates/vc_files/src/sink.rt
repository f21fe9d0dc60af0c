ghost use Rattle.std.specs.Prelude.{List, ℕ, Option, OnOk, OnErr};
ghost use Rattle.std.specs.Io.KnownBytes.{Appends};
ghost use Rattle.vc_files.specs.Sink.{AppendsFront, HasCause};

/// Why a piece was not written whole.
#[derive(Clone, Copy, Debug, PartialEq, Eq)]
pub enum WriteFault {
    /// The sink refused some of the bytes, and has counted the fault.
    Failed,
}

/// A sink that is given whole pieces of bytes.
///
/// A sink in memory tells what was written. Standard output tells nothing, and only its count of faults is seen.
pub trait Sink {
    /// What was written, where it tells this.
    ghost written: { Self → Option (List ℕ) };

    /// How often it has failed. The count stays at 2^64 - 1 once it is there.
    ghost faults: { Self → ℕ };

    /// Writes all the bytes, or at a failure a front of them.
    fn write_all(&mut self, bytes: &[u8]) -> Result<(), WriteFault>
        ensures ok { OnOk result (Appends (written self.old) (written self.new) bytes.now) }
        ensures err { OnErr result (AppendsFront (written self.old) (written self.new) bytes.now) }
        ensures cause { HasCause (faults self.old) (faults self.new) result };
}
