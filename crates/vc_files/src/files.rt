ghost use Rattle.std.specs.Prelude.{◌≡◌, ◌+◌, ◌<◌, ◌≤◌, ◌∷◌, [], List, ℕ, Option, length, IfOk, IsErrOf};
ghost use Rattle.vc_files.specs.Files.{Bytes, Held, Tells, Shows, Grows, Added};
ghost use Rattle.vc_files.specs.Reading.{IsUnfailed, Brings};

use std::alloc::AllocError;

/// Why a file was not read.
#[derive(Debug, Drop)]
pub enum ReadFault {
    /// The store could not give the file, and has added its name to its faults.
    Failed,
    /// The file has more bytes than were allowed. Reading stopped after `taken` of them, one more than allowed.
    TooLong { taken: u64 },
    /// No memory was left for the bytes, or for the name among the faults.
    Memory(AllocError),
}

/// A store of files that are read whole, by name.
///
/// A store in memory tells what it holds, so a caller's theorem can speak of the bytes. The files of the system tell
/// nothing, and only their list of faults is seen.
pub trait Files {
    /// The files that it holds, where it tells them.
    ghost held: { Self → Option Held };

    /// The names whose reading has failed, the latest last.
    ghost faults: { Self → List Bytes };

    /// All the bytes of the file of this name, if they are at most `most`.
    fn read_all(&mut self, name: &str, most: u64) -> Result<Vec<u8>, ReadFault>
        ensures held { held self.new ≡ held self.old }
        ensures faults { Grows (name.now ∷ []) (faults self.old) (faults self.new) }

        // Where each answer comes from.
        ensures read { IfOk result (λ got. Tells (held self.old) name.now got.items × (length got.items ≤ most)) }
        ensures failed { IsErrOf result ReadFault.Failed → Added (faults self.old) (faults self.new) }
        ensures too_long { (taken : ℕ) → IsErrOf result (ReadFault.TooLong taken) → (taken ≡ most + 1)
            × (bytes : Bytes) × Tells (held self.old) name.now bytes × (most < length bytes) }

        // What comes where the name was not added to the faults.
        ensures unfailed { faults self.new ≡ faults self.old → IsUnfailed result }
        ensures told { (bytes : Bytes) → Shows (held self.old) name.now bytes
            → faults self.new ≡ faults self.old → Brings bytes most result };
}
