ghost use Rattle.std.specs.Prelude.{◌≡◌, ◌+◌, ◌-◌, ◌^◌, ◌<◌, ◌≤◌, ◌∷◌, [], ℕ, Some, map, min, length, IfOk, IsErrOf, MatchOption};
ghost use Rattle.vc_files.specs.Files.{Bytes, Holds, Lacks, Grows, Added};
ghost use Rattle.vc_files.specs.Reading.{IsUnfailed, Brings, Records, Fails, HasReadCause, IsFailedOrMemory};
ghost use Rattle.vc_files.specs.MemFile.{entry};

use crate::{Files, ReadFault};
use std::alloc::Global;

/// A file in memory: its name and all its bytes.
#[derive(Drop)]
pub struct MemFile {
    pub name: String,
    pub bytes: Vec<u8>,
}

/// Files in memory, for tests and for theorems over known bytes. Calls with given numbers fail.
#[derive(Drop)]
pub struct MemFiles {
    alloc: Global,
    files: Vec<MemFile>,
    failing: Vec<u64>,
    failed: Vec<String>,
    calls: u64,
}

/// The bytes of the first file of this name.
fn find<'f>(files: &'f [MemFile], name: &str) -> Option<&'f [u8]>
    ensures { MatchOption result (Lacks (map entry files.now) name.now)
        (λ bytes. Holds (map entry files.now) name.now bytes.now) }
{
    for file in files {
        if file.name.as_str() == name {
            return Some(file.bytes.as_slice());
        }
    }
    None
}

impl MemFiles {
    ghost use Rattle.vc_files.specs.MemFiles.{mem_held, mem_faults, mem_failing, mem_calls};

    /// A store of these files, of which the first of equal names counts.
    ///
    /// Its calls of `read_all` are numbered from 0, and those with a number in `failing` fail. From the call with the
    /// number 2^64 - 1 on, every call has this number. The allocator serves the names among the faults and the bytes
    /// that are read.
    pub fn new(alloc: Global, files: Vec<MemFile>, failing: Vec<u64>) -> MemFiles
        ensures held { mem_held result ≡ map entry files.items }
        ensures failing { mem_failing result ≡ failing.items }
        ensures calls { mem_calls result ≡ 0 }
        ensures faults { mem_faults result ≡ [] }
    {
        MemFiles {
            alloc,
            files,
            failing,
            failed: Vec::new(alloc),
            calls: 0,
        }
    }

    /// The bytes that the call of this number finds under a name, unless it fails.
    #[tactic(auto, using(crate::proofs::Names::number_in, crate::proofs::Names::number_out))]
    fn look_up(&self, number: u64, name: &str) -> Option<&[u8]>
        ensures { MatchOption result (Fails (mem_failing self.now) number (mem_held self.now) name.now)
            (λ bytes. (¬ Fails (mem_failing self.now) number (mem_held self.now) name.now) × Holds (mem_held self.now) name.now bytes.now) }
    {
        if self.failing.contains(&number) {
            return None;
        }
        find(&self.files, name)
    }
}

impl Files for MemFiles {
    ghost use Rattle.vc_files.specs.MemFiles.{mem_held, mem_faults, mem_failing, mem_calls};

    ghost held = { λ s. Some (mem_held s) };

    ghost faults = { λ s. mem_faults s };

    /// Copies the name and makes room for it among the faults, which may answer `Memory`. After that it answers `Failed`
    /// exactly where the call is to fail or the name is not held, and adds the name to the faults.
    #[tactic(auto, using(crate::proofs::OneFile::one_file))]
    fn read_all(&mut self, name: &str, most: u64) -> Result<Vec<u8>, ReadFault>
        ensures held { mem_held self.new ≡ mem_held self.old }
        ensures faults { Grows (name.now ∷ []) (mem_faults self.old) (mem_faults self.new) }
        ensures read { IfOk result (λ got. Holds (mem_held self.old) name.now got.items × (length got.items ≤ most)) }
        ensures failed { IsErrOf result ReadFault.Failed → Added (mem_faults self.old) (mem_faults self.new) }
        ensures too_long { (taken : ℕ) → IsErrOf result (ReadFault.TooLong taken) → (taken ≡ most + 1)
            × (bytes : Bytes) × Holds (mem_held self.old) name.now bytes × (most < length bytes) }
        ensures unfailed { mem_faults self.new ≡ mem_faults self.old → IsUnfailed result }
        ensures told { (bytes : Bytes) → Holds (mem_held self.old) name.now bytes
            → mem_faults self.new ≡ mem_faults self.old → Brings bytes most result }

        // Which call fails, and what each call leaves.
        ensures cause { HasReadCause (mem_failing self.old) (mem_calls self.old) (mem_held self.old) name.now most result }
        ensures fails { Fails (mem_failing self.old) (mem_calls self.old) (mem_held self.old) name.now
            → IsFailedOrMemory result }
        ensures recorded { Records name.now (mem_faults self.old) (mem_faults self.new) result }
        ensures calls { mem_calls self.new ≡ min (mem_calls self.old + 1) (2 ^ 64 - 1) }
        ensures failing { mem_failing self.new ≡ mem_failing self.old }
    {
        let number = self.calls;
        self.calls = self.calls.saturating_add(1);
        let copy = String::from_str(self.alloc, name).map_err(ReadFault::Memory)?;
        self.failed.reserve(1).map_err(ReadFault::Memory)?;
        let Some(bytes) = self.look_up(number, name) else {
            self.failed.push(copy).unwrap();
            return Err(ReadFault::Failed);
        };
        if most < bytes.len() as u64 {
            return Err(ReadFault::TooLong { taken: most + 1 });
        }
        bytes.to_vec(self.alloc).map_err(ReadFault::Memory)
    }
}
