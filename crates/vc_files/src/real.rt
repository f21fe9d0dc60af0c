ghost use Rattle.std.specs.Prelude.{◌≡◌, ◌≤◌, ◌<◌, ◌+◌, ◌∷◌, [], ℕ, None, length, false, IfOk, IsErrOf, OnOk};
ghost use Rattle.std.specs.Io.KnownBytes.{Appends, Consumes, IsAtEnd};
ghost use Rattle.vc_files.specs.Files.{Bytes, Tells, Shows, Grows, Added};
ghost use Rattle.vc_files.specs.Pieces.{IsMore};
ghost use Rattle.vc_files.specs.Reading.{IsUnfailed, Brings, Records};
ghost use Rattle.vc_files.specs.Sink.{HasCause, Counts};

use crate::{Files, ReadFault, Sink, WriteFault};
use std::alloc::{AllocError, Global};
use std::io::{ErrorKind, Read, Write};
use std::{fs, io};

/// The files of the system. What they hold is not told, so the clauses of a read speak of its faults and of its length.
#[derive(Drop)]
pub struct RealFiles<'r, R> {
    rt: &'r R,
    alloc: Global,
    failed: Vec<String>,
}

impl<'r, R: std::rt::Files> RealFiles<'r, R> {
    ghost use Rattle.vc_files.specs.RealFiles.{real_faults};

    /// The files that this runtime opens, by their paths. The allocator serves the names among the faults and the bytes
    /// that are read: a runtime that is known to open files only has none to lend.
    pub fn new(alloc: Global, rt: &'r R) -> RealFiles<'r, R>
        ensures { real_faults result ≡ [] }
    {
        RealFiles {
            rt,
            alloc,
            failed: Vec::new(alloc),
        }
    }
}

/// How many bytes are asked for at once.
const PIECE: usize = 8192;

/// One read, whose bytes are appended; whether more may come. A read that a signal cut short is no end.
fn read_into<R: Read>(reader: &mut R, room: &mut [u8], bytes: &mut Vec<u8>) -> io::Result<bool>
    requires { 0 < length room.old }
    ensures more { OnOk result (IsMore (R.remaining reader.old) (R.remaining reader.new) bytes.old.items bytes.new.items) }
    ensures bound { length bytes.new.items ≤ length bytes.old.items + length room.old }
    ensures end { IfOk result (λ more. more ≡ false → IsAtEnd (R.remaining reader.new)) }
{
    match reader.read(room) {
        Ok(0) => return Ok(false),
        Ok(count) => {
            bytes.extend_from_slice(&room[..count])?;
            return Ok(true);
        }
        Err(error) => {
            if error.kind() == ErrorKind::Interrupted {
                return Ok(true);
            }
            return Err(error);
        }
    }
}

/// The same, of at most so many bytes.
fn read_more<R: Read>(reader: &mut R, most: u64, bytes: &mut Vec<u8>) -> io::Result<bool>
    requires { 0 < most }
    ensures more { OnOk result (IsMore (R.remaining reader.old) (R.remaining reader.new) bytes.old.items bytes.new.items) }
    ensures bound { length bytes.new.items ≤ length bytes.old.items + most }
    ensures end { IfOk result (λ more. more ≡ false → IsAtEnd (R.remaining reader.new)) }
{
    let mut piece = [0; PIECE];
    let room = if most < PIECE as u64 {
        most as usize
    } else {
        PIECE
    };
    read_into(reader, &mut piece[..room], bytes)
}

/// The bytes that a reader gives, up to the first `most`.
///
/// No byte after these is read. A reader that fails in the middle gives no bytes, so what comes is never a shorter file.
fn take_bytes<R: Read>(alloc: Global, reader: &mut R, most: u64) -> io::Result<Vec<u8>>
    ensures bound { IfOk result (λ got. length got.items ≤ most) }
    ensures front { IfOk result (λ got. Consumes (R.remaining reader.old) (R.remaining reader.new) got.items) }
    ensures whole { IfOk result (λ got. length got.items < most → IsAtEnd (R.remaining reader.new)) }
{
    let mut bytes = Vec::new(alloc);
    for _ in 0..u64::MAX {
        let left = most - bytes.len() as u64;
        if left == 0 {
            return Ok(bytes);
        }
        if !read_more(reader, left, &mut bytes)? {
            return Ok(bytes);
        }
    }
    Err(ErrorKind::TimedOut.into())
}

/// The bytes of a file up to the first `most`.
fn file_bytes<R: std::rt::Files>(
    alloc: Global,
    rt: &R,
    name: &str,
    most: u64,
) -> io::Result<Vec<u8>> {
    take_bytes(alloc, &mut fs::open(rt, name)?, most)
}

impl<'r, R: std::rt::Files> Files for RealFiles<'r, R> {
    ghost use Rattle.vc_files.specs.RealFiles.{real_faults};

    ghost held = { λ _. None };

    ghost faults = { λ s. real_faults s };

    /// Copies the name and makes room for it among the faults, which may answer `Memory`, and then reads until nothing
    /// more comes, or until one byte more than `most` is there.
    fn read_all(&mut self, name: &str, most: u64) -> Result<Vec<u8>, ReadFault>
        ensures faults { Grows (name.now ∷ []) (real_faults self.old) (real_faults self.new) }
        ensures read { IfOk result (λ got. Tells None name.now got.items × (length got.items ≤ most)) }
        ensures failed { IsErrOf result ReadFault.Failed → Added (real_faults self.old) (real_faults self.new) }
        ensures too_long { (taken : ℕ) → IsErrOf result (ReadFault.TooLong taken) → (taken ≡ most + 1)
            × (bytes : Bytes) × Tells None name.now bytes × (most < length bytes) }
        ensures unfailed { real_faults self.new ≡ real_faults self.old → IsUnfailed result }
        ensures told { (bytes : Bytes) → Shows None name.now bytes
            → real_faults self.new ≡ real_faults self.old → Brings bytes most result }

        // What each call leaves.
        ensures recorded { Records name.now (real_faults self.old) (real_faults self.new) result }
    {
        let copy = String::from_str(self.alloc, name).map_err(ReadFault::Memory)?;
        self.failed.reserve(1).map_err(ReadFault::Memory)?;
        match file_bytes(self.alloc, self.rt, name, most.saturating_add(1)) {
            Ok(bytes) if bytes.len() as u64 <= most => Ok(bytes),
            Ok(_) => Err(ReadFault::TooLong { taken: most + 1 }),
            Err(e) if e.kind() == ErrorKind::OutOfMemory => Err(ReadFault::Memory(AllocError)),
            Err(_) => {
                self.failed.push(copy).unwrap();
                Err(ReadFault::Failed)
            }
        }
    }
}

/// Any writer as a sink. What was written is not told.
#[derive(Drop)]
pub struct RealSink<W> {
    to: W,
    faults: u64,
}

impl<W: Write + Drop> RealSink<W> {
    ghost use Rattle.vc_files.specs.RealSink.{real_sink_faults, real_sink_target};

    /// A sink that writes to `to`, as standard output, and flushes after each piece.
    pub fn new(to: W) -> RealSink<W>
        ensures faults { real_sink_faults result ≡ 0 }
        ensures target { real_sink_target result ≡ to }
    {
        RealSink { to, faults: 0 }
    }
}

impl<W: Write + Drop> Sink for RealSink<W> {
    ghost use Rattle.vc_files.specs.RealSink.{real_sink_faults, real_sink_target};

    ghost written = { λ _. None };

    ghost faults = { λ s. real_sink_faults s };

    /// Writes until all is taken, and flushes. A write that takes nothing is a failure.
    fn write_all(&mut self, bytes: &[u8]) -> Result<(), WriteFault>
        ensures cause { HasCause (real_sink_faults self.old) (real_sink_faults self.new) result }

        // A writer whose contents are known has taken all the bytes at Ok.
        ensures passed { OnOk result
            (Appends (W.contents (real_sink_target self.old)) (W.contents (real_sink_target self.new)) bytes.now) }
        ensures counted { Counts (real_sink_faults self.old) (real_sink_faults self.new) result }
    {
        if self.to.write_all(bytes).is_ok() && self.to.flush().is_ok() {
            return Ok(());
        }
        self.faults = self.faults.saturating_add(1);
        Err(WriteFault::Failed)
    }
}
