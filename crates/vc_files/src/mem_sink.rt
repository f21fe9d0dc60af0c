ghost use Rattle.std.specs.Prelude.{◌≡◌, ◌≤◌, ◌-◌, ◌^◌, ◌++◌, ◌↔◌, [], Some, take, length, IsOk, IfOk, OnOk, OnErr, vec_len};
ghost use Rattle.std.specs.Vec.{vec_capacity};
ghost use Rattle.std.specs.Io.KnownBytes.{Appends};
ghost use Rattle.vc_files.specs.Sink.{AppendsFront, HasCause, Counts};

use crate::{Sink, WriteFault};
use std::alloc::{AllocError, Global};

/// A sink in memory, with room for so many bytes.
#[derive(Drop)]
pub struct MemSink {
    bytes: Vec<u8>,
    most: usize,
    faults: u64,
    ghost room: { most ≤ vec_capacity bytes },
    ghost fits: { vec_len bytes ≤ most },
}

impl MemSink {
    ghost use Rattle.vc_files.specs.MemSink.{sink_bytes, sink_faults, sink_room};

    /// A sink with room for `most` bytes, at most 2^30. The room is taken at once, so no write takes memory.
    pub fn new(alloc: Global, most: usize) -> Result<MemSink, AllocError>
        requires { most ≤ 2 ^ 30 }
        ensures empty { IfOk result (λ s. sink_bytes s ≡ []) }
        ensures room { IfOk result (λ s. sink_room s ≡ most) }
        ensures faults { IfOk result (λ s. sink_faults s ≡ 0) }
    {
        Ok(MemSink {
            bytes: Vec::with_capacity(alloc, most)?,
            most,
            faults: 0,
        })
    }

    /// All that was written.
    pub fn written(&self) -> &[u8]
        ensures { result.now ≡ sink_bytes self.now }
    {
        &self.bytes
    }
}

impl Sink for MemSink {
    ghost use Rattle.vc_files.specs.MemSink.{sink_bytes, sink_faults, sink_room};

    ghost written = { λ s. Some (sink_bytes s) };

    ghost faults = { λ s. sink_faults s };

    /// Takes no memory. It fails exactly where the bytes do not fit into the room that is left, and takes those that do.
    fn write_all(&mut self, bytes: &[u8]) -> Result<(), WriteFault>
        ensures ok { OnOk result (Appends (Some (sink_bytes self.old)) (Some (sink_bytes self.new)) bytes.now) }
        ensures err { OnErr result (AppendsFront (Some (sink_bytes self.old)) (Some (sink_bytes self.new)) bytes.now) }
        ensures cause { HasCause (sink_faults self.old) (sink_faults self.new) result }

        // Which write fails, and what each write leaves.
        ensures fits { IsOk result ↔ (length bytes.now ≤ sink_room self.old) }
        ensures taken { sink_bytes self.new ≡ sink_bytes self.old ++ take (sink_room self.old) bytes.now }
        ensures room { sink_room self.new ≡ sink_room self.old - length bytes.now }
        ensures counted { Counts (sink_faults self.old) (sink_faults self.new) result }
    {
        let room = self.most - self.bytes.len();
        if bytes.len() <= room {
            self.bytes.extend_from_slice(bytes).unwrap();
            Ok(())
        } else {
            self.bytes.extend_from_slice(&bytes[..room]).unwrap();
            self.faults = self.faults.saturating_add(1);
            Err(WriteFault::Failed)
        }
    }
}
