//! Files that are read whole and sinks that are written, each with its faults: in memory and real.
#![tactic(auto)]

mod files;
mod laws;
mod mem_files;
mod mem_sink;
mod real;
mod sink;

pub use files::{Files, ReadFault};
pub use laws::{faults_of_calls, names_have_one_file, writes_in_turn};
pub use mem_files::{MemFile, MemFiles};
pub use mem_sink::MemSink;
pub use real::{RealFiles, RealSink};
pub use sink::{Sink, WriteFault};
