//! What lies outside the program: where its input comes from, where its output goes, the files that it reads by name,
//! the disk that keeps its journal, the clock that it asks, and the gate that its workers pass.
#![tactic(auto)]

mod access;
mod clock;
mod disk;
mod failed;
mod file_disk;
mod files;
mod gate;
mod memory_disk;
mod memory_files;
mod memory_sink;
mod memory_source;
mod sink;
mod source;
mod streams;
mod system_file;
mod system_files;
mod trouble;

pub use access::Access;
pub use clock::{Clock, MemoryClock, SystemClock};
pub use disk::Disk;
pub use failed::Failed;
pub use file_disk::FileDisk;
pub use files::Files;
pub use gate::{Gate, OpenGate};
pub use memory_disk::MemoryDisk;
pub use memory_files::MemoryFiles;
pub use memory_sink::MemorySink;
pub use memory_source::MemorySource;
pub use sink::{Sink, write_all};
pub use source::Source;
pub use streams::{StreamSink, StreamSource};
pub use system_files::SystemFiles;
pub use trouble::Trouble;
