//! The outside of a command: the folder that it reads from and writes to, and the sinks that its output goes to.
#![tactic(auto)]

mod call_journal;
mod calls;
mod file_folder;
mod folder;
mod journal;
mod memory_folder;
mod memory_sink;
mod plan;
mod shelf;
mod sink;
mod stream;
mod traced_folder;
mod traced_sink;

pub use call_journal::{FolderCall, SinkWrite};
pub use calls::{FileCalls, SystemCalls};
pub use file_folder::{DirFolder, FileFolder};
pub use folder::{FILE_LIMIT, Folder, LoadError, PutError, TEXT_LIMIT};
pub use memory_folder::{MemFolder, SureFolder};
pub use memory_sink::{MemSink, SureSink};
pub use sink::{Sink, WriteError, write_all};
pub use stream::StreamSink;
pub use traced_folder::Traced;
pub use traced_sink::TracedSink;
