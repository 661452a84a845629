//! What every crate of the profiler shares, under one name: events and costs, texts, and the outside.
#![tactic(auto)]

pub use byte_text::{ExactOrder, OutOfMemory, Text, TextRef, UNKNOWN, clean_name};
pub use event_costs::{
    ArcKey, ArcSink, Branch, Cost, Done, EVENT_NAMES, EVENTS, End, Event, FileId, Flow, FuncId,
    FuncSet, Kind, Noted, Ones, Place, Regs, ThreadNo, Touch, event_names_shown, ones_of,
};
pub use outside::{
    DirFolder, FILE_LIMIT, FileCalls, FileFolder, Folder, FolderCall, LoadError, MemFolder,
    MemSink, PutError, Sink, SinkWrite, StreamSink, SureFolder, SureSink, TEXT_LIMIT, Traced,
    TracedSink, WriteError, write_all,
};
