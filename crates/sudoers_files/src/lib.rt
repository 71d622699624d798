//! The files of a policy: a root, and the files that it includes.
#![tactic(auto)]

mod counting_devices;
mod device_counts;
mod disk_path;
mod fault;
mod files_in_memory;
mod files_on_disk;
mod files_trait;
mod gathering;
mod include_lines;
pub mod laws;
mod reading;
mod sorted_names_in_folder;
mod unread_includes;

pub use counting_devices::{Counted, DeviceFailed, PulledBytesOrInterrupted, Sink, Source};
pub use device_counts::DeviceFailureAndEndlessFileCounts;
pub use disk_path::resolve_path_below;
pub use fault::{FileFault, GatherFault};
pub use files_in_memory::FilesInMemory;
pub use files_on_disk::{FilesOnDisk, STREAM_NAME};
pub use files_trait::Files;
pub use gathering::gather;
pub use reading::read_to_end_or_byte_past_limit;
pub use unread_includes::{MissingFolderOrSkippedFile, find_missing_folders_and_skipped_files};
