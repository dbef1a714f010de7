//! A log of lines in a file that survives a crash at any moment.
#![tactic(auto)]

mod closing;
mod device;
mod file_device;
mod file_place;
mod lines;
mod log;
mod log_error;
mod placing;
mod rest;
mod show;
mod starting;
mod unread_log;

pub use device::{Device, DeviceError};
pub use file_device::FileDevice;
pub use file_place::FilePlace;
pub use lines::{LineError, Lines};
pub use log::Log;
pub use log_error::{LogError, RenewError};
pub use show::{LogSummary, has_lines, show_log};
pub use unread_log::UnreadLog;
