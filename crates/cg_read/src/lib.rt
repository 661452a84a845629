//! Reads profiles in the Callgrind format, and joins them.
#![tactic(auto)]

mod addr_profile;
mod addr_read;
mod addr_reader;
mod addresses;
mod callee;
mod costs;
mod current;
mod draft;
mod error;
mod function_numbers;
mod functions;
mod ids;
mod joined;
mod merge;
mod profile;
mod read;
mod reader;
mod rows;
mod texts;
mod totals;

pub use addr_profile::AddrProfile;
pub use addr_read::{is_addr_file, read_addr_file, read_any};
pub use error::{FormatError, MergeError, SumError};
pub use function_numbers::FunctionNumbers;
pub use functions::Functions;
pub use merge::Joined;
pub use profile::Profile;
pub use read::read_file;
pub use rows::{CallRow, CostList, FuncKey, SelfRow};
