//! What a call on the outside answers where it wasn't done.

/// The object failed, and its count of faults rose in the call.
#[derive(Clone, Copy, Debug, PartialEq, Eq)]
pub struct Fault;

/// Why a file wasn't fetched.
#[derive(Clone, Copy, Debug, PartialEq, Eq)]
pub enum FetchFault {
    /// The files failed, or no file has the name. Their count of faults rose in the call.
    Fault,
    /// The file holds more than 16 MiB.
    TooLong,
    /// Memory ran out.
    NoMemory,
}

/// Why an entry of the cache wasn't loaded.
#[derive(Clone, Copy, Debug, PartialEq, Eq)]
pub enum LoadFault {
    /// The disk failed, and its count of faults rose in the call.
    Fault,
    /// Memory ran out.
    NoMemory,
}
