/// How a command ended. Its place in this list, from 0, is the program's exit number.
#[derive(Clone, Copy, Debug, PartialEq, Eq)]
pub enum Status {
    Ok,
    Refused,
    Usage,
    NoFile,
    BadFile,
    Stale,
    QueryRefused,
    ReadFault,
    WriteFault,
    OutFault,
    NoMemory,
    InputTooLong,
}
