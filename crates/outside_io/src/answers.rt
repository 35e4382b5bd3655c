/// How a file was read.
#[derive(Debug, Drop, Clone, Copy, PartialEq, Eq)]
pub enum ReadAnswer {
    /// The whole file was read.
    Whole,
    /// The file holds more bytes than were asked for.
    TooLong,
    /// The folder reported a fault.
    Failed,
    /// Memory for the bytes was refused.
    NoMemory,
}

/// How bytes were written.
#[derive(Debug, Drop, Clone, Copy, PartialEq, Eq)]
pub enum WriteAnswer {
    /// All of them were written.
    Done,
    /// The folder or the sink reported a fault.
    Failed,
}
