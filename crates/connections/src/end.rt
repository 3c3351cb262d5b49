//! How a connection ends.

/// How a connection ends. Offsets are counted in bytes from the start of what came from the client.
#[derive(Clone, Copy, Debug, PartialEq, Eq)]
pub enum End {
    /// The input ended behind a whole frame, and each request was answered.
    EndOfInput,
    /// The input ended within a frame.
    Truncated,
    /// The frame whose first byte has this offset is bad, or it is a connect behind one that was answered with code 0, or
    /// another request before that.
    BadFrame { offset: u64 },
    /// A call of the link failed.
    LinkFault,
    /// A reply said that the run is full; it was written.
    RunFull,
    /// Memory was wanting for a frame that came, or 2^61 bytes were taken; each request that was answered has its reply.
    Memory,
}
