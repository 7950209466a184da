// The results of a call that resumes from a checkpoint.

/// The result of playing on after a checkpoint.
#[derive(Clone, Copy, Debug, PartialEq, Eq)]
pub struct Resumed {
    /// The number of program blocks, including those before the checkpoint.
    pub blocks: u32,
    /// The number of words with no codeword within two symbols up to the moment, including those before the
    /// checkpoint.
    pub bad: u32,
}

/// Why a resumed call stopped.
#[derive(Clone, Copy, Debug, PartialEq, Eq)]
pub enum ResumeStop {
    /// A read of the checkpoint failed.
    FirstFault,
    /// A read of the rest of the stream failed.
    SecondFault,
    /// A write failed. The sink has a prefix of the picture.
    WriteFault,
    /// The first input is not a valid checkpoint: this is its first invalid byte.
    BadSave { byte: u32 },
    /// The moment is before the checkpoint, which is after this many program blocks.
    BeforeSave { blocks: u32 },
    /// The rest of the stream ended within the block of this number in the whole stream, counted from 0.
    Torn { block: u32 },
    /// The whole stream has more than 1,000,000 blocks.
    TooLong,
    /// The moment is later than the end of this many program blocks.
    PastEnd { blocks: u32 },
}
