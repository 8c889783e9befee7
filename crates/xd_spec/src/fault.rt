use thiserror::Error;

/// Why a spec, or the words of `--tx`, are refused.
#[derive(Clone, Copy, Debug, Drop, PartialEq, Eq, Error)]
pub enum SpecFault {
    #[error("a key is empty or begins with an underscore, or its value is none that it takes")]
    BadKey,
    #[error("a key stands twice")]
    Twice,
    #[error("a number of workers is 0, or there are over 32 of them")]
    BadCount,
    #[error("a key is not known, or keys do not go together")]
    Unsupported,
    #[error("out of memory")]
    OutOfMemory,
}
