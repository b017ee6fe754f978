// Why a run ends without all cases as published.
use hexadecimal::HexFault;
use refusal::Refusal;
use std::alloc::AllocError;
use std::io;
use thiserror::Error;

#[derive(Debug, Drop, Error)]
pub(crate) enum Fault {
    #[error("a case is seven words")]
    WrongCount,
    #[error("{0}")]
    BadHex(#[from] HexFault),
    #[error("{0}")]
    Refused(#[from] Refusal),
    #[error("no memory")]
    NoMemory,
    #[error("{0}")]
    Failed(#[from] io::Error),
    #[error("some hash or tag is not the published one")]
    Differs,
}

// The variant holds nothing, since `main` prints it as it stands.
impl From<AllocError> for Fault {
    fn from(_error: AllocError) -> Fault {
        Fault::NoMemory
    }
}
