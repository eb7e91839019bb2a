//! Why an order is not carried out.
use buffer::Refusal;
use protocol::waiting::CallError;
use std::io;

/// An order that is unknown or for which there is no room, one that the core refuses, and an answer
/// that can't be written.
#[derive(Clone, Copy)]
pub enum Failure {
    Unknown,
    Refused(Refusal),
    Output(io::Error),
}

impl From<Refusal> for Failure {
    fn from(refusal: Refusal) -> Failure {
        Failure::Refused(refusal)
    }
}

impl From<io::Error> for Failure {
    fn from(error: io::Error) -> Failure {
        Failure::Output(error)
    }
}

impl From<CallError> for Failure {
    fn from(error: CallError) -> Failure {
        match error {
            CallError::Shape => Failure::Refused(Refusal::Shape),
            CallError::Room => Failure::Unknown,
        }
    }
}
