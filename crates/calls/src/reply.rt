// What a relay answered to a request.
use crate::certificate_row::CertificateRow;
use crate::status::{Report, Status};
use settings::refusal::Refusal;

// The answer of the call, and the buffer as it was left where one was lent: a count beside it, since places behind the answer stay.
#[derive(Drop)]
pub enum Reply {
    Load(Result<u32, Refusal>),
    Frame(Result<Status, Refusal>),
    Reset(Result<(), Refusal>),
    State(Result<Report, Refusal>),
    Certificate {
        answer: Result<usize, Refusal>,
        buffer: Vec<CertificateRow>,
    },
    Bench {
        answer: Result<usize, Refusal>,
        buffer: Vec<i32>,
    },
}
