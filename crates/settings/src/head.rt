// The head of a settings file: version, header and inputs.
use crate::header::Header;

// A header, the record that its inputs stand in, and the bytes that follow.
#[derive(Clone, Copy)]
pub struct Head<'a> {
    pub header: Header,
    record: &'a [u8],
    pub rest: &'a [u8],
}

pub mod reads;
