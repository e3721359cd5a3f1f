// The network of a settings file.
use settings::header::Header;
use stages::kind_set::KindSet;

// The kinds that it is read by, its header, and the bytes that follow the inputs.
#[derive(Clone, Copy)]
pub struct Network<'a, K: KindSet> {
    pub(crate) kinds: &'a K,
    pub(crate) header: Header,
    pub(crate) records: &'a [u8],
}

pub mod opens;
