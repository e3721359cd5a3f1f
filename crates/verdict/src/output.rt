// The output of a frame, through any set of kinds.
use settings::fields::Fields;

// The header's fields of the file, the output code, and what it stands for in grains.
#[derive(Clone, Copy)]
pub struct Output {
    pub fields: Fields,
    pub code: i32,
    pub grains: i64,
}

pub mod works;
