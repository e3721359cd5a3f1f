// The search for a stage of a file.
ghost use Rattle.std.specs.Prelude.{◌≡◌};
ghost use Rattle.std.specs.Option.{option_map};
ghost use Rattle.verdict.specs.Stages.{long_enough, from_stage, stage_at};
ghost use Rattle.settings.specs.Records.{split_record};
ghost use Rattle.settings.specs.Answer.{split_in};

use settings::record::{Record, split_record};

// The record in front, if it is whole and holds kind and size.
fn split_stage(bytes: &[u8]) -> Option<Record<'_>>
    ensures { option_map split_in result ≡ long_enough (split_record bytes.now) }
{
    split_record(bytes).filter(|split| split.front.len() >= 2)
}

// The bytes from the start of a stage on. No loop: by the rules, the search calls itself for the stage before.
pub fn from_stage(records: &[u8], k: u8) -> Option<&[u8]>
    ensures { option_map (λ x. x.now) result ≡ from_stage records.now k }
{
    if k == 0 {
        return Some(records);
    }
    let before = from_stage(records, k - 1)?;
    let split = split_stage(before)?;
    Some(split.rest)
}

// The record of a stage.
pub fn stage_at(records: &[u8], k: u8) -> Option<Record<'_>>
    ensures { option_map split_in result ≡ stage_at records.now k }
{
    split_stage(from_stage(records, k)?)
}
