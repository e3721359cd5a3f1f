// Files that are accepted.
ghost use Rattle.std.specs.Prelude.{◌≡◌};
ghost use Rattle.verdict.specs.Loaded.{fields_in, loaded_in, unless_none};

use crate::file::judge_file;
use crate::network::opens::open;
use settings::fields::Fields;
use settings::refusal::Refusal;
use stages::kind_set::KindSet;

// The header's fields of a file that is accepted.
pub fn fields_of<K: KindSet>(kinds: &K, file: &[u8]) -> Option<Fields>
    ensures { result ≡ fields_in (loaded_in (K.meaning kinds.now) file.now) }
{
    let (network, _) = open(kinds, file).ok()?;
    judge_file(kinds, file).ok()?;
    Some(network.fields())
}

// The refusal of a call on a file, or that there is none where the file is not accepted.
pub(crate) fn refused_or_none<K: KindSet>(kinds: &K, file: &[u8], refusal: Refusal) -> Refusal
    ensures { result ≡ unless_none (loaded_in (K.meaning kinds.now) file.now) refusal }
{
    // Both arms are refusals, and one answers no part of the verdict: `map_or` would hide which is which.
    match judge_file(kinds, file) {
        Ok(_) => refusal,
        Err(_) => Refusal::NoFile,
    }
}
