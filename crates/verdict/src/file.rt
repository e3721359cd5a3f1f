// The verdict on a whole file, through any set of kinds. Kinds and file are two parameters of each public call: a struct of both
// would be made anew in each call of the relay, for one call.
ghost use Rattle.std.specs.Prelude.{◌≡◌};
ghost use Rattle.verdict.specs.Certificate.{Certificate};
ghost use Rattle.verdict.specs.Verdict.{verdict_of};

use crate::network::opens::open;
use settings::refusal::Refusal;
use stages::kind_set::KindSet;

// The verdict by the rules alone.
pub(crate) fn judge_file<K: KindSet>(kinds: &K, file: &[u8]) -> Result<u32, Refusal>
    ensures { result ≡ verdict_of (K.meaning kinds.now) file.now }
{
    let (network, inputs) = open(kinds, file)?;
    let last = network.judge_stages(network.fields().stages, inputs)?;
    network.close(&last)
}

// The certified bound of a file, or its first refusal. An accepted file takes every frame inside its input ranges, and the
// exact output is within the bound of the code, whatever the true inputs were within their errors.
pub fn judge<K: KindSet>(kinds: &K, file: &[u8]) -> Result<u32, Refusal>
    ensures answer { result ≡ verdict_of (K.meaning kinds.now) file.now }
    ensures certificate { Certificate (K.meaning kinds.now) file.now result }
{
    judge_file(kinds, file)
}
