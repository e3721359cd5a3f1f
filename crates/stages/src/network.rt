// The law of a network of stages, for any set of kinds.
ghost use Rattle.stages.specs.Network.{NetworkLaw};

use crate::kind_set::KindSet;

// Its contract is the law, from the law of the set's kinds alone.
pub fn network_law<K: KindSet>(kinds: &K)
    ensures { NetworkLaw (K.meaning kinds.now) }
{}
