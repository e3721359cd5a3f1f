// The kinds of this relay, as sets side by side.
#![tactic(auto)]

ghost use Rattle.std.specs.Prelude.{◌≡◌, is_some};
ghost use Rattle.stages.specs.Network.{NetworkLaw};
ghost use Rattle.kinds.specs.Base.{base_kinds};

use keeping::kind;
use keeping::largest::Largest;
use keeping::rectifier::Rectifier;
use keeping::repeat::Repeat;
use rows::full::Full;
use rows::kind::Rows;
use rows::taps::Taps;
use stages::kind_set::KindSet;
use stages::network::network_law;
use stages::pair::Pair;

// Kinds 1 and 2, which multiply.
pub type Multiplying = Pair<Rows<Full>, Rows<Taps>>;

// Kinds 3 to 5, which keep the format.
pub type Keeping = Pair<
    kind::Keeping<Largest>,
    Pair<kind::Keeping<Rectifier>, kind::Keeping<Repeat>>,
>;

// All five.
pub type Base = Pair<Multiplying, Keeping>;

pub const BASE: Base = Pair {
    first: Pair {
        first: Rows(Full),
        second: Rows(Taps),
    },
    second: Pair {
        first: kind::Keeping(Largest),
        second: Pair {
            first: kind::Keeping(Rectifier),
            second: kind::Keeping(Repeat),
        },
    },
};

// What the set means: the kinds of this relay, by their numbers.
pub fn base() -> Base
    ensures { ⟦<Base as KindSet>⟧.meaning result ≡ base_kinds }
{
    BASE
}

// Whether a number stands for a kind.
pub fn is_known(number: u8) -> bool
    ensures { result ≡ is_some (base_kinds number) }
{
    BASE.knows(number)
}

// The law of every network of these kinds.
pub fn base_law()
    ensures { NetworkLaw base_kinds }
{
    network_law(&BASE)
}
