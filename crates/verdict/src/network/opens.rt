// How a file is opened.
ghost use Rattle.std.specs.Prelude.{◌≡◌, IfOk};
ghost use Rattle.std.specs.Result.{result_map_both};
ghost use Rattle.stages.specs.Kind.{setting};
ghost use Rattle.stages.specs.Wires.{setting_in};
ghost use Rattle.settings.specs.Head.{head_of};
ghost use Rattle.verdict.specs.Opened.{head_in};
ghost use Rattle.verdict.specs.Verdict.{shape_in};

use super::Network;
use settings::fields::Fields;
use settings::head::reads::read_head;
use settings::refusal::Refusal;
use stages::kind_set::KindSet;
use stages::shape::Shape;
use stages::stage::Stage;
use stages::wires::Wires;

// It is no `From`: neither of the two types' crates knows the other.
fn input_shape(fields: Fields) -> Shape
    ensures { result ≡ shape_in fields }
{
    Shape {
        count: fields.inputs,
        word: fields.word,
        fraction: fields.fraction,
    }
}

// The network of a file, and the wires of its inputs.
pub(crate) fn open<'a, K: KindSet>(
    kinds: &'a K,
    file: &'a [u8],
) -> Result<(Network<'a, K>, Wires), Refusal>
    ensures head { result_map_both (λ o. head_in o.0 o.1) (λ e. e) result ≡ head_of file.now }
    ensures shape { IfOk result (λ o. o.1.shape ≡ shape_in o.0.header.fields) }
    ensures kinds { IfOk result (λ o. o.0.kinds.now ≡ kinds.now) }
{
    let head = read_head(file)?;
    let network = Network {
        kinds,
        header: head.header,
        records: head.rest,
    };
    let inputs = Wires {
        shape: input_shape(head.header.fields()),
        rows: head.inputs(),
    };
    Ok((network, inputs))
}

impl<K: KindSet> Network<'_, K> {
    pub(crate) fn fields(&self) -> Fields
        ensures { result ≡ self.now.header.fields }
    {
        self.header.fields()
    }
}
