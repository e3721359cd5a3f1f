// The wires after a stage of an accepted file, with the bits that they need.
ghost use Rattle.std.specs.Prelude.{◌≡◌, map, length};
ghost use Rattle.stages.specs.Kind.{map_ok, over};
ghost use Rattle.verdict.specs.Loaded.{loaded_in};
ghost use Rattle.verdict.specs.Table.{wires_in};
ghost use Rattle.calls.specs.Certified.{certified_row};
ghost use Rattle.relay.specs.Certificate.{certificate_in};

use arrayvec::ArrayVec;
use calls::certificate_row::CertificateRow;
use settings::refusal::Refusal;
use stages::kind_set::KindSet;
use verdict::front::write_front;
use verdict::loaded::fields_of;
use verdict::wires::{Wires, wires_after};

fn certified_rows(wires: &Wires) -> ArrayVec<CertificateRow, 64>
    ensures { result.items ≡ map certified_row (wires_in wires.now).wires }
{
    let wires = &wires.rows[..usize::from(wires.shape.count)];
    let mut rows = ArrayVec::new();
    for wire in wires {
        rows.push(CertificateRow::from(*wire));
    }
    rows
}

// The rows in front of a caller's buffer, and how many; or the first refusal.
pub(crate) fn certificate_of<K: KindSet>(
    kinds: &K,
    file: &[u8],
    stage: u32,
    out: &mut [CertificateRow],
) -> Result<usize, Refusal>
    ensures answer { result ≡ map_ok length (certificate_in (K.meaning kinds.now) (loaded_in (K.meaning kinds.now) file.now) stage (length out.old)) }
    ensures buffer { out.new ≡ over (certificate_in (K.meaning kinds.now) (loaded_in (K.meaning kinds.now) file.now) stage (length out.old)) out.old }
{
    let fields = fields_of(kinds, file).ok_or(Refusal::NoFile)?;
    if stage > u32::from(fields.stages) {
        return Err(Refusal::NoStage);
    }
    // Why there are none does not matter: `let .. else` drops the refusal, where `map_err` would take a closure to do it.
    let Ok(wires) = wires_after(kinds, file, stage as u8) else {
        return Err(Refusal::NoFile);
    };
    write_front(certified_rows(&wires).as_slice(), out)
}
