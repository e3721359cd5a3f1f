// Answers in front of a caller's buffer.
ghost use Rattle.std.specs.Prelude.{◌≡◌, length};
ghost use Rattle.stages.specs.Kind.{map_ok, over};
ghost use Rattle.verdict.specs.Front.{fitting};

use settings::refusal::Refusal;

// Writes them and tells how many there are, where the buffer has places for all. The rest of it stays.
pub fn write_front<T: Copy>(made: &[T], out: &mut [T]) -> Result<usize, Refusal>
    ensures answer { result ≡ map_ok length (fitting (length out.old) made.now) }
    ensures buffer { out.new ≡ over (fitting (length out.old) made.now) out.old }
{
    let count = made.len();
    if out.len() < count {
        return Err(Refusal::ShortBuffer);
    }
    out[0..count].copy_from_slice(made);
    Ok(count)
}
