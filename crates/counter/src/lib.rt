// The counter of a relay.
#![tactic(auto)]

ghost use Rattle.std.specs.Prelude.{◌≡◌};
ghost use Rattle.counter.specs.Counter.{idle, counted, stepped};

use calls::status::Status;
use settings::fields::Fields;
use verdict::output::Output;

fn count_after(fields: &Fields, picked: bool, count: u32) -> u32
    ensures { result ≡ counted fields.now picked count }
{
    if picked {
        count
            .saturating_add(u32::from(fields.rise))
            .min(fields.delay)
    } else {
        count.saturating_sub(u32::from(fields.fall))
    }
}

// The status after a frame with this output.
pub fn step(output: Output, status: Status) -> Status
    ensures { result ≡ stepped output status }
{
    let picked = output.grains >= i64::from(output.fields.level);
    let count = count_after(&output.fields, picked, status.count);
    Status {
        code: output.code,
        picked,
        count,
        trip: status.trip || count == output.fields.delay,
    }
}

// Nothing counted yet.
pub fn idle_status() -> Status
    ensures { result ≡ idle }
{
    Status::default()
}
