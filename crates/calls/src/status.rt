// What a relay tells of its counter.
ghost use Rattle.std.specs.Prelude.{◌≡◌, Some};
ghost use Rattle.calls.specs.Texts.{picked_word, trip_word, status_text, report_text};

use std::fmt;

// The code of the last taken frame, 0 after a load, whether it was picked, the delay count, and whether the trip stands.
#[derive(Clone, Copy, PartialEq, Eq, Default, Debug)]
pub struct Status {
    pub code: i32,
    pub picked: bool,
    pub count: u32,
    pub trip: bool,
}

// The certified bound of the loaded file in grains, and the status.
#[derive(Clone, Copy, PartialEq, Eq, Debug)]
pub struct Report {
    pub bound: u32,
    pub status: Status,
}

impl Status {
    fn picked_word(&self) -> &'static str
        ensures { result.now ≡ picked_word self.now.picked }
    {
        if self.picked { "picked" } else { "below" }
    }

    fn trip_word(&self) -> &'static str
        ensures { result.now ≡ trip_word self.now.trip }
    {
        if self.trip { "tripped" } else { "clear" }
    }
}

impl fmt::Display for Status {
    ghost output = { λ status. Some (status_text status) };

    #[tactic(auto, unfolding(crate::specs::Texts::status_text))]
    fn fmt<W: fmt::Write>(&self, f: &mut fmt::Formatter<W>) -> fmt::Result {
        let Status { code, count, .. } = *self;
        let picked = self.picked_word();
        let trip = self.trip_word();
        write!(f, "code {code} {picked} count {count} {trip}")
    }
}

impl fmt::Display for Report {
    ghost output = { λ report. Some (report_text report) };

    #[tactic(auto, unfolding(crate::specs::Texts::report_text))]
    fn fmt<W: fmt::Write>(&self, f: &mut fmt::Formatter<W>) -> fmt::Result {
        let Report { bound, status } = *self;
        write!(f, "bound {bound} {status}")
    }
}
