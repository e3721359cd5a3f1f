// What largest and rectifier ask of an element: a code or a wire.
ghost use Rattle.std.specs.Prelude.{◌≡◌};
ghost use Rattle.std.specs.Int.{int_max};
ghost use Rattle.keeping.specs.Signals.{rectified as rectified_code, larger_row, rectified_row};

use fixed::row::WireRow;

pub trait Signal: Copy + Default {
    ghost larger: { Self → Self → Self };

    ghost rectified: { Self → Self };

    fn larger_of(self, other: Self) -> Self
        ensures { result ≡ larger self other };

    fn rectify(self) -> Self
        ensures { result ≡ rectified self };
}

impl Signal for i32 {
    ghost larger = { int_max };

    ghost rectified = { rectified_code };

    fn larger_of(self, other: i32) -> i32 {
        self.max(other)
    }

    fn rectify(self) -> i32 {
        self.max(0)
    }
}

impl Signal for WireRow {
    ghost larger = { larger_row };

    ghost rectified = { rectified_row };

    fn larger_of(self, other: WireRow) -> WireRow {
        WireRow {
            low: self.low.larger_of(other.low),
            high: self.high.larger_of(other.high),
            error: self.error.max(other.error),
        }
    }

    fn rectify(self) -> WireRow {
        WireRow {
            low: self.low.rectify(),
            high: self.high.rectify(),
            error: self.error,
        }
    }
}
