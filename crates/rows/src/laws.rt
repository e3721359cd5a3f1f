// Full and taps in the words of their field: each contract is a law.
ghost use Rattle.rows.specs.Laws.{FullIsProduct, TapsIsWindow, TapsIsFull};

pub fn full_is_product()
    ensures { FullIsProduct }
{}

pub fn taps_is_window()
    ensures { TapsIsWindow }
{}

pub fn taps_is_full()
    ensures { TapsIsFull }
{}
