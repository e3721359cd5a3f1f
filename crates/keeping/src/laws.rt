// Laws of the kinds on codes.
ghost use Rattle.keeping.specs.Laws.{LargestPicks, RepeatThenLargest, RectifierIdempotent};

// Each output of largest is an element of its block, and none of the block exceeds it.
pub fn largest_picks()
    ensures { LargestPicks }
{}

// Repeating, and then taking the largest of as many, gives the codes back.
pub fn repeat_then_largest()
    ensures { RepeatThenLargest }
{}

// Rectifying twice is rectifying once.
pub fn rectifier_idempotent()
    ensures { RectifierIdempotent }
{}
