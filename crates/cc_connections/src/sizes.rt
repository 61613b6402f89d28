//! How long frames are at most.

ghost use Rattle.cc_wire.specs.Sizes.{TakesAtMost};
ghost use Rattle.cc_connections.specs.Frames.{body_spelling, IsFrame};

/// How many bytes the body of a frame has at most. So it always fits into 65,536 bytes.
pub fn largest_body()
    ensures { TakesAtMost 58139 IsFrame body_spelling }
{}
