//! The laws of seeds and draws. Each holds of every value that it names, and has no code.
ghost use Rattle.sampler.specs.Laws.{LimitsLaw, TextTellsDraw};

/// The maximum number of bytes in a seed.
pub fn limits()
    ensures { LimitsLaw }
{}

/// No two draws hash the same text.
pub fn text_tells_draw()
    ensures { TextTellsDraw }
{}
