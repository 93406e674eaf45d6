// What the definition of decimal numbers comes to, as the contract of a function that computes nothing.
ghost use Rattle.listing.specs.Laws.{DecimalsRight};

// The laws of written numbers hold.
pub fn text_laws()
    ensures { DecimalsRight }
{}
