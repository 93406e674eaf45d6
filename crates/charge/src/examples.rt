// The worked examples, checked on the definitions alone.
ghost use Rattle.charge.specs.Examples.{WorkedExamples};

// In each worked example the given levels are the best placement, and cost what is given.
pub fn worked_examples()
    ensures { WorkedExamples }
{}
