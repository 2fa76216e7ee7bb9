ghost use Rattle.format.specs.Statements.{NumbersKeep, ReadsBack, WritesBack};
ghost use Rattle.format.specs.Examples.{Examples};

/// The byte format keeps what it is given: numbers in bytes, images read back, and images written back.
pub fn format_keeps()
    ensures numbers { NumbersKeep }
    ensures back { ReadsBack }
    ensures forth { WritesBack }
{}

/// The examples of images, read or refused, hold for the definitions.
pub fn examples_hold()
    ensures { Examples }
{}
