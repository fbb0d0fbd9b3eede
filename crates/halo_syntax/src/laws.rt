// Laws of lines: functions that do nothing, whose contracts are the laws.
ghost use Rattle.halo_syntax.specs.LineLaws.{LineIsDecided, LineIsOne};

/// Words spell at most one line.
pub fn line_is_one()
    ensures { LineIsOne }
{}

/// Words spell a line, or they spell none.
pub fn line_is_decided()
    ensures { LineIsDecided }
{}
