// Laws of the definitions.
ghost use Rattle.plain_check.specs.Checked.{BeginLegally};

/// The first rows of a transcript of which every history is legal have legal histories too.
pub fn legal_rows_begin_legally()
    ensures { BeginLegally }
{}
