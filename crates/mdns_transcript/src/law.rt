// Laws of the definitions.
ghost use Rattle.mdns_transcript.specs.Rows.{IsPrintOfOne};

/// A text is the print of at most one list of rows.
pub fn print_is_of_one()
    ensures { IsPrintOfOne }
{}
