// Laws of the definitions, on a function without a body.
ghost use Rattle.mdns_lines.specs.Printable.{AreReadBack, ArePrinted, ArePrintable};

/// What is printed of a line that can be printed is read as that line, and what is read of a text is printed as that text, and can be printed
/// where the text is made of bytes.
pub fn printed_lines_are_read()
    ensures back { AreReadBack }
    ensures printed { ArePrinted }
    ensures printable { ArePrintable }
{}
