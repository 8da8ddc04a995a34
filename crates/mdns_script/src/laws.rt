// A law of the definitions, on a function without a body.
ghost use Rattle.mdns_script.specs.Writable.{AreReadBack, AreWritable};

/// What is printed of a command that can be written is a line that says it, and a line says no other command: so the commands
/// that can be written are exactly those that lines say.
pub fn printed_commands_are_read()
    ensures back { AreReadBack }
    ensures only { AreWritable }
{}
