// Laws of the definitions.
ghost use Rattle.mdns_asserts.specs.Earned.{AssertionsAreEarned};
ghost use Rattle.mdns_asserts.specs.Names.{HaveNamesApart};

/// Nothing unique is asserted before its probes: each unique record that an entry of a legal history tells has the name of
/// a group that is sure by then, with three spaced probes since it was last set back, each to all with the records that it
/// claims. Nothing that was heard conflicted with a sure group from its first probe on. A goodbye is of a record that was
/// own. (RFC 6762 sections 8.1, 8.2, 8.4 and 10.1)
pub fn assertions_are_earned()
    ensures { AssertionsAreEarned }
{}

/// The live groups of a legal history have different numbers and different names, case aside. (RFC 6762 section 8.1)
pub fn names_stand_apart()
    ensures { HaveNamesApart }
{}
