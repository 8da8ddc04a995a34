// Laws of the definitions.
ghost use Rattle.mdns_groups.specs.Registered.{GroupsAreFew, HaveGroups};

/// In a legal history an operation has at most one live group. Each live group but the host's is that of a live
/// registration. A live registration has exactly one, the group that began with it, unless that has a mark Failed; then it
/// has none. So a registration without a live group is one that failed. (RFC 6762 section 9, RFC 6763 sections 4 to 7)
pub fn registrations_have_groups()
    ensures { HaveGroups }
{}

/// A legal history has at most 64 * 64 live groups beside the host's: one for each operation of each attached session.
pub fn groups_are_few()
    ensures { GroupsAreFew }
{}
