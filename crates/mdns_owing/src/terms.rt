// When and where what a query is owed goes.
ghost use Rattle.std.specs.Prelude.{◌+◌, ◌≤◌, ◌^◌};

use mdns_base::Host;

/// What a query says of itself that decides when and where what it is owed goes: who asked, whether it said that more follows (RFC 6762
/// 7.2), whether it had authority records, as a probe has (RFC 6762 6), and the moment in ms from which on what it is owed is due.
#[derive(Clone, Copy, Drop)]
pub struct Terms {
    pub from: Host,
    pub truncated: bool,
    pub probing: bool,
    pub due: u64,
    pub ghost bound: { due ≤ 2 ^ 53 + 500 },
}
