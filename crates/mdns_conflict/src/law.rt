// The order of a tie.
ghost use Rattle.std.specs.Prelude.{◌≡◌, ◌↔◌, List, map};
ghost use Rattle.std.specs.declared.cmp.Ordering.TheVariants.{Equal};
ghost use Rattle.std.specs.Cmp.{IsTotalOrder};
ghost use Rattle.std.specs.Cmp.Lexicographic.{slice_cmp};
ghost use Rattle.dns_record.specs.declared.record.Rr.{Rr};
ghost use Rattle.dns_record.specs.Conflicts.{tie_cmp};
ghost use Rattle.mdns_conflict.specs.Ties.{counted};

/// The order of records in a tie, and of the sides of a tie, is total: to swap two swaps the answer. Two sides tie exactly
/// where the types and data of their records agree. (RFC 6762 8.2)
pub fn ties_are_in_order()
    ensures records { IsTotalOrder tie_cmp }
    ensures sides { IsTotalOrder (slice_cmp tie_cmp) }
    ensures equal { (ours theirs : List Rr) → (slice_cmp tie_cmp ours theirs ≡ Equal) ↔ (map counted ours ≡ map counted theirs) }
{}
