// Laws of the definitions, each on a function without a body.
ghost use Rattle.std.specs.Cmp.{IsTotalOrder};
ghost use Rattle.dns_record.specs.Records.{record_cmp};

/// Record order is a total order: the order of two records turned round is the other's, it is transitive, and records
/// that are equal in it stand alike to all others. By `record_cmp`, equal in it are exactly the records that are the
/// same.
#[tactic(auto, using(crate::proofs::Same::record_cmp_total))]
pub fn record_order_is_total()
    ensures { IsTotalOrder record_cmp }
{}
