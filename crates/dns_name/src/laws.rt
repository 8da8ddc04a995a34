ghost use Rattle.std.specs.Prelude.{◌≡◌, ℕ, List};
ghost use Rattle.std.specs.Cmp.{IsEquivalence, IsTotalOrder};
ghost use Rattle.dns_name.specs.Names.{folded_eq, name_cmp, wire_of};

/// The laws of names, which hold of every list of labels: being one name, case aside, is an equivalence, the order is
/// total, and a wire form has one list of labels.
pub fn names_are_lawful()
    ensures same { IsEquivalence folded_eq }
    ensures ordered { IsTotalOrder name_cmp }
    ensures wire { (left right : List (List ℕ)) → wire_of left ≡ wire_of right → left ≡ right }
{}
