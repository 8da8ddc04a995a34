// Laws of the answers.
ghost use Rattle.sd_answer.specs.Laws.{IsOrderFree, IsCountFree, HaveOneName, IsOfItsName, IsOfOneName, IsNothingUnasked, AreInOrder};

/// The answers of a request depend on which records there are, and neither on their order nor on how often each is there.
pub fn order_of_records_is_free()
    ensures order { IsOrderFree }
    ensures count { IsCountFree }
{}

/// All questions of a request have one name, and only records of that name matter: whoever collects these has the answers
/// over all records. A request without questions has no answers.
pub fn only_matching_records_matter()
    ensures one { HaveOneName }
    ensures kept { IsOfItsName }
    ensures name { IsOfOneName }
    ensures nothing { IsNothingUnasked }
{}

/// The answers of a request are in the order of their bytes, so one of them is found by a binary search.
pub fn answers_are_in_order()
    ensures { AreInOrder }
{}
