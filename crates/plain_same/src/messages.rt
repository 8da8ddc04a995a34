// Messages.
ghost use Rattle.std.specs.Prelude.{◌≡◌, IsTrue};

use crate::{Same, all_same};
use dns_message::{Message, Questions, Rrs};

impl Same for Rrs {
    fn same_as(&self, other: &Rrs) -> bool {
        all_same(self.as_slice(), other.as_slice())
    }
}

impl Same for Questions {
    fn same_as(&self, other: &Questions) -> bool {
        all_same(self.as_slice(), other.as_slice())
    }
}

impl Same for Message {
    fn same_as(&self, other: &Message) -> bool {
        have_one_header(self, other)
            && self.questions.same_as(&other.questions)
            && self.answers.same_as(&other.answers)
            && self.authority.same_as(&other.authority)
            && self.additional.same_as(&other.additional)
    }
}

// Whether two messages have one header.
fn have_one_header(left: &Message, right: &Message) -> bool
    ensures same { IsTrue result → (left.now.id ≡ right.now.id) × (left.now.response ≡ right.now.response) × (left.now.authoritative ≡ right.now.authoritative)
        × (left.now.truncated ≡ right.now.truncated) × (left.now.opcode ≡ right.now.opcode) × (left.now.rcode ≡ right.now.rcode) }
    ensures back { left.now ≡ right.now → IsTrue result }
{
    left.id == right.id
        && left.response == right.response
        && left.authoritative == right.authoritative
        && left.truncated == right.truncated
        && left.opcode == right.opcode
        && left.rcode == right.rcode
}
