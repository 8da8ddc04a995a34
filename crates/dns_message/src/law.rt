// Laws of the definitions, each on a function without a body.
ghost use Rattle.std.specs.Prelude.{◌≡◌, List, ℕ};
ghost use Rattle.dns_message.specs.declared.message.Message.{Message};
ghost use Rattle.dns_message.specs.Reading.{Spells};
ghost use Rattle.dns_message.specs.Writing.{IsReadAgain};

/// Bytes spell at most one message.
#[tactic(auto, using(crate::proofs::Once::spelled_once))]
pub fn one_message_is_spelled()
    ensures { (bytes : List ℕ) (left right : Message) → Spells bytes left → Spells bytes right → left ≡ right }
{}

/// What a message is written as spells that message, whatever bytes follow it, up to 8972 bytes in all. (RFC 1035 4.1)
#[tactic(auto, using(crate::proofs::ReadAgain::read_again))]
pub fn what_is_written_is_read_again()
    ensures { IsReadAgain }
{}
