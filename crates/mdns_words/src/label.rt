// The label of a host, as words name it.
ghost use Rattle.std.specs.Prelude.{◌≡◌, IsTrue};
ghost use Rattle.mdns_words.specs.HostLabels.{is_host_text, host_label_of};

use dns_name::Label;
use sd_name::is_service_label;
use std::marker::Model;

/// The label of a host: text of 1 to 63 bytes without ASCII control characters. Contracts see its bytes.
#[derive(Drop)]
pub struct HostLabel {
    label: Label,
}

impl Model for HostLabel {
    ghost use Rattle.std.specs.Prelude.{List, ℕ, IsTrue};
    ghost use Rattle.mdns_words.specs.HostLabels.{is_host_text};

    ghost Value = { List ℕ };

    ghost view = { λ h. h.label };

    ghost invariant = { λ h. IsTrue (is_host_text h.label) };
}

impl HostLabel {
    /// The label of a text, `None` exactly where the text can't be a host's.
    #[tactic(auto, unfolding(sd_name::specs::ServiceTypes::is_service_label))]
    pub fn new(text: &str) -> Option<HostLabel>
        ensures { result ≡ host_label_of text.now }
    {
        if !is_service_label(text.as_bytes()) {
            return None;
        }
        let label = Label::new(text.as_bytes())?;
        Some(HostLabel { label })
    }

    /// The same as a label of a name.
    pub fn into_label(self) -> Label
        ensures value { result ≡ self }
        ensures host { IsTrue (is_host_text result) }
    {
        self.label
    }
}
