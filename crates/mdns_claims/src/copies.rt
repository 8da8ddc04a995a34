// Copies of what a daemon is configured with.
ghost use Rattle.std.specs.Prelude.{◌≡◌};

use dns_name::Label;
use mdns_history::{Config, HostConfig};

/// The same configuration.
pub fn copy_config(config: &Config) -> Config
    ensures { result ≡ config.now }
{
    Config {
        address: config.address,
        host: copy_host(&config.host),
    }
}

fn copy_host(host: &Option<HostConfig>) -> Option<HostConfig>
    ensures { result ≡ host.now }
{
    match host {
        Some(host) => Some(HostConfig {
            label: copy_label(&host.label),
            v6: host.v6,
        }),
        None => None,
    }
}

/// The same label.
pub fn copy_label(label: &Label) -> Label
    ensures { result ≡ label.now }
{
    Label::new(label.as_slice()).unwrap()
}
