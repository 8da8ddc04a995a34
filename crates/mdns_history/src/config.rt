// What a daemon is started with.
use dns_name::Label;

/// The host of a daemon: its label under `local`, and its IPv6 address, if it has one.
#[derive(Drop)]
pub struct HostConfig {
    pub label: Label,
    pub v6: Option<u128>,
}

/// The IPv4 address of a daemon, and its host, if it has one.
#[derive(Drop)]
pub struct Config {
    pub address: u32,
    pub host: Option<HostConfig>,
}
