//! The calls of `dns_sd.h` over a connection to the daemon: requests are sent as frames, and items come back.
#![tactic(auto)]

mod client;
mod error;
mod requests;

pub use client::Client;
pub use error::ClientError;
pub use requests::{
    address_request, browse_request, query_request, register_request, resolve_request,
    update_request,
};
