//! Numbers, addresses and bytes as text.
#![tactic(auto)]

mod bytes;
mod decimal;
mod hexadecimal;
mod ipv4;
mod ipv6;

pub use bytes::{cut_at, is_same};
pub use decimal::{put_decimal, read_decimal, read_decimal_u8, read_decimal_u16, read_decimal_u32};
pub use hexadecimal::{put_hex, read_hex};
pub use ipv4::{put_ipv4, read_ipv4};
pub use ipv6::{put_ipv6, read_ipv6};
