//! The kinds of address: whole numbers from 0 to the last number of their kind.
#![tactic(auto)]

mod ipv4;
mod ipv6;
mod kind;
mod mirrored;
mod port;

pub use ipv4::Ipv4;
pub use ipv6::Ipv6;
pub use kind::AddressKind;
pub use mirrored::Mirror;
pub use port::Port;
