//! The task of checking: a certificate and a network are read, the certificate's rules are applied to the network, and the network
//! that is left is written.
#![tactic(auto)]

mod checking;
mod fault;
mod take;
mod tell;
mod working;

pub use checking::check;
pub use fault::CertificateFault;
