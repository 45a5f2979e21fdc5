use mv_entry::RuleFault;
use thiserror::Error;

/// Why a certificate isn't replayed to its end.
#[derive(Clone, Copy, Debug, PartialEq, Eq, Error)]
pub enum ReplayFault {
    /// The rule whose first line this is doesn't apply to what the rules before it leave, or there are too few nodes to tell.
    #[error("line {line}: {fault}")]
    Rule { line: u32, fault: RuleFault },
    /// Want of memory, which says nothing of the certificate.
    #[error("out of memory")]
    Memory,
}
