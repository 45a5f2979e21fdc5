//! That what a script puts to the notes is a certificate of what it did, whatever commands it has. There is no code here but a law,
//! whose contract is the theorem; the lemmas behind it are in `proofs/`.
#![tactic(auto)]

mod laws;

pub use laws::notes_certify;
