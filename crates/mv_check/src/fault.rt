use crate::tell::put_text_line;
use mv_base::{Failed, Sink};
use mv_cert::StepFault;
use mv_lex::LexFault;
use mv_task::Fault;

/// Why a file is no certificate: for a fault of its bytes, or of its lines.
#[derive(Clone, Copy, Debug, PartialEq, Eq)]
pub enum CertificateFault {
    Lex(LexFault),
    Step(StepFault),
}

impl Fault for CertificateFault {
    ghost use Rattle.mv_check.specs.Tellings.{text_line};

    ghost line = { text_line };

    fn put_line<E: Sink>(&self, notes: &mut E) -> Result<(), Failed> {
        put_text_line(*self, notes)
    }
}
