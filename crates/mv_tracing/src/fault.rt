use crate::tell::put_lex_line;
use mv_base::{Failed, Sink};
use mv_lex::LexFault;
use mv_task::Fault;

/// Why a run file is refused, whatever the network is: for a fault of its bytes.
#[derive(Clone, Copy, Debug, PartialEq, Eq)]
pub struct RunRefusal {
    pub fault: LexFault,
}

impl Fault for RunRefusal {
    ghost use Rattle.mv_tracing.specs.RunFiles.{refusal_line};

    ghost line = { refusal_line };

    fn put_line<E: Sink>(&self, notes: &mut E) -> Result<(), Failed> {
        put_lex_line(self.fault, notes)
    }
}
