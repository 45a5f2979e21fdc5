use mv_base::{Failed, Sink};
use mv_script::{TextFault, put_text_fault};
use mv_task::Fault;

/// Why a script is refused: the first fault of its text.
#[derive(Clone, Copy, Debug, PartialEq, Eq)]
pub struct ScriptRefusal {
    pub fault: TextFault,
}

impl Fault for ScriptRefusal {
    ghost use Rattle.mv_opt.specs.Scripts.{refusal_line};

    ghost line = { refusal_line };

    fn put_line<E: Sink>(&self, notes: &mut E) -> Result<(), Failed> {
        put_text_fault(self.fault, notes)
    }
}
