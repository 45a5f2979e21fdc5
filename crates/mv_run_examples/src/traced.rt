//! Recorded runs that a network allows or doesn't, and run files that are refused.
use crate::cases::{Form, all_end};
use crate::runs::{End, Fault, Given, Text, answered, ends, refused, traced};
use std::test::Fail;

/// A controller of two models, with a latch that has a reset value, and values with names.
const CONTROLLER: &[u8] =
    b".model main\n.inputs go\n.outputs busy\n.mv state, state$in 4 IDLE LOAD RUN DONE\n.subckt step s1 cur=state go=go nxt=state$in\n.names state -> b<*0>\n.def 0\n(LOAD,RUN) 1\n.names b<*0> -> busy\n- =b<*0>\n.latch state$in state\n.r state\nIDLE\n.end\n.model step\n.inputs cur go\n.outputs nxt\n.mv cur, nxt 4 IDLE LOAD RUN DONE\n.names cur go -> nxt\nIDLE 0 IDLE\nIDLE 1 LOAD\nLOAD - RUN\nRUN - DONE\nDONE - IDLE\n.end\n";

/// Runs of it: one that it allows, two whose latch values aren't those that the step before gives, one that doesn't begin with the reset
/// value, and the run of no steps.
const CONTROLLED: &str = "\
0 IDLE 0;1 IDLE 0;0 LOAD 1;1 RUN 1; | yes;nets go state b<*0> busy .state state$in;step 0 0 0 0 0 0 0;step 1 1 0 0 0 0 1;\
step 2 0 1 1 1 0 2;step 3 1 2 1 1 0 3;
0 IDLE 0;0 IDLE 0;0 LOAD 1;1 RUN 1; | no 1;
0 IDLE 0;1 IDLE 0;0 LOAD 0;1 RUN 1; | no 2;
0 RUN 1; | no 0;
 | yes;nets go state b<*0> busy .state state$in;
";

/// A choice that two outputs read.
const CHOICE: &[u8] =
    b".model s\n.inputs\n.outputs p q\n.table -> c\n-\n.table c -> p\n- =c\n.table c -> q\n- =c\n.end\n";

const CHOSEN: &str = "\
0 1; | no 0;
1 1; | yes;nets c p q;step 0 1 1 1;
0 0;1 1;0 1;1 1; | no 2;
";

/// Two choices, of which the later one mends nothing where the earlier one is refused.
const MENDED: &[u8] =
    b".model m\n.inputs\n.outputs x y\n.table -> c\n-\n.table -> d\n-\n.table c d -> x\n1 - 1\n.table c d -> y\n1 0 0\n1 1 1\n.end\n";

const MENDS: &str = "\
1 0; | yes;nets c d x y;step 0 1 0 1 0;
1 1; | yes;nets c d x y;step 0 1 1 1 1;
0 0; | no 0;
";

#[test]
fn runs_are_allowed_or_not(rt: HostRuntime) -> Result<(), Fail> {
    all_end(&rt, rt.alloc(), Form::Traced(CONTROLLER), CONTROLLED)?;
    all_end(&rt, rt.alloc(), Form::Traced(CHOICE), CHOSEN)?;
    all_end(&rt, rt.alloc(), Form::Traced(MENDED), MENDS)?;
    let nothing = b".model u\n.inputs a\n.outputs z\n.table a -> z\n.end\n";
    all_end(&rt, rt.alloc(), Form::Traced(nothing), "0 0; | no 0;")?;
    let closed = b".model e\n.inputs\n.outputs\n.end\n";
    all_end(&rt, rt.alloc(), Form::Traced(closed), " | yes;nets;")
}

/// Run files that the controller's network refuses: lines that are too short or too long, words that name no value, a fault of the
/// bytes, lines of which two faults can be told, the last of them one too many.
const REFUSED: &str = "\
0 IDLE; | 1 Columns 3 2
0 IDLE 0;# a comment;0 IDLE 0 0; | 3 Columns 3 4
0 IDLE 2; | 1 UnknownValue 2
0 1 0; | 1 UnknownValue 1
0 IDLE 0;\u{80} | 2 Lex 1
2 9; | 1 Columns 3 2
~100000*0 IDLE 0;~0; | 100001 Steps
";

#[test]
fn run_files_are_refused_with_line_and_cause(rt: HostRuntime) -> Result<(), Fail> {
    all_end(&rt, rt.alloc(), Form::RunOn(CONTROLLER), REFUSED)?;
    let network = refused(2, b"# fault network 20 NoModel line 1\n");
    ends(&rt, rt.alloc(), traced(b"", b"\x80"), network)?;
    let words = refused(1, b"# fault words\n");
    for line in [
        "trace n",
        "trace n s t",
        "trace - -",
        "trace n s --free",
        "trace --budget 1000 n s",
        "trace n s --blif",
    ] {
        let given = Given {
            words: line,
            ..traced(CHOICE, b"1 1\n")
        };
        ends(&rt, rt.alloc(), given, words)?;
    }
    Ok(())
}

#[test]
fn an_output_that_fails_has_a_part_of_the_answer(rt: HostRuntime) -> Result<(), Fail> {
    for (run, out) in [
        (b"1 1\n", answered(b"yes\nnets c p q\nstep 0 1 1 1\n")),
        (b"0 1\n", answered(b"no 0\n")),
    ] {
        let given = traced(CHOICE, run).failing(Fault::Out(0, 2));
        let Text::Whole(text) = out.out else {
            return Err(Fail::from("an answer that isn't whole"));
        };
        ends(
            &rt,
            rt.alloc(),
            given,
            End {
                status: 5,
                out: Text::Part(text),
                ..out
            },
        )?;
    }
    Ok(())
}
