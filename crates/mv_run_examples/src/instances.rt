//! Designs of several models in one another, as one network, and what is wrong with them.
use crate::cases::{Form, all_end};
use std::test::Fail;

/// Designs with instances, and what is written of each.
const WRITTEN: &str = "\
-- A net of an instance has the instance's name before its own; a formal that is bound is the net to which it is bound.
.model r;.inputs a;.outputs z;.subckt A u x=a y=z;.end;.model A;.inputs x;.outputs y w;.subckt B v d=x q=y;.table x -> w;- =x;.end;\
.model B;.inputs d;.outputs q;.latch d s;.table s -> q;- =s;.end; | \
.model r;.inputs a;.outputs z;.latch a u.v.s;.table a -> u.w;0 0;1 1;.table u.v.s -> z;0 0;1 1;.end; | # done 4 4;
-- Two formals are bound to one net: rows have to hold for both.
.model m;.inputs a;.outputs z;.subckt A u x=a y=a w=z;.end;.model A;.inputs x y;.outputs w;.table x y -> w;.default 0;1 1 1;0 1 1;.end; | \
.model m;.inputs a;.outputs z;.table a -> z;.default 0;1 1;.end; | # done 1 1;
-- The output of an instance is its own input, and no net is above itself.
.model m;.inputs a;.outputs z;.subckt A u p=a q=n r=n s=z;.end;.model A;.inputs p r;.outputs q s;.table p -> q;- =p;.table r -> s;- =r;.end; | \
.model m;.inputs a;.outputs z;.table a -> n;0 0;1 1;.table n -> z;0 0;1 1;.end; | # done 4 4;
-- Equal rows stand once, however often their table is held, and whichever nets its columns are: in either order, or one net.
.model r;.inputs a b c;.outputs p q s t;.subckt A u x=a y=b z=p;.subckt A v x=b y=c z=q;.subckt A w x=c y=a z=s;.subckt A k x=b y=b z=t;.end;\
.model A;.inputs x y;.outputs z;.table x y -> z;.default 0;\
1 0 1;1 0 1;1 0 1;1 0 1;1 0 1;1 0 1;1 0 1;1 0 1;1 0 1;1 0 1;1 0 1;1 0 1;1 0 1;1 0 1;1 0 1;1 0 1;\
1 0 1;1 0 1;1 0 1;1 0 1;1 0 1;1 0 1;1 0 1;1 0 1;1 0 1;1 0 1;1 0 1;1 0 1;1 0 1;1 0 1;1 0 1;1 0 1;\
1 0 1;1 0 1;1 0 1;1 0 1;1 0 1;1 0 1;1 0 1;1 0 1;1 0 1;1 0 1;1 0 1;1 0 1;1 0 1;1 0 1;1 0 1;1 0 1;\
1 0 1;1 0 1;1 0 1;1 0 1;1 0 1;1 0 1;1 0 1;1 0 1;1 0 1;1 0 1;1 0 1;1 0 1;1 0 1;1 0 1;1 0 1;1 0 1;\
1 1 1;.end; | \
.model r;.inputs a b c;.outputs p q s t;.table a b -> p;.default 0;1 0 1;1 1 1;.table b c -> q;.default 0;1 0 1;1 1 1;\
.table a c -> s;.default 0;0 1 1;1 1 1;.table b -> t;.default 0;1 1;.end; | # done 13 13;
-- A latch in an instance drives an output of the root.
.model m;.inputs d;.outputs s;.subckt L u i=d o=s;.end;.model L;.inputs i;.outputs o;.latch i o;.reset -> o;1;.end; | \
.model m;.inputs d;.outputs s;.latch d s;.reset -> s;1;.end; | # done 0 0;
-- The values of a net that is bound have the names that they have round the instance.
.model m;.inputs a b;.outputs y z;.mv a, y 2 no yes;.subckt A u x=a o=y;.subckt A v x=b o=z;.end;\
.model A;.inputs x;.outputs o;.mv x, o 2 f t;.table x -> o;f t;t f;.end; | \
.model m;.inputs a b;.outputs y z;.mv a 2 no yes;.mv y 2 no yes;.table a -> y;no yes;yes no;.table b -> z;0 1;1 0;.end; | # done 4 4;
-- A model behind the root may be the one of which all are instances, and one that is nowhere an instance isn't looked at.
.model A;.inputs x;.outputs y;.table x -> y;0 1;1 0;.end;.root m;.model m;.inputs a;.outputs z;.subckt A u x=a y=z;.end;\
.model lone;.outputs q;.subckt none n;.end; | \
.model m;.inputs a;.outputs z;.table a -> z;0 1;1 0;.end; | # done 2 2;
-- A controller: its state is a latch of the root, whose next state an instance gives.
.model main;.inputs go;.outputs busy;.mv state, state$in 4 IDLE LOAD RUN DONE;.subckt step s1 cur=state go=go nxt=state$in;\
.names state -> b<*0>;.def 0;(LOAD,RUN) 1;.names b<*0> -> busy;- =b<*0>;.latch state$in state;.r state;IDLE;.end;\
.model step;.inputs cur go;.outputs nxt;.mv cur, nxt 4 IDLE LOAD RUN DONE;.names cur go -> nxt;\
IDLE 0 IDLE;IDLE 1 LOAD;LOAD - RUN;RUN - DONE;DONE - IDLE;.end; | \
.model main;.inputs go;.outputs busy;.mv state 4 IDLE LOAD RUN DONE;.mv state$in 4 IDLE LOAD RUN DONE;.latch state$in state;\
.table state -> b<*0>;.default 0;(LOAD,RUN) 1;.table b<*0> -> busy;0 0;1 1;.reset -> state;IDLE;\
.table go state -> state$in;0 IDLE IDLE;1 IDLE LOAD;- LOAD RUN;- RUN DONE;- DONE IDLE;.end; | # done 10 10;
";

#[test]
fn a_design_is_written_as_one_network(rt: HostRuntime) -> Result<(), Fail> {
    all_end(&rt, rt.alloc(), Form::Written(b""), WRITTEN)
}

/// The same controller, and what `sweep` and `eliminate` leave of it.
const CONTROLLER: &str = "\
.model main;.inputs go;.outputs busy;.mv state, state$in 4 IDLE LOAD RUN DONE;.subckt step s1 cur=state go=go nxt=state$in;\
.names state -> b<*0>;.def 0;(LOAD,RUN) 1;.names b<*0> -> busy;- =b<*0>;.latch state$in state;.r state;IDLE;.end;\
.model step;.inputs cur go;.outputs nxt;.mv cur, nxt 4 IDLE LOAD RUN DONE;.names cur go -> nxt;\
IDLE 0 IDLE;IDLE 1 LOAD;LOAD - RUN;RUN - DONE;DONE - IDLE;.end; | \
.model main;.inputs go;.outputs busy;.mv state 4 IDLE LOAD RUN DONE;.mv state$in 4 IDLE LOAD RUN DONE;.latch state$in state;\
.table state -> busy;(IDLE,DONE) 0;(LOAD,RUN) 1;.reset -> state;IDLE;\
.table go state -> state$in;0 IDLE IDLE;1 IDLE LOAD;- LOAD RUN;- RUN DONE;- DONE IDLE;.end; | \
# begin sweep;# end 10;# begin eliminate;collapse b<*0>;# end 9;# done 10 9;
";

#[test]
fn a_script_runs_on_the_network_of_a_design(rt: HostRuntime) -> Result<(), Fail> {
    all_end(
        &rt,
        rt.alloc(),
        Form::Written(b"sweep; eliminate"),
        CONTROLLER,
    )
}

/// Designs that are refused for their instances, or for the nets of these.
const REFUSED: &str = "\
.model m;.subckt x u;.end; | 22 NoSuchModel x
.model m;.subckt m u;.end; | 23 Recursive m
.model m;.inputs a;.subckt A u q=a;.end;.model A;.end; | 24 NoFormal u.q
.model m;.inputs a;.subckt A u x=a;.end;.model A;.inputs x;.mv x 3;.end; | 25 PortValues u.x a
.model m;.subckt A u;.end;.model A;.inputs x;.end; | 26 PortOpen u.x
-- All commands of a model are looked at before what is inside the first of its instances.
.model m;.subckt A u;.subckt q v;.end;.model A;.subckt p w;.end; | 22 NoSuchModel q
.model m;.subckt A u;.end;.model A;.subckt B v x=a;.end;.model B;.inputs x;.subckt A w;.end; | 23 Recursive A
.model r;.inputs a;.outputs z;.subckt A u x=a y=z;.table -> u.v.s;0;.end;.model A;.inputs x;.outputs y w;.subckt B v d=x q=y;\
.table x -> w;- =x;.end;.model B;.inputs d;.outputs q;.latch d s;.table s -> q;- =s;.end; | 27 NameClash u.v.s
.model m;.inputs a;.outputs z;.subckt A u x=a y=z;.subckt A v x=a y=z;.end;.model A;.inputs x;.outputs y;.table x -> y;- =x;.end; | 28 DrivenTwice z
.model m;.subckt A u;.end;.model A;.outputs y;.end; | 29 Undriven u.y
.model m;.outputs z;.subckt A u x=z y=z;.end;.model A;.inputs x;.outputs y;.table x -> y;- =x;.end; | 30 Cycle z
.model m;.inputs d;.subckt L u i=d;.end;.model L;.inputs i;.latch i s;.latch i t;.r t -> s;- =t;.end; | 31 ResetReadsLatch u.s u.t
.model m;.inputs d;.subckt L u i=d;.end;.model L;.inputs i;.outputs o;.latch i o;.r o;0;.r o;1;.end; | 32 ResetTwice u.o
-- The model of the instance isn't ended.
# from a controller;.model main;.inputs go;.outputs busy;.mv state, state$in 4 IDLE LOAD RUN DONE;.subckt step s1 cur=state go=go nxt=state$in;\
.names state -> b<*0>;.def 0;(LOAD,RUN) 1;.names b<*0> -> busy;- =b<*0>;.latch state$in state;.r state;IDLE;.end;\
.model step;.inputs cur go;.outputs nxt;.mv cur, nxt 4 IDLE LOAD RUN DONE;.names cur go -> nxt;\
IDLE 0 IDLE;IDLE 1 LOAD;LOAD - RUN;RUN - DONE;DONE - IDLE; | 7 NoEnd line 16
-- The latch of a reset table is told by its name in the model, not by the net that this is.
.model m;.inputs d;.outputs s;.subckt L u i=d x=s y=s;.end;.model L;.inputs i;.outputs x y;.latch i x;.r y;0;.end; | 33 NoLatch s
";

#[test]
fn designs_are_refused_for_their_instances(rt: HostRuntime) -> Result<(), Fail> {
    all_end(&rt, rt.alloc(), Form::Network, REFUSED)
}
