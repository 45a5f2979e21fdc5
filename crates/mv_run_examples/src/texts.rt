//! What is written of networks, and what is noted.
use crate::cases::{Form, all_end};
use crate::networks::INVERTER;
use crate::runs::{Given, ends, opt, written};
use std::test::Fail;

/// What is noted of the inverter.
const DONE: &[u8] = b"# done 2 2\n";

/// Words and scripts that say nothing, or give the option.
const IDLE: &[(&str, &str)] = &[
    ("opt n s", ""),
    ("opt n s", ";"),
    ("opt n s", " ; ;"),
    ("opt n s", ";;\n# x\n ; "),
    ("opt n s", "\r\n\t;;# drop\n"),
    ("opt n s", "#"),
    ("opt n s", "\n\n"),
    ("opt --budget=1000 n -- s", ""),
    ("opt n --budget 4000000 s", ""),
];

#[test]
fn a_script_may_say_nothing_and_the_option_stands_anywhere(rt: HostRuntime) -> Result<(), Fail> {
    for (words, script) in IDLE {
        let given = Given {
            words,
            ..opt(INVERTER, script.as_bytes())
        };
        ends(&rt, rt.alloc(), given, written(INVERTER, DONE))?;
    }
    Ok(())
}

/// Network files, what is written of them, and what the notes say.
const WRITTEN: &str = "\
-- The first model is the root, unless a line names another; one that isn't reached need not be sound.
.model m;.inputs a;.outputs z;.table a -> z;0 1;.end;.model n;.outputs y;.end; | .model m;.inputs a;.outputs z;.table a -> z;0 1;.end; | # done 1 1;
.model m;.outputs z;.end;.root n;.model n;.inputs b;.outputs b;.end; | .model n;.inputs b;.outputs b;.end; | # done 0 0;
.model m;.outputs z;.root n;.end;.model n;.inputs b;.outputs b;.end; | .model n;.inputs b;.outputs b;.end; | # done 0 0;
-- Blanks go, and columns stand in the order of the nets.
 .model\tm \r;;.inputs b a;.outputs z;.table y ->  z;1 0;0 1;.table a b -> y;1 - 1;0 0 0;.table -> c;1;.end | \
.model m;.inputs b a;.outputs z;.table y -> z;1 0;0 1;.table b a -> y;- 1 1;0 0 0;.table -> c;1;.end; | \
# done 5 5;
-- Names may have brackets and backslashes inside.
.model m{1};.inputs a(b a\\b x{1} );.outputs \\z;.table a(b a\\b x{1} ) -> \\z;1 0 1 1 0;.end; | \
.model m{1};.inputs a(b a\\b x{1} );.outputs \\z;.table a(b a\\b x{1} ) -> \\z;1 0 1 1 0;.end; | \
# done 4 4;
-- Names of nets may be digits, entries are turned round, and a table may have a default.
.model t;.inputs a 7;.outputs z;.mv a, 7 3;.table a 7 -> z;2 !2 1;.default 0;.end; | \
.model t;.inputs a 7;.outputs z;.mv a 3;.mv 7 3;.table a 7 -> z;.default 0;2 (0,1) 1;.end; | \
# done 2 2;
-- A partial table below a default.
.model x;.inputs a;.outputs z;.table a -> x;0 1;.table x -> z;.default 1;0 0;.end; | \
.model x;.inputs a;.outputs z;.table a -> x;0 1;.table x -> z;.default 1;0 0;.end; | \
# done 2 2;
-- Two columns of one net: a row that asks both values of it vanishes.
.model m;.inputs a;.outputs z;.table a a -> z;0 1 1;- 1 1;0 0 0;.end; | .model m;.inputs a;.outputs z;.table a -> z;1 1;0 0;.end; | # done 2 2;
-- Ranges and names with hyphens.
.model v;.inputs s;.outputs z;.mv s 4 a b a-b c;.table s -> z;{a-b} 1;{a-c} 0;!{ a-b , c } (0,1);.end; | \
.model v;.inputs s;.outputs z;.mv s 4 a b a-b c;.table s -> z;a-b 1;- 0;(a,b) -;.end; | \
# done 2 2;
-- A default that names a column needs a mark.
.model d;.inputs a b;.outputs z;.table a b -> z;1 - 1;.default =b;.end; | \
.model d;.inputs a b;.outputs z;.table a -> _m1;.default 1;1 0;.table a b _m1 -> z;1 - - 1;- 0 1 0;- 1 1 1;.end; | \
# done 6 6;
-- The mark has the first number whose name is free.
.model d;.inputs _m1 b;.outputs z;.table _m1 b -> z;1 - 1;.default =b;.end; | \
.model d;.inputs _m1 b;.outputs z;.table _m1 -> _m2;.default 1;1 0;.table _m1 b _m2 -> z;1 - - 1;- 0 1 0;- 1 1 1;.end; | \
# done 6 6;
-- A row that says no value takes the default away where it matches.
.model d;.inputs a;.outputs z;.table a -> z;.default 1;0 !-;.end; | \
.model d;.inputs a;.outputs z;.table a -> _m1;.default 1;0 0;.table _m1 -> z;1 1;.end; | \
# done 2 2;
-- So it needs no mark where it always matches: nothing is allowed then.
.model d;.inputs a;.outputs z;.table a -> z;.default 1;- !-;.end; | .model d;.inputs a;.outputs z;.table -> z;.end; | # done 0 0;
-- A default beside a row without literals goes.
.model d;.inputs a;.outputs z;.table a -> z;.default 1;- 0;.end; | .model d;.inputs a;.outputs z;.table -> z;0;.end; | # done 0 0;
-- Two tables give the value of one input.
.model e;.inputs a;.outputs p q;.mv a, p, q 3;.table a -> p;- =a;.table a -> q;(1,2) =a;.end; | \
.model e;.inputs a;.outputs p q;.mv a 3;.mv p 3;.mv q 3;.table a -> p;0 0;1 1;2 2;.table a -> q;1 1;2 2;.end; | \
# done 5 5;
-- Values are matched by position, whatever their names.
.model e;.inputs a;.outputs z;.mv a 2 x y;.mv z 2 y x;.table a -> z;- =a;.end; | \
.model e;.inputs a;.outputs z;.mv a 2 x y;.mv z 2 y x;.table a -> z;x y;y x;.end; | \
# done 2 2;
-- A net of one value: its full set is written `-`.
.model o;.inputs a;.outputs z;.mv a 1;.mv z 1 only;.table a -> z;0 only;.end; | \
.model o;.inputs a;.outputs z;.mv a 1;.mv z 1 only;.table -> z;-;.end; | \
# done 0 0;
-- Names as strange as they may be.
.model m-1;.inputs - = !a 7 a=b;.outputs 0 -;.mv = 3 x-y * <1>;.table - = -> 0;0 x-y 1;1 (*,<1>) 0;.end; | \
.model m-1;.inputs - = !a 7 a=b;.outputs 0 -;.mv = 3 x-y * <1>;.table - = -> 0;0 x-y 1;1 (*,<1>) 0;.end; | \
# done 4 4;
-- Values that are spelled out and are the numbers from 0 aren't written.
.model n;.inputs a b;.outputs;.mv a 3 0 1 2;.mv b 2 0 1;.end; | .model n;.inputs a b;.outputs;.mv a 3;.end; | # done 0 0;
-- Lines may be left out, and a table's output may stand last without an arrow.
.model m;.inputs a;.outputs z;.names a z;.def 0;1 1;.end; | .model m;.inputs a;.outputs z;.table a -> z;.default 0;1 1;.end; | # done 1 1;
-- A table without rows, and no ports.
.model m;.table -> z;.end; | .model m;.inputs;.outputs;.table -> z;.end; | # done 0 0;
-- Each mark has the first number whose name is free, behind the marks before it.
.model m;.inputs _m1 _m3;.outputs z y;.table _m1 -> y;1 1;.default =_m1;.table _m1 -> z;0 0;.default =_m1;.end; | \
.model m;.inputs _m1 _m3;.outputs z y;.table _m1 -> _m2;.default 1;1 0;.table _m1 _m2 -> y;1 - 1;0 1 0;1 1 1;.table _m1 -> _m4;.default 1;0 0;\
.table _m1 _m4 -> z;0 - 0;0 1 0;1 1 1;.end; | \
# done 12 12;
-- A mark's table has each cube once, also where the rows differ in their output.
.model m;.inputs a b;.outputs z;.table a b -> z;1 - 0;1 - 1;.default =b;.end; | \
.model m;.inputs a b;.outputs z;.table a -> _m1;.default 1;1 0;.table a b _m1 -> z;1 - - 0;1 - - 1;- 0 1 0;- 1 1 1;.end; | \
# done 7 7;
-- A row that says no value takes a default that names a column away where it matches.
.model m;.inputs a;.outputs z;.table a -> z;0 !-;.default =a;.end; | \
.model m;.inputs a;.outputs z;.table a -> _m1;.default 1;0 0;.table a _m1 -> z;0 1 0;1 1 1;.end; | \
# done 5 5;
-- A default beside a row without literals goes, and with it the need of a mark.
.model m;.inputs a;.outputs z;.table a -> z;- 1;0 0;.default =a;.end; | .model m;.inputs a;.outputs z;.table a -> z;- 1;0 0;.end; | # done 1 1;
-- A default that says no value is none, and then a row that says none goes.
.model m;.inputs a;.outputs z;.table a -> z;0 !-;1 1;.default !-;.end; | .model m;.inputs a;.outputs z;.table a -> z;1 1;.end; | # done 1 1;
-- Rows that are equal once columns of one net are met are written once, the first kept.
.model m;.inputs a;.outputs z;.mv a 3;.table a a -> z;(0,1) (1,2) 1;2 - 0;- 1 1;.default -;.end; | \
.model m;.inputs a;.outputs z;.mv a 3;.table a -> z;.default -;1 1;2 0;.end; | \
# done 2 2;
-- A row that names a column has a row for each value that both of its columns may have.
.model m;.inputs a b;.outputs z;.mv a b z 3;.table a b a -> z;(0,1) 2 (1,2) =a;!0 - !1 =b;.end; | \
.model m;.inputs a b;.outputs z;.mv a 3;.mv b 3;.mv z 3;.table a b -> z;1 2 1;2 0 0;2 1 1;2 2 2;.end; | \
# done 8 8;
-- Names of values are written unless they are the numbers from 0.
.model m;.inputs a b;.outputs z;.mv z 2 no yes;.mv a 3 0 1 2;.mv b 1 0;.table a b -> z;!1 0 yes;1 - no;.end; | \
.model m;.inputs a b;.outputs z;.mv a 3;.mv b 1;.mv z 2 no yes;.table a -> z;(0,2) yes;1 no;.end; | \
# done 2 2;
-- A default of several values stands in brackets.
.model d;.inputs k;.outputs z;.mv k 1;.mv z 3;.table -> z;.default (0,2);.end; | \
.model d;.inputs k;.outputs z;.mv k 1;.mv z 3;.table -> z;.default (0,2);.end; | \
# done 0 0;
-- An input may be an output too, and a default may name the only column.
.model m;.inputs a;.outputs a z;.table a a -> z;.default =a;.end; | \
.model m;.inputs a;.outputs a z;.table -> _m1;.default 1;.table a _m1 -> z;0 1 0;1 1 1;.end; | \
# done 4 4;
-- Commas may stand between names, and a net may be declared again in the same way.
.model m;.inputs a b;.outputs;.mv a , b 3 x , y,z ,;.mv a b 3 x,y,z;.mv a a 03 x y z;.end; | \
.model m;.inputs a b;.outputs;.mv a 3 x y z;.mv b 3 x y z;.end; | \
# done 0 0;
-- A net may have 1,024 values.
.model m;.inputs a;.outputs;.mv a 1024;.end; | .model m;.inputs a;.outputs;.mv a 1024;.end; | # done 0 0;
-- Each form of an entry.
.model w;.inputs x y;.outputs z;.mv x 5 a b a-b c d;.mv y 18;.table x y -> z;- 0 1;a 1 1;d 2 1;a-b 3 1;!a 4 1;!!a 5 1;!!- 6 1;(a) 7 1;{a,c} 8 1;\
( c , a,c ) 9 1;{b-c} 10 1;{a-b-c} 11 1;{a-a-b} 12 1;{a-b} 13 1;{b-b} 14 1;!{a-b,c} 15 1;!!(b,d) 16 1;!- 17 1;.end; | \
.model w;.inputs x y;.outputs z;.mv x 5 a b a-b c d;.mv y 18;.table x y -> z;- 0 1;a 1 1;d 2 1;a-b 3 1;(b,a-b,c,d) 4 1;a 5 1;- 6 1;a 7 1;\
(a,c) 8 1;(a,c) 9 1;(b,a-b,c) 10 1;(a-b,c) 11 1;(a,b,a-b) 12 1;a-b 13 1;b 14 1;(a,b,d) 15 1;(b,d) 16 1;.end; | \
# done 32 32;
";

#[test]
fn values_sets_and_defaults_are_written_in_one_form(rt: HostRuntime) -> Result<(), Fail> {
    all_end(&rt, rt.alloc(), Form::Written(b""), WRITTEN)
}

#[test]
fn what_was_written_is_written_again_as_it_is(rt: HostRuntime) -> Result<(), Fail> {
    all_end(&rt, rt.alloc(), Form::Again, WRITTEN)
}

/// The inverter's file with comments, joined lines, carriage returns and blanks.
const DRESSED: &str = "\
# an inverter;.model inv;.inputs a # in;.outputs z#out;.table a -> z;0 1;1 0;.end;#
.model inv;.inputs a;.outputs z;.table a -> z;0 1 # \u{80} \0 (;1 0;.end # \u{80}
.model \\;inv;.inputs \\;\\;a;.outputs z;.table a\\;-> z;0 1;1\\;0;.end\\
.model inv\r;.inputs a\r;.outputs z\r;.table a -> z\r;0 1\r;1 0\r;.end\r;
.model inv;.inputs\\\r;a;.outputs z;.table a\r-> z;0 1;1 0;.end\\\r
;; \t;.model inv;;.inputs\ta;.outputs  z;.table a -> z; 0 1 ;1 0;;.end;;
.model inv;.inputs a#\\;.outputs z;.table a -> z;0 1;1 0;.end
\\;.model inv;.inputs a;# \\;.outputs z;.table a -> z;0 1;1 0;.end;";

#[test]
fn comments_and_joined_lines_mean_nothing(rt: HostRuntime) -> Result<(), Fail> {
    all_end(&rt, rt.alloc(), Form::Alike(INVERTER, DONE), DRESSED)
}
