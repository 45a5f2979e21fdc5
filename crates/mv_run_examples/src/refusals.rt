//! What is refused, and with which line.
use crate::cases::{Form, all_end};
use crate::networks::INVERTER;
use crate::runs::{End, Given, ends, opt, refused};
use std::alloc::Global;
use std::process::Abort;
use std::test::Fail;

/// Words that are refused, the first of which are none.
const WORDS: &str = "
opt
opt n
opt n s x
opt - -
fold n s
opts n s
opt -x s
opt n --
opt --help
opt n s --budget
opt n s --budget 999
opt n s --budget 12345678
opt n s --budget=4000001
opt --budget 1000 n s --budget=1000
opt --free n s --free
opt n s --free=x
opt n s --free=
opt n s --freely
opt --blif n s --blif
opt n s --blif=1
work --blif 1 1 s
trace n s --blif
opt n s --budget --free
check --free n --free s
work 1 1 s --free=1
--free opt n s
opt n -- s --budget=1000
check
check n s x
check - -
check n -c
checks n s
work 1 1
work 0 1 s
work 20001 1 s
work 1 18446744073709551616 s";

/// Words that name a file that is missing.
const MISSING: &str = "\
opt x s
opt n x
opt - s
opt n -
check n x
check x s
work 1 18446744073709551615 x";

/// A run with each of these words ends so.
fn each_ends(rt: &impl Abort, alloc: Global, lines: &str, end: End) -> Result<(), Fail> {
    for words in lines.split('\n') {
        let given = Given {
            words,
            ..opt(INVERTER, b"")
        };
        ends(rt, alloc, given, end)?;
    }
    Ok(())
}

#[test]
fn words_are_refused_and_files_are_missing(rt: HostRuntime) -> Result<(), Fail> {
    each_ends(&rt, rt.alloc(), WORDS, refused(1, b"# fault words\n"))?;
    each_ends(&rt, rt.alloc(), MISSING, refused(4, b"# fault read\n"))
}

/// Scripts and the end of the line that tells their first fault, behind the bar.
const SCRIPTS: &str = "\
x# | 1 UnknownWord 0
;;sweep 1 | 1 UnknownWord 8
sweep; fold | 1 UnknownWord 7
Drop | 1 UnknownWord 0
collapse a b | 1 UnknownWord 11
drop\u{b} | 1 UnknownWord 0
collapse a\u{80} | 1 UnknownWord 10
simplify \u{80} | 1 UnknownWord 9
collapse | 2 Missing 8
collapse # a | 2 Missing 12
collapse ;a | 2 Missing 9
collapse{ | 2 Missing 8
simplify 1; 1 | 2 Missing 10
simplify x\u{80} 1 | 2 Missing 9
repeat { } | 2 Missing 7
better { simplify 1 | 2 Missing 19
simplify 9 x | 3 NumberRange 9
simplify 9 0 | 3 NumberRange 9
simplify 08 09 | 3 NumberRange 12
repeat 0 { } | 3 NumberRange 7
repeat 1001 { } | 3 NumberRange 7
drop{ | 4 Brace 4
eliminate } | 4 Brace 10
repeat 2 drop | 4 Brace 9
better { drop | 4 Brace 13
repeat 2 { sweep | 4 Brace 16
repeat 10 { repeat 1000 { drop } } ; drop | 6 TooMany 37
drop; repeat 101 { better { repeat 99 { drop } drop } } | 6 TooMany 6
";

#[test]
fn a_script_is_refused_with_its_first_fault(rt: HostRuntime) -> Result<(), Fail> {
    all_end(&rt, rt.alloc(), Form::Script, SCRIPTS)
}

/// Network files whose lines have a fault, and the end of the line that tells it.
const REFUSED: &str = "\
-- One fault of each kind.
.model m;.gate x; | 5 UnknownCommand line 2 .gate
.inputs a; | 6 OutsideModel line 1
.model; | 8 Missing line 1 .model
.model m n; | 9 Extra line 1 .model
.model m;.mv x 0; | 10 BadCount line 2 0
.model m;.mv x 2 p; | 11 ValueNames line 2 2 1
.model m;.mv x 2;.mv x 3; | 12 Redeclared line 3 x
.model m;.table a -> z;0; | 13 Columns line 3 2 1
.model m;.table a -> z;2 0;.end; | 14 UnknownValue line 3 2
.model m;.table a -> z;- =b;.end; | 15 BadEqual line 3 b
.model m;.table -> z;.default 0;.def 1; | 16 DefaultTwice line 4
.model m;.inputs a a; | 19 Repeated line 2 a
.model m;.inputs a; | 7 NoEnd line 1
.model m;.mv x 1025; | 21 Limit line 2 Values 1025
.model a=b; | 36 BadName line 1 a=b
.model m;0 1; | 37 NoTable line 2
 | 20 NoModel line 1
-- A line is judged by its place first.
0 1; | 6 OutsideModel line 1
.default 0; | 6 OutsideModel line 1
.table -> z, z; | 6 OutsideModel line 1
.table -> z ->; | 6 OutsideModel line 1
.model m;.table a -> b ->; | 36 BadName line 2 ->
.model m;.table .a -> b ->; | 36 BadName line 2 .a
.gate x; | 5 UnknownCommand line 1 .gate
.; | 5 UnknownCommand line 1 .
.end; | 6 OutsideModel line 1
.latch; | 6 OutsideModel line 1
.model m;.end;0 1; | 6 OutsideModel line 3
.model m;.end;.end x; | 6 OutsideModel line 3
.model m;.end;.model m; | 17 ModelTwice line 3 m
.model m;.end;.root q; | 18 RootFault line 3 q
.model m;.latch a; | 8 Missing line 2 .latch
.model m;.r; | 8 Missing line 2 .r
.model m;.reset; | 8 Missing line 2 .reset
.model m;.subckt; | 8 Missing line 2 .subckt
.model m;.table a, -> b c; | 36 BadName line 2 a,
.model m;.model n; | 7 NoEnd line 1
 ;.model m;.model; | 7 NoEnd line 2
.model a=b c; | 36 BadName line 1 a=b
.model .a; | 36 BadName line 1 .a
.model a,b; | 36 BadName line 1 a,b
.model ->; | 36 BadName line 1 ->
.model (a); | 36 BadName line 1 (a)
.model a\\ b; | 36 BadName line 1 a\\
.model m;.inputs a;.outputs z;.table a -> z;0 1; | 7 NoEnd line 1
.model m;.end;.end; | 6 OutsideModel line 3
.model m;.end;.model m n; | 17 ModelTwice line 3 m
.model m;.end;.model a=b c; | 36 BadName line 3 a=b
.model m;.end;.model; | 8 Missing line 3 .model
.model m;.end;.model n; | 7 NoEnd line 3
.model m;.end;.model n;.inputs a a; | 19 Repeated line 4 a
.subckt n u; | 6 OutsideModel line 1
.model m=n;.end; | 36 BadName line 1 m=n
.model m;.inputs a;0 1;.table a -> z;.end; | 37 NoTable line 3
.model m;.inputs a\\ b;.end; | 36 BadName line 2 a\\
.model m;.inputs a;.outputs z;.latch a z 0;.end; | 9 Extra line 4 .latch
-- Names and declarations are judged from left to right, commas with the word that they stand in.
.model m;.inputs a;.inputs b a; | 19 Repeated line 3 a
.model m;.inputs a a b,; | 19 Repeated line 2 a
.model m;.inputs b, a a; | 36 BadName line 2 b,
.model m;.outputs z z; | 19 Repeated line 2 z
.model m;.outputs !{a}; | 36 BadName line 2 !{a}
.model m;.mv; | 8 Missing line 2 .mv
.model m;.mv a; | 8 Missing line 2 .mv
.model m;.mv a,3; | 8 Missing line 2 .mv
.model m;.mv ,a 2; | 8 Missing line 2 .mv
.model m;.mv a,,b 2; | 8 Missing line 2 .mv
.model m;.mv,a 3; | 5 UnknownCommand line 2 .mv,a
.model m;.mv {a,b} 2; | 36 BadName line 2 {a
.model m;.mv a 000; | 10 BadCount line 2 000
.model m;.mv a 01025 p -; | 21 Limit line 2 Values 1025
.model m;.mv a 99999999999999999999; | 21 Limit line 2 Values 18446744073709551615
.model m;.mv a 2 p p q; | 19 Repeated line 2 p
.model m;.mv a 3 p -; | 36 BadName line 2 -
.model m;.mv a 2;.mv a 3 p q; | 11 ValueNames line 3 3 2
.model m;.mv a b 2;.mv c b a 3; | 12 Redeclared line 3 b
.model m;.mv a 2;.mv a 2 1 0; | 12 Redeclared line 3 a
.model m;.mv a b, 2; | 8 Missing line 2 .mv
.model m;.mv -> 2; | 36 BadName line 2 ->
.model m;.mv .a, 2; | 36 BadName line 2 .a
.model m;.mv a .b ,, 0; | 36 BadName line 2 .b
.model m;.mv a 000 p p; | 10 BadCount line 2 000
.model m;.mv a 18446744073709551616; | 21 Limit line 2 Values 18446744073709551615
.model m;.mv a 2 p , q , r; | 11 ValueNames line 2 2 3
.model m;.mv a 2 3; | 11 ValueNames line 2 2 1
.model m;.mv a 2 !p q; | 36 BadName line 2 !p
.model m;.mv a 2 {p,q}; | 36 BadName line 2 {p
.model m;.mv a 3;.mv b a 3 0 1 3; | 12 Redeclared line 3 a
-- Columns are judged where they stand, and rows counted.
.model m;.names; | 8 Missing line 2 .names
.model m;.table a ->; | 8 Missing line 2 .table
.model m;.table a, ->; | 36 BadName line 2 a,
.model m;.table a -> ->; | 36 BadName line 2 ->
.model m;.names a (z); | 36 BadName line 2 (z)
.model m;.table a -> z;.inputs a;0 1; | 37 NoTable line 4
.model m;.table -> z;.mv a 2;.default 0; | 37 NoTable line 4
.model m;.table -> z;.default; | 8 Missing line 3 .default
.model m;.table -> z;.def 0 1; | 9 Extra line 3 .def
.model m;.table -> z;.default 0;.default; | 16 DefaultTwice line 4
.model m;.table a -> z;0 1 0; | 13 Columns line 3 2 3
-- A root is named once, inside or outside a model, and has to be one.
.root; | 8 Missing line 1 .root
.root a=b c; | 36 BadName line 1 a=b
.root m n; | 9 Extra line 1 .root
.root m;.model m;.root n x; | 18 RootFault line 3 n
.root m;.root .n; | 36 BadName line 2 .n
.root m; | 20 NoModel line 1
.model m;.root q;.end;.model n;.end; | 18 RootFault line 2 q
.model m;.root q; | 7 NoEnd line 1
.model m;.table -> z;.root m;0; | 37 NoTable line 4
-- A model that the root doesn't reach is judged by its lines all the same.
.model m;.end;.model n;.table a -> z;2 0;.end; | 14 UnknownValue line 5 2
-- Latches and reset tables are judged from left to right too.
.model m;.latch a .b; | 36 BadName line 2 .b
.model m;.latch a, ; | 36 BadName line 2 a,
.model m;.latch a b .c; | 9 Extra line 2 .latch
.model m;.reset a -> s t; | 9 Extra line 2 .reset
.model m;.reset a -> s ->; | 9 Extra line 2 .reset
.model m;.reset .a -> s t; | 36 BadName line 2 .a
.model m;.r a ->; | 8 Missing line 2 .r
.model m;.reset a s;0 1 0; | 13 Columns line 3 2 3
.model m;.r -> s;.latch d s;0; | 37 NoTable line 4
.model m;.r -> s;.default 0;.def 0; | 16 DefaultTwice line 4
-- So is the line of an instance, each binding at its first `=`.
.model m;.subckt a=b; | 36 BadName line 2 a=b
.model m;.subckt n; | 8 Missing line 2 .subckt
.model m;.subckt n u=v x; | 36 BadName line 2 u=v
.model m;.subckt n u x .y=a; | 8 Missing line 2 .subckt
.model m;.subckt n u x=; | 8 Missing line 2 .subckt
.model m;.subckt n u .x=.a; | 36 BadName line 2 .x
.model m;.subckt n u x=a x=.b; | 19 Repeated line 2 x
.model m;.subckt n u x=.a x=b; | 36 BadName line 2 .a
.model m;.subckt n u (x=a); | 36 BadName line 2 (x
.model m;.subckt n u x=(a); | 36 BadName line 2 (a)
.model m;.subckt n u;.subckt k u x; | 19 Repeated line 3 u
.model m;.table -> z;.subckt n u;0; | 37 NoTable line 4
-- Values are judged at the end of their model, the default first.
.model m;.table a -> z;2 0; | 7 NoEnd line 1
.model m;.table a -> z;2 0;.table b -> y;0; | 13 Columns line 5 2 1
.model m;.table a -> z;2 0;.end x; | 9 Extra line 4 .end
.model m;.table a -> z;.default 5;2 0;.end; | 14 UnknownValue line 3 5
.model m;.table a -> z;0 2;3 0;.end; | 14 UnknownValue line 3 2
.model m;.table a -> z;2 3;.end; | 14 UnknownValue line 3 2
.model m;.table a -> z;=a 0;.end; | 15 BadEqual line 3 a
.model m;.table a -> z;0 !=a;.end; | 15 BadEqual line 3 a
.model m;.table a -> z;!!=x 0;.end; | 15 BadEqual line 3 x
.model m;.table a -> z;0 =z;.end; | 15 BadEqual line 3 z
.model m;.table a -> z;0 =;.end; | 15 BadEqual line 3\x20
.model m;.mv a 3;.table a -> z;- =a;.end; | 15 BadEqual line 4 a
.model m;.table a -> z;(=a) 0;.end; | 14 UnknownValue line 3 =a
.model m;.table a -> z;() 0;.end; | 14 UnknownValue line 3\x20
.model m;.table a -> z;!x 0;.end; | 14 UnknownValue line 3 !x
.model m;.table a -> z;! 0;.end; | 14 UnknownValue line 3 !
.model m;.table a -> z;{0,x,y} 0;.end; | 14 UnknownValue line 3 x
.model m;.table a -> z;{1-0} 0;.end; | 14 UnknownValue line 3 1-0
.model m;.table a -> z;0-1 0;.end; | 14 UnknownValue line 3 0-1
.model m;.mv x 5 a b a-b c d;.table x -> z;!a-x 1;.end; | 14 UnknownValue line 4 !a-x
.model m;.mv x 5 a b a-b c d;.table x -> z;{a-x} 1;.end; | 14 UnknownValue line 4 a-x
.model m;.mv x 5 a b a-b c d;.table x -> z;{c-a} 1;.end; | 14 UnknownValue line 4 c-a
.model m;.mv x 5 a b a-b c d;.table x -> z;{a,} 1;.end; | 14 UnknownValue line 4\x20
.model m;.mv x 5 a b a-b c d;.table x -> z;!(,a) 1;.end; | 14 UnknownValue line 4\x20
.model m;.mv x 5 a b a-b c d;.table x -> z;{-} 1;.end; | 14 UnknownValue line 4 -
.model m;.mv x 5 a b a-b c d;.table x -> z;{} 1;.end; | 14 UnknownValue line 4\x20
-- Rows, defaults and latches are judged line by line together.
.model m;.inputs p;.mv p 3;.latch p q;.end; | 38 LatchValues line 4 p q
.model m;.mv d 3;.table a -> z;2 0;.latch d s;.end; | 14 UnknownValue line 4 2
.model m;.mv d 3;.latch d s;.table a -> z;2 0;.end; | 38 LatchValues line 3 d s
.model m;.r i -> s;2 1;.mv d 3;.latch d s;.end; | 14 UnknownValue line 3 2
.model m;.latch d s;.r i -> s;.default 2;.end; | 14 UnknownValue line 4 2
.model m;.latch d s;.r i -> s;- =j;.end; | 15 BadEqual line 4 j
-- What a bracketed word and a joined line are.
.model m;.inputs !!{ x\t}!y; | 36 BadName line 2 !!{x}
.model m;.inputs (a\\b \\c\rd); | 36 BadName line 2 (a\\b\\cd)
.model m;.inputs (a\\;b); | 36 BadName line 2 (ab)
.model m;.inputs a(b c) {a)(b}; | 36 BadName line 2 {a)(b}
;.model\\\r;\\;m;x; | 37 NoTable line 5
.model m;.inputs a\\\r\r;x; | 36 BadName line 2 a\\
";

#[test]
fn faults_of_the_lines_are_told_with_their_line(rt: HostRuntime) -> Result<(), Fail> {
    all_end(&rt, rt.alloc(), Form::Network, REFUSED)
}

/// Network files whose design isn't sound, and the end of the line that tells it.
const UNSOUND: &str = "\
.model m;.table -> z;1;.table -> z;1;.end; | 28 DrivenTwice z
.model m;.inputs a;.table -> a;1;.end; | 28 DrivenTwice a
.model m;.outputs y;.end; | 29 Undriven y
.model m;.outputs z;.table b -> z;0 1;.end; | 29 Undriven b
.model m;.outputs z;.table z -> z;0 1;.end; | 30 Cycle z
.model c;.inputs;.outputs x;.table y -> x;- =y;.table x -> y;- =x;.end; | 30 Cycle x
-- A column that holds only `-` counts too.
.model m;.outputs z;.table y -> z;- 1;.table z -> y;- 1;.end; | 30 Cycle z
-- What is driven twice is told first, then what is not driven, then a cycle.
.model m;.outputs z u;.table z -> z;- 1;.table -> t;1;.table -> t;1;.end; | 28 DrivenTwice t
.model m;.outputs x;.table -> z;.table -> z;.end; | 28 DrivenTwice z
.model m;.outputs x z;.table z -> z;.end; | 29 Undriven x
-- Of two nets the one that is named first is told, whichever table stands first.
.model m;.outputs x y;.table -> y;.table -> y;.table -> x;.table -> x;.end; | 28 DrivenTwice x
.model m;.outputs y x;.table u v -> t;.table -> x;.end; | 29 Undriven y
.model m;.table v u -> t;.end; | 29 Undriven v
-- The net that is told is on the cycle, and not above it.
.model m;.inputs a;.outputs r;.table a y -> r;.table y -> x;.table x -> y;.end; | 30 Cycle y
.model m;.outputs p;.table q -> p;.table r p -> q;.table s -> r;.table r -> s;.end; | 30 Cycle p
-- A cycle of an earlier net is told, also where another is found first.
.model m;.outputs r u;.table s -> r;.table s t -> s;.default =s;.table u -> t;.table t -> u;.end; | 30 Cycle u
.model m;.inputs a;.outputs r;.table x -> r;.table u a -> x;.table v -> u;.table u -> v;.table x -> s;.end; | 30 Cycle u
-- A latch drives its output, and a reset table drives nothing.
.model m;.inputs d s;.latch d s;.end; | 28 DrivenTwice s
.model m;.inputs d e;.latch d s;.latch e s;.end; | 28 DrivenTwice s
.model m;.inputs d;.latch d s;.table -> s;0;.end; | 28 DrivenTwice s
.model m;.latch d s;.end; | 29 Undriven d
.model m;.r i -> s;0 1;.end; | 29 Undriven i
.model m;.latch d s;.latch e t;.table -> q;0;.end; | 29 Undriven d
-- The nets stand in the order of lines, those of a latch where it stands.
.model m;.table u -> z;0 1;.latch d s;.end; | 29 Undriven u
.model m;.latch d s;.table u -> z;0 1;.end; | 29 Undriven d
.model m;.r u -> s;0 1;.latch d s;.end; | 29 Undriven u
-- A reset table is that of a latch, and no latch has two.
.model m;.inputs d;.r d;0;.end; | 33 NoLatch d
.model m;.inputs d;.latch d s;.r s;0;.r s;1;.end; | 32 ResetTwice s
.model m;.inputs d;.latch d s;.r s;0;.r s;1;.r d;0;.end; | 32 ResetTwice s
.model m;.inputs d;.latch d s;.r d;0;.r s;1;.r s;0;.end; | 33 NoLatch d
.model m;.inputs d;.table z -> z;- 0;.r d;0;.end; | 33 NoLatch d
-- No latch is above a reset value, however far.
.model m;.inputs d;.latch d s;.r s -> s;- 0;.end; | 31 ResetReadsLatch s s
.model m;.inputs d;.latch d s;.latch d t;.r p -> s;0 1;.table q -> p;- 0;.table t -> q;- 1;.end; | 31 ResetReadsLatch s t
.model m;.inputs d;.r t u -> t;- - 0;.latch d u;.latch d t;.end; | 31 ResetReadsLatch t u
.model m;.inputs d;.latch d s;.latch d t;.r -> s;0;.r p q -> t;- - 0;.table t -> p;- 0;.table s -> q;- 0;.end; | 31 ResetReadsLatch t s
.model m;.inputs d;.latch d s;.r s -> s;- 0;.table z -> z;- 0;.end; | 30 Cycle z
-- Only the root has to be sound.
.root n;.model m;.outputs z;.end;.model n;.outputs y;.end; | 29 Undriven y
";

#[test]
fn designs_that_are_not_sound_are_refused_with_a_net(rt: HostRuntime) -> Result<(), Fail> {
    all_end(&rt, rt.alloc(), Form::Network, UNSOUND)
}

/// Network files whose bytes have a fault, and the end of its line.
const FAULTY: &str = "\
.model m;.inputs \u{80};.outputs z; | 1 BadByte line 2 194
\0 | 1 BadByte line 1 0
;;; \x7f | 1 BadByte line 4 127
-- A joined line has the number of its first line, and a byte that of its own.
.model \\;m\\;\u{80} | 1 BadByte line 3 194
-- The first fault counts, also where the lines before it are of another form.
x;\x0b;\u{80}; | 1 BadByte line 2 11
(\u{80} | 1 BadByte line 1 194
.model m;.inputs (a;.outputs z; | 3 OpenBracket line 2
.model m;.inputs (a # );\u{80} | 3 OpenBracket line 2
.model m;.inputs !{ a b | 3 OpenBracket line 2
.model m;.inputs {a)\\; b; | 3 OpenBracket line 3
.model m;(a\\; | 3 OpenBracket line 3
.model m;(a | 3 OpenBracket line 2
-- A bracket inside a word is an ordinary byte, and right behind a bracketed word the next one begins.
a(;!;!(; | 3 OpenBracket line 3
);};(})(; | 3 OpenBracket line 3
(# | 3 OpenBracket line 1
.model m;.inputs a;{\r | 3 OpenBracket line 3
a\\\u{80} | 1 BadByte line 1 194
(\x0b | 1 BadByte line 1 11
(a#b) | 3 OpenBracket line 1
(a\\;b#c) | 3 OpenBracket line 2
(a\\ | 3 OpenBracket line 1
(a\\\r | 3 OpenBracket line 1
!!!{);} | 3 OpenBracket line 1
";

#[test]
fn faults_of_the_bytes_have_lines_of_their_own(rt: HostRuntime) -> Result<(), Fail> {
    all_end(&rt, rt.alloc(), Form::Network, FAULTY)
}
