//! Rules on small networks: the fault of the first check that fails, and what is left where they apply, worked out by hand; and that
//! what is kept of a changed network is what is made of its parts.
use crate::outcome::behaviour;
use std::test::Fail;

/// A network, rules with ` / ` between them, for each of these the literals that it leaves, as told before and as they are, or its
/// fault, and the network that is left, or nothing.
const CASES: &str = "\
.model inv;.inputs a;.outputs z;.table a -> z;0 1;1 0;.end; | remove z / remove a / remove q / wire a / \
collapse a / add k a=1:1 / add z a=1:1 / add z q=1:1 else:0 / add .k a=1:1 else:0 / add z a=1:1 else:0 / add \
k a=1:0 else:0 / add k a=01:1 else:0 / add k a=:1 else:0 / add k a=7:1 else:0 / add k a=0&a=1:1 else:0 / add \
k a=1:1 a=1:1 else:0 / add k :1 else:0 / add k a=1:1 else:0 | Visible=Visible NoNet=NoNet NoNet=NoNet \
NoNet=NoNet NoNet=NoNet Form=Form Form=Form NoNet=NoNet NotFresh=NotFresh NotFresh=NotFresh Form=Form \
Form=Form Form=Form Form=Form Form=Form Form=Form Form=Form 3=3 | .model inv;.inputs a;.outputs z;.table a -> \
z;0 1;1 0;.table a -> k;.default 0;1 1;.end;
.model r;.inputs a;.outputs z;.table a -> z;0 1;.table z -> y;- 0;.table a -> d;0 0;1 1;.table d -> e;0 \
0;.end; | remove z / remove d / remove e / remove y | Visible=Visible Read=Read Partial=Partial 4=4 | \
.model r;.inputs a;.outputs z;.table a -> z;0 1;.table a -> d;0 0;1 1;.table d -> e;0 0;.end;
.model s;.inputs;.outputs p q;.table -> c;-;.table c -> p;- =c;.table c -> q;- =c;.end; | collapse c / wire c \
/ collapse p / remove c | Shared=Shared NotSame=NotSame Visible=Visible Read=Read | .model s;.inputs;.outputs \
p q;.table -> c;-;.table c -> p;0 0;1 1;.table c -> q;0 0;1 1;.end;
.model s;.inputs;.outputs p;.table -> c;-;.table c -> p;- =c;.table -> u;-;.end; | collapse u / collapse c | \
Unread=Unread 0=0 | .model s;.inputs;.outputs p;.table -> p;0;1;.table -> u;-;.end;
.model f;.inputs a b c d;.outputs f;.table a b c d -> f;.default 0;1 1 - - 1;1 - 1 - 1;1 - - 1 1;.end; | add \
_m1 b=1:1 c=1:1 d=1:1 else:0 / divide f _m1 a=1&_m1=1:1 else:0 | 9=9 5=5 | .model f;.inputs a b c d;.outputs \
f;.table a _m1 -> f;.default 0;1 1 1;.table b c d -> _m1;.default 0;1 - - 1;- 1 - 1;- - 1 1;.end;
.model t;.inputs a b c d;.outputs f;.table a b c d -> f;1 1 - - 1;1 - 1 - 1;1 - - 1 1;0 - - - 0;1 0 0 0 \
0;.end; | add _m1 b=1:1 c=1:1 d=1:1 else:0 / divide f _m1 a=0:0 a=1&b=0&c=0&d=0:0 a=1&_m1=1:1 | 14=14 10=10 | \
.model t;.inputs a b c d;.outputs f;.table a b c d _m1 -> f;.default 0;0 - - - - 0;1 0 0 0 - 0;1 - - - 1 \
1;.table b c d -> _m1;.default 0;1 - - 1;- 1 - 1;- - 1 1;.end;
.model d;.inputs a b c;.outputs f;.table a b -> g;.default 0;1 1 1;.table a b c -> f;.default 0;1 1 1 \
1;.table f -> y;0 0;1 1;.table f c -> w;.default 0;1 1 1;.end; | divide q g c=1:1 else:0 / divide f q c=1:1 \
else:0 / divide a g c=1:1 else:0 / divide f g q=1:2 else:0 / divide f g c=2:1 else:0 / divide f g c=1:1 \
else:2 / divide f y c=1:1 else:0 / divide f a c=1:1 else:0 / divide f w c=1:1 else:0 / divide f f c=1:1 \
else:0 / divide f g f=1:1 else:0 / divide f g w=1:1 else:0 / divide f y f=1:1 else:0 / divide f g g=1:1 \
else:0 / divide f g g=1&c=1:1 / divide f g g=1&c=1:1 else:1 / divide f g g=0&c=1:1 else:0 / divide f g \
g=1&c=1:1 g=1&a=0:1 else:0 | NoNet=NoNet NoNet=NoNet NoNet=NoNet NoNet=NoNet Form=Form Form=Form \
NotSame=NotSame NotSame=NotSame Loop=Loop Loop=Loop Loop=Loop Loop=Loop NotSame=NotSame NotSame=NotSame \
NotSame=NotSame NotSame=NotSame NotSame=NotSame 10=10 | \
.model d;.inputs a b c;.outputs f;.table a b -> g;.default 0;1 1 1;.table a c g -> f;.default 0;- 1 1 1;0 - 1 1;\
.table f -> y;0 0;1 1;.table c f -> w;.default 0;1 1 1;.end;
.model b;.inputs a;.outputs z;.table a -> y;0 0;1 1;.table a y -> z;.default 0;1 1 1;0 1 1;.end; | wire z / \
wire y / wire y | NotSame=NotSame 3=3 Unread=Unread | .model b;.inputs a;.outputs z;.table a -> y;0 0;1 \
1;.table a -> z;.default 0;1 1;.end;
.model x;.inputs a;.outputs z;.table a -> x;0 1;.table x -> z;.default 1;0 0;.end; | collapse z / collapse x \
| Visible=Visible 1=1 | .model x;.inputs a;.outputs z;.table a -> z;0 1;.end;
.model k;.inputs a;.outputs z;.table a -> x;0 1;1 0;.table x -> z;.default 1;0 0;.end; | collapse x | 1=1 | \
.model k;.inputs a;.outputs z;.table a -> z;.default 1;1 0;.end;
.model c;.inputs a;.outputs p q;.table a -> c;0 1;1 0;.table c -> p;0 0;1 1;.table c -> q;0 1;1 0;.end; | \
collapse c | 4=4 | .model c;.inputs a;.outputs p q;.table a -> p;1 0;0 1;.table a -> q;1 1;0 0;.end;
.model p;.inputs a;.outputs z;.table a -> x;0 1;1 0;.table x -> z;1 1;.end; | fill q 0 / fill z 0 / fill x 0 / \
free fill q 0 / free fill a 0 / free fill z 2 / free fill z e / free fill x 0 / free fill z 0 / free fill z 1 | \
NoNet=NoNet Strict=Strict Strict=Strict NoNet=NoNet NoNet=NoNet Strict=Form Strict=Form Strict=Total Strict=3 \
Strict=Total | .model p;.inputs a;.outputs z;.table a -> x;0 1;1 0;.table x -> z;.default 0;1 1;.end;
.model v;.inputs a;.outputs z w;.table -> c;-;.table c -> y;0 0;1 1;.table y -> z;1 1;.table a -> w;1 1;.end; | \
free fill z 0 / free fill w 01 / free wire y | Strict=Varied Strict=4 4=4 | .model v;.inputs a;.outputs z \
w;.table -> c;-;.table c -> y;0 0;1 1;.table c -> z;1 1;.table a -> w;.default -;1 1;.end;
.model h;.inputs a b;.outputs z y;.mv n 3;.table a b -> n;0 - 0;1 0 1;1 1 2;.table n -> z;0 0;(1,2) 1;.table n -> \
y;0 1;(1,2) 0;.table -> c;-;.table c -> d;0 0;.table a -> e;0 0;1 1;.end; | narrow q 0 0 a=0:0 / narrow a 0 0 :0 / \
narrow n 9 0 q=0:0 / narrow n 9 0 a=0:0 / narrow n 0 9 a=0:0 / narrow n 0 0 a=0:3 / narrow z 0 0 a=0:0 / narrow c 0 0 \
:0 / narrow n 0 0 a=0:0 a=1:1 / narrow n 0 0 a=0:0 / narrow n 1 0 a=0:0 a=1:1 | NoNet=NoNet NoNet=NoNet NoNet=NoNet \
Form=Form Form=Form Form=Form Outside=Outside Partial=Partial Outside=Outside Lost=Lost 9=9 | .model h;.inputs a \
b;.outputs z y;.mv n 3;.table a -> n;0 0;1 1;.table n -> z;0 0;(1,2) 1;.table n -> y;0 1;(1,2) 0;.table -> c;-;.table \
c -> d;0 0;.table a -> e;0 0;1 1;.end;
.model h;.inputs a b;.outputs z y;.mv n 3;.table a b -> n;0 - 0;1 0 1;1 1 2;.table n -> z;0 0;(1,2) 1;.table n -> \
y;0 1;(1,2) 0;.end; | merge q 0 / merge a 0 / merge z 0 1 / merge n 3 / merge n 3 0 / merge n 0 3 / merge n 300 0 / \
merge n 2 2 / merge n 0 1 / merge n 2 0 / merge n 2 / merge n 2 1 / merge n 1 | NoNet=NoNet NoNet=NoNet \
Visible=Visible Form=Form Form=Form Form=Form Form=Form Form=Form NotSame=NotSame NotSame=NotSame NotSame=NotSame 9=9 \
NotSame=NotSame | .model h;.inputs a b;.outputs z y;.table a b -> n;0 - 0;1 0 1;1 1 1;.table n -> z;0 0;1 1;\
.table n -> y;0 1;1 0;.end;
.model g;.inputs a;.outputs z y;.mv n 3;.table a -> n;0 0;1 1;.table n -> z;0 0;1 1;2 0;.table n -> y;.default 0;(0,1) \
1;.end; | merge n 2 1 / merge n 1 / merge n 2 | NotSame=NotSame NotSame=NotSame 4=4 | .model g;.inputs a;.outputs z \
y;.table a -> n;0 0;1 1;.table n -> z;0 0;1 1;.table -> y;1;.end;
.model j;.inputs a b;.outputs z;.mv n 3;.table a b -> n;.default 0;1 0 1;1 1 2;.table n -> z;1 0;(0,2) 1;.end; | merge \
n 0 2 | 6=6 | .model j;.inputs a b;.outputs z;.table a b -> n;.default 1;1 0 0;1 1 1;.table n -> z;0 0;1 1;.end;
.model k;.inputs a b;.outputs z y;.mv n 3;.table a b -> n;0 - 0;1 0 1;1 1 2;.table n -> z;0 0;(1,2) 1;.table n -> \
y;(0,1) 1;2 0;.end; | encode q r,s 00,01,10 / encode a r,s 00,01,10 / encode z r,s 00,01,10 / encode n r,s 00,01 / \
encode n r,s 00,01,01 / encode n r,s 00,01,1 / encode n r 0,1,1 / encode n r,r 00,01,10 / encode n a,s 00,01,10 / \
encode n n,s 00,01,10 / encode n .r,s 00,01,10 / encode n r,s 00,01,10 | NoNet=NoNet NoNet=NoNet Visible=Visible \
Form=Form Form=Form Form=Form Form=Form NotFresh=NotFresh NotFresh=NotFresh NotFresh=NotFresh NotFresh=NotFresh 17=17 \
| .model k;.inputs a b;.outputs z y;.table r s -> z;0 0 0;0 1 1;1 - 1;.table r -> y;0 1;1 0;.table a b -> r;0 - 0;1 0 \
0;1 1 1;.table a b -> s;0 - 0;1 0 1;1 1 0;.end;
.model l;.inputs a b;.outputs z;.mv n 3;.mv m 3;.table a -> n;0 (0,1);1 2;.table a b -> m;.default 1;0 0 0;1 1 2;\
.table n m b -> z;.default 0;(0,2) 1 - 1;0 0 1 1;.end; | encode n r,s 00 / encode m r,s 11,10,00 | Varied=Varied 17=17 \
| .model l;.inputs a b;.outputs z;.mv n 3;.table a -> n;0 (0,1);1 2;.table b n r s -> z;.default 0;- (0,2) 1 0 1;1 0 1 \
1 1;.table a b -> r;.default 1;0 0 1;1 1 0;.table a b -> s;.default 0;0 0 1;1 1 0;.end;
";

/// The network, the rules, and what is answered, of a case.
fn parts(case: &str) -> Result<(&str, &str, &str), Fail> {
    let (text, behind) = case.split_once(" | ").ok_or("a case without rules")?;
    let (rules, told) = behind.split_once(" | ").ok_or("a case without answers")?;
    Ok((text, rules, told))
}

#[test]
fn rules_answer_so_and_leave_this(rt: HostRuntime) -> Result<(), Fail> {
    for case in CASES.lines() {
        let (text, rules, told) = parts(case)?;
        assert_eq!(rt;
            behaviour(rt.alloc(), text, rules)?.as_str(),
            told,
            "{rules}"
        );
    }
    Ok(())
}
