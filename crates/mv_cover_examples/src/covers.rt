//! What cubes and covers answer, for tables that are read from text.
use mv_base::{Value, ValueSet};
use mv_cover::{Cover, Cube};
use mv_sample::cover;
use std::alloc::Global;
use std::test::Fail;

/// How many values the inputs `p` to `s`, which have the numbers from 0, and the output `z` have.
const COUNTS: [u16; 5] = [2, 3, 2, 4, 2];

/// The cover of a table with these rows.
fn table(alloc: Global, rows: &str) -> Result<Cover, Fail> {
    let text = format!(in alloc;
        ".model n;.inputs p q r s;.outputs z;.mv q 3;.mv s 4;.table p q r s -> z;{rows};.end"
    )?;
    cover(alloc, text.as_str())
}

/// Puts the values of a set below 4.
fn put_set(said: &mut String, set: ValueSet) -> Result<(), Fail> {
    for value in 0..4 {
        if set.has(Value(value)) {
            write!(said, "{value}")?;
        }
    }
    Ok(())
}

/// Puts the literals of a cube, each as its net and its values.
fn put_cube(said: &mut String, cube: &Cube) -> Result<(), Fail> {
    for l in cube.lits() {
        write!(said, " {}:", l.net().0)?;
        put_set(said, l.set())?;
    }
    Ok(())
}

/// Puts cubes, each with a semicolon.
fn put_cubes(said: &mut String, cubes: &[Cube]) -> Result<(), Fail> {
    for cube in cubes {
        put_cube(said, cube)?;
        said.push(';')?;
    }
    Ok(())
}

/// Puts the lines of a cover, each with a semicolon, and its default.
fn put_cover(said: &mut String, cover: &Cover) -> Result<(), Fail> {
    for line in cover.lines.as_slice() {
        put_cube(said, &line.cube)?;
        said.push_str(" -> ")?;
        put_set(said, line.out.get())?;
        said.push(';')?;
    }
    if let Some(out) = &cover.default {
        said.push_str(" else ")?;
        put_set(said, out.get())?;
    }
    Ok(())
}

/// Puts what two cubes have in common.
fn put_meet(said: &mut String, cube: &Cube, other: &Cube) -> Result<(), Fail> {
    if let Some(both) = cube.meet(other)? {
        put_cube(said, &both)?;
    }
    Ok(())
}

/// Puts what is left of a cube without another.
fn put_without(said: &mut String, cube: &Cube, other: &Cube) -> Result<(), Fail> {
    if cube.suits(&COUNTS) && other.suits(&COUNTS) {
        let left = cube.without(other, &COUNTS)?;
        put_cubes(said, left.as_slice())?;
    }
    Ok(())
}

/// Puts what a cube answers of another: whether it contains it, what they have in common, and what is left without it.
fn put_pair(said: &mut String, cube: &Cube, other: &Cube) -> Result<(), Fail> {
    if cube.contains(other) {
        said.push_str(" contains")?;
    }
    put_meet(said, cube, other)?;
    said.push_str(" without")?;
    put_without(said, cube, other)
}

/// Puts what the first cube of a cover answers of the second.
fn put_first_two(said: &mut String, cover: &Cover) -> Result<(), Fail> {
    if let [line, other, ..] = cover.lines.as_slice() {
        put_pair(said, &line.cube, &other.cube)?;
    }
    Ok(())
}

/// Puts what absorbing leaves of a cover.
fn put_absorbed(said: &mut String, cover: &Cover) -> Result<(), Fail> {
    let mut less = cover.copy()?;
    less.absorb()?;
    put_cover(said, &less)
}

/// Puts the points that no line matches.
fn put_outside(said: &mut String, alloc: Global, cover: &Cover) -> Result<(), Fail> {
    if cover.suits(&COUNTS) {
        let outside = cover.complement(alloc, &COUNTS)?;
        put_cubes(said, outside.as_slice())?;
    }
    Ok(())
}

/// Puts the cover with its default spelled out.
fn put_spelled(said: &mut String, alloc: Global, cover: &Cover) -> Result<(), Fail> {
    if cover.suits(&COUNTS) {
        let spelled = cover.spell_default(alloc, &COUNTS)?;
        put_cover(said, &spelled)?;
    }
    Ok(())
}

/// Puts what a cover answers.
fn put_answers(said: &mut String, alloc: Global, cover: &Cover) -> Result<(), Fail> {
    write!(said, "{}", cover.literals())?;
    if cover.plainly_deterministic() {
        said.push_str(" plain")?;
    }
    put_first_two(said, cover)?;
    said.push_str(" absorbed")?;
    put_absorbed(said, cover)?;
    said.push_str(" outside")?;
    put_outside(said, alloc, cover)?;
    said.push_str(" spelled")?;
    put_spelled(said, alloc, cover)
}

/// What a cover answers.
fn answers_of(alloc: Global, cover: &Cover) -> Result<String, Fail> {
    let mut said = String::new(alloc);
    put_answers(&mut said, alloc, cover)?;
    Ok(said)
}

/// What the cover of a table with these rows answers.
fn answers(alloc: Global, rows: &str) -> Result<String, Fail> {
    let cover = table(alloc, rows)?;
    answers_of(alloc, &cover)
}

/// The rows of a table, and behind the bar: how many literals they have; whether they are plainly deterministic; what the
/// first cube and the second have in common, and the first without the second, cut at each literal of the second in turn;
/// what absorbing leaves; the points that no row matches; and the rows with the default spelled out.
const CASES: &str = "\
- {0,2} 0 - 0;1 {1,2} - 3 0;.default 1 | \
5 plain 0:1 1:2 2:0 3:3 without 0:0 1:02 2:0; 0:1 1:0 2:0; 0:1 1:2 2:0 3:012; \
absorbed 1:02 2:0 -> 0; 0:1 1:12 3:3 -> 0; else 1 \
outside 0:0 1:1; 0:1 1:1 3:012; 0:0 1:02 2:1; 0:1 1:0 2:1; 0:1 1:2 2:1 3:012; \
spelled 1:02 2:0 -> 0; 0:1 1:12 3:3 -> 0; \
0:0 1:1 -> 1; 0:1 1:1 3:012 -> 1; 0:0 1:02 2:1 -> 1; 0:1 1:0 2:1 -> 1; 0:1 1:2 2:1 3:012 -> 1;
0 1 - - 0;- {0,1} - - 0;- - 1 - 0;.default 1 | \
4 plain 0:0 1:1 without \
absorbed 1:01 -> 0; 2:1 -> 0; else 1 \
outside 0:1 1:2 2:0; 0:0 1:2 2:0; \
spelled 0:0 1:1 -> 0; 1:01 -> 0; 2:1 -> 0; 0:1 1:2 2:0 -> 1; 0:0 1:2 2:0 -> 1;
- {0,2} - - 0;1 2 - - 1 | \
3 contains 0:1 1:2 without 0:0 1:02; 0:1 1:0; \
absorbed 1:02 -> 0; 0:1 1:2 -> 1; outside 1:1; spelled 1:02 -> 0; 0:1 1:2 -> 1;
- {0,2} - - 0;- 1 - - 0 | \
2 plain without 1:02; absorbed 1:02 -> 0; 1:1 -> 0; outside spelled 1:02 -> 0; 1:1 -> 0;
";

#[test]
fn covers_of_these_rows_answer_so(rt: HostRuntime) -> Result<(), Fail> {
    for case in CASES.lines() {
        let (rows, wanted) = case.split_once(" | ").ok_or("a case without a bar")?;
        assert_eq!(rt; answers(rt.alloc(), rows)?.as_str(), wanted, "{rows}");
    }
    Ok(())
}
