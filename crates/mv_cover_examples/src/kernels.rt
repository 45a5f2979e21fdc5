//! The kernels of small covers, whose cubes are words of the letters that they ask for.
use mv_base::Items;
use mv_cover::{Cover, Cube};
use mv_kernels::{Kernel, kernels};
use mv_sample::cover;
use std::alloc::Global;
use std::test::Fail;

/// Puts the row of a word: 1 for the net of a letter, 0 for that of a capital, and `-` for the other nets.
fn put_row(text: &mut String, word: &str) -> Result<(), Fail> {
    for letter in b'a'..=b'g' {
        let entry = if word.as_bytes().contains(&letter) {
            "1 "
        } else if word.as_bytes().contains(&letter.to_ascii_uppercase()) {
            "0 "
        } else {
            "- "
        };
        text.push_str(entry)?;
    }
    Ok(text.push_str("1;")?)
}

/// Puts the rows of these words.
fn put_rows(text: &mut String, words: &str) -> Result<(), Fail> {
    for word in words.split_whitespace() {
        put_row(text, word)?;
    }
    Ok(())
}

/// A network with a table of these words.
fn table(alloc: Global, words: &str) -> Result<String, Fail> {
    let mut text = String::new(alloc);
    text.push_str(".model n;.inputs a b c d e f g;.outputs z;.table a b c d e f g -> z;")?;
    put_rows(&mut text, words)?;
    text.push_str(".end")?;
    Ok(text)
}

/// The cover of the words.
fn cover_of(alloc: Global, words: &str) -> Result<Cover, Fail> {
    let text = table(alloc, words)?;
    cover(alloc, text.as_str())
}

/// The cubes of a cover's lines.
fn cubes_in(alloc: Global, cover: &Cover) -> Result<Items<Cube>, Fail> {
    let mut cubes = Items::new(alloc);
    for line in cover.lines.as_slice() {
        cubes.push(line.cube.copy()?)?;
    }
    Ok(cubes)
}

/// The cubes of the words.
fn cubes(alloc: Global, words: &str) -> Result<Items<Cube>, Fail> {
    let cover = cover_of(alloc, words)?;
    cubes_in(alloc, &cover)
}

/// The kernels of the cover of the words.
fn kernels_of(alloc: Global, words: &str) -> Result<Vec<Kernel>, Fail> {
    let cubes = cubes(alloc, words)?;
    Ok(kernels(alloc, cubes.as_slice())?)
}

/// Whether the cubes of the words are one of the kernels.
fn has_kernel(alloc: Global, kernels: &[Kernel], words: &str) -> Result<bool, Fail> {
    let kernel = Kernel {
        cubes: cubes(alloc, words)?,
    };
    Ok(kernels.contains(&kernel))
}

/// Whether the kernels are these, which stand between strokes, each once and no other.
fn are_these(alloc: Global, kernels: &[Kernel], expected: &str) -> Result<bool, Fail> {
    let mut count: usize = 0;
    for part in expected.split('/') {
        if !has_kernel(alloc, kernels, part)? {
            return Ok(false);
        }
        count = count.saturating_add(1);
    }
    Ok(kernels.len() == count)
}

/// Whether the kernels of the cover are these.
fn are_kernels(alloc: Global, words: &str, expected: &str) -> Result<bool, Fail> {
    let found = kernels_of(alloc, words)?;
    are_these(alloc, found.as_slice(), expected)
}

/// Covers, and their kernels behind a bar.
const CASES: &str = "\
ace bce de g | ace bce de g / ac bc d / a b
a b | a b
ab cd | ab cd
1 a | 1 a
abd abc | c d
adf aef bdf bef cdf cef g | adf aef bdf bef cdf cef g / ad ae bd be cd ce / a b c / d e
ab Ab Ac | Ab Ac ab / A a / b c
aB ab | B b
";

#[test]
fn small_covers_have_these_kernels(rt: HostRuntime) -> Result<(), Fail> {
    for case in CASES.lines() {
        let (words, expected) = case.split_once(" | ").ok_or("a case without a bar")?;
        assert!(rt; are_kernels(rt.alloc(), words, expected)?, "{case}");
    }
    Ok(())
}
