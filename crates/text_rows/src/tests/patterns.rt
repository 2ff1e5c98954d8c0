use row_tools::{RowFault, all_blocks_met, all_met, cut, in_four, in_three, number};
use shx_outside::{FailingHost, Flags, Memory, PatternFault, PatternHost, RegexHost};
use std::alloc::Global;
use std::test::Fail;

// A pattern, its flags, a text, and what comes of them.
const MATCHES: &str = "(→→→the text is no pattern

a b→→a b→match

a b→→ab→no match

a b→x→ab→match

a b→x→a b→no match

A→→a→no match

A→i→a→match

a.c→→a
c→no match

a.c→s→a
c→match

^b→→a
b→no match

^b→m→a
b→match";

// Patterns that would be too large, and what comes of them.
const TOO_LARGE: &str = r"((a{1000}){1000}){1000}
(((((a{10}){10}){10}){10}){10}){10}
a{1000}{1000}{1000}
\w{1000}{1000}";

fn flags_of(letters: &str) -> Flags {
    Flags {
        i: letters.contains('i'),
        m: letters.contains('m'),
        s: letters.contains('s'),
        x: letters.contains('x'),
    }
}

fn is_found(found: Result<bool, Memory>, wanted: &str) -> Result<bool, RowFault> {
    Ok(wanted == if found? { "match" } else { "no match" })
}

fn is_fault(alloc: Global, fault: PatternFault, wanted: &str) -> Result<bool, RowFault> {
    match fault {
        PatternFault::Memory => Err(RowFault::Memory),
        _ => Ok(format!(in alloc; "{fault}")?.as_str() == wanted),
    }
}

// Whether a pattern is found in a text as is wanted: the text, and what is wanted.
fn comes<H: PatternHost>(
    alloc: Global,
    host: &mut H,
    pattern: &str,
    flags: Flags,
    sought: (&str, &str),
) -> Result<bool, RowFault>
    requires { H.admits host.old flags pattern.now }
{
    match host.build(alloc, pattern, flags) {
        Ok(pattern) => is_found(pattern.is_match(alloc, sought.0), sought.1),
        Err(fault) => is_fault(alloc, fault, sought.1),
    }
}

// The same of a pattern without flags.
fn comes_as(alloc: Global, pattern: &str, text: &str, wanted: &str) -> Result<bool, RowFault> {
    comes(
        alloc,
        &mut RegexHost::new(),
        pattern,
        flags_of(""),
        (text, wanted),
    )
}

fn comes_to(alloc: Global, row: &str) -> Result<bool, RowFault> {
    let (pattern, letters, text, wanted) = in_four(row, "→")?;
    comes(
        alloc,
        &mut RegexHost::new(),
        pattern,
        flags_of(letters),
        (text, wanted),
    )
}

#[test]
fn patterns_are_read_with_their_flags(rt: HostRuntime) -> Result<(), Fail> {
    all_blocks_met(rt.alloc(), MATCHES, comes_to)
}

fn is_refused(alloc: Global, pattern: &str) -> Result<bool, RowFault> {
    comes_as(alloc, pattern, "", "the pattern was refused")
}

#[test]
fn patterns_that_would_be_too_large_are_refused(rt: HostRuntime) -> Result<(), Fail> {
    all_met(rt.alloc(), TOO_LARGE, is_refused)
}

// How often two texts stand around an inner one, a text, and what comes of that pattern.
const NESTED: &str = "\
== brackets that nest too deep are no pattern
300 ( a )→a→the text is no pattern
== stars over stars are a pattern
40 ( a* )*→aaa→match";

// An inner text between so many of two others: `300 ( a )`.
fn nested(alloc: Global, row: &str) -> Result<String, RowFault> {
    let (depth, before, inner, behind) = in_four(row, " ")?;
    let depth = number(depth)? as usize;
    let before = before.repeat(alloc, depth)?;
    let behind = behind.repeat(alloc, depth)?;
    Ok(format!(in alloc; "{}{inner}{}", before.as_str(), behind.as_str())?)
}

fn comes_of_nested(alloc: Global, row: &str) -> Result<bool, RowFault> {
    let (parts, text, wanted) = in_three(row, "→")?;
    comes_as(alloc, nested(alloc, parts)?.as_str(), text, wanted)
}

#[test]
fn patterns_that_nest(rt: HostRuntime) -> Result<(), Fail> {
    all_met(rt.alloc(), NESTED, comes_of_nested)
}

// The words from word0 on, with bars between them.
fn words(alloc: Global, count: u32) -> Result<String, RowFault> {
    let mut text = String::from_str(alloc, "word0")?;
    for number in 1..count {
        add_word(alloc, &mut text, number)?;
    }
    Ok(text)
}

fn add_word(alloc: Global, text: &mut String, number: u32) -> Result<(), RowFault> {
    let word = format!(in alloc; "|word{number}")?;
    Ok(text.push_str(word.as_str())?)
}

// How many words, a text, and what comes of a pattern of those words.
fn comes_of_words(alloc: Global, row: &str) -> Result<bool, RowFault> {
    let (count, text, wanted) = in_three(row, "→")?;
    comes_as(alloc, words(alloc, number(count)?)?.as_str(), text, wanted)
}

#[test]
fn many_words_are_a_pattern(rt: HostRuntime) -> Result<(), Fail> {
    all_met(rt.alloc(), "10000→a word9999→match", comes_of_words)
}

// Patterns that one host is asked for in turn, and what comes of each in the text `a`. The second call is
// refused on demand, the third one by the host within.
const IN_TURN: &str = "\
a→match
a→the pattern was refused
a{1000}{1000}→the pattern was refused
(→the text is no pattern";

const SHOWN: &str = "\
FailingHost { inner: RegexHost { errors: 1, refused: Some(RefusedPattern { \
flags: Flags { i: false, m: false, s: false, x: false }, text: \"a{1000}{1000}\" }) }, \
failing: [2], calls: 4, faults: 2, refused: Some(RefusedPattern { \
flags: Flags { i: false, m: false, s: false, x: false }, text: \"a{1000}{1000}\" }) }";

fn come_in_turn(
    alloc: Global,
    host: &mut FailingHost<RegexHost>,
    steps: &str,
) -> Result<bool, RowFault> {
    for step in steps.lines() {
        let (pattern, due) = cut(step, "→")?;
        if !comes(alloc, host, pattern, flags_of(""), ("a", due))? {
            return Ok(false);
        }
    }
    Ok(true)
}

// Whether this comes of the patterns in turn, and the host then shows what was due.
fn is_counted(alloc: Global, steps: &str) -> Result<bool, RowFault> {
    let mut host = FailingHost::new(RegexHost::new(), vec![in alloc; 2]?);
    let come = come_in_turn(alloc, &mut host, steps)?;
    Ok(come && format!(in alloc; "{host:?}")?.as_str() == SHOWN)
}

#[test]
fn refusals_are_counted(rt: HostRuntime) -> Result<(), Fail> {
    all_blocks_met(rt.alloc(), IN_TURN, is_counted)
}
