//! Words of a command line, and what they ask for.
use command_words::{Asked, read_words};
use row_tools::{RowFault, all_met, cut};
use shx_term::Memory;
use std::alloc::Global;
use std::test::Fail;
use text_output::Format;

// Words, and what they ask for: the format, the base, the shapes text, the data text, and the script or `-`.
const ROWS: &str = "\
s d → lines file:/// s d -
s d c → lines file:/// s d c
--format lines s d → lines file:/// s d -
--format turtle s d → turtle file:/// s d -
--format=turtle s d c → turtle file:/// s d c
--base http://a/b s d → lines http://a/b s d -
--base=http://a/b s d → lines http://a/b s d -
--base=a:b=c s d → lines a:b=c s d -
--format turtle --base x:y s d c → turtle x:y s d c
--base x:y --format=lines s d → lines x:y s d -
s --format turtle d → turtle file:/// s d -
s d --format turtle → turtle file:/// s d -
s d c --base=x:y → lines x:y s d c
s --base x:y d --format=turtle c → turtle x:y s d c
--format turtle -- s d → turtle file:/// s d -
-- s d → lines file:/// s d -
s -- d → lines file:/// s d -
s d -- → lines file:/// s d -
s d c -- → lines file:/// s d c
-- -- d → lines file:/// -- d -
-- s -- → lines file:/// s -- -
s -- -- c → lines file:/// s -- c
-- --format turtle → lines file:/// --format turtle -
-- --format=turtle d → lines file:/// --format=turtle d -
-- --help -V → lines file:/// --help -V -
-- -x --base s → lines file:/// -x --base s
--base x:y -- --base z → lines x:y --base z -
a=b c=d → lines file:/// a=b c=d -
format turtle → lines file:/// format turtle -
help version → lines file:/// help version -
é ü → lines file:/// é ü -
s s s → lines file:/// s s s
-- → refused
s → refused
s d c e → refused
s - → refused
--form turtle s d → refused
--format ttl s d → refused
--base a/b s d → refused
";

fn ask_for(alloc: Global, asked: &Asked<'_>, due: &str) -> Result<bool, Memory> {
    let format = match asked.format {
        Format::Lines => "lines",
        Format::Turtle => "turtle",
    };
    let (base, shapes, data) = (asked.base, asked.shapes_file, asked.data_file);
    let script = asked.script_file.unwrap_or("-");
    let found = format!(in alloc; "{format} {base} {shapes} {data} {script}")?;
    Ok(found.as_str() == due)
}

// Whether the words of a row ask for what is due, or are refused where that is due.
fn are_as_said(alloc: Global, row: &str) -> Result<bool, RowFault> {
    let (line, due) = cut(row, " → ")?;
    let words: Vec<&str> = line.split(' ').collect(alloc)?;
    match read_words(alloc, words.as_slice())? {
        Some(asked) => Ok(ask_for(alloc, &asked, due)?),
        None => Ok(due == "refused"),
    }
}

#[test]
fn words_ask_for_what_is_said(rt: HostRuntime) -> Result<(), Fail> {
    all_met(rt.alloc(), ROWS, are_as_said)
}
