use super::{holds, said};
use row_tools::{RowFault, all_met, cut, in_three, number};
use shx_term::fault_codes::{code_name, fault_codes, has_place};
use shx_term::is_scheme;
use std::alloc::Global;
use std::test::Fail;

// Each code with its name, and whether a fault with it stands at a byte.
const CODES: &str = "\
1 NotUtf8 yes
2 Syntax yes
3 UnknownPrefix yes
4 BadIri yes
5 FloatLiteral yes
6 WideValue yes
7 TooDeep yes
8 TooManyTriples yes
9 TooManyTerms yes
10 TextTooLong no
20 BadList no
21 TooManyValues no
22 WrongKind no
23 NotOnNodeShape no
24 BadPath no
25 NotAPropertyShape no
26 NotANodeShape no
27 BadFlags no
28 TooManyShapes no
29 PathTooDeep no
30 Recursive no
31 BadPattern no
32 PatternRefused no
33 ReferencesTooDeep no
40 TooManyTriples no
41 TooManyTerms no
42 GroupOpen no
43 NoGroup no
44 GroupTooLong no
45 NoPair no
46 NothingToUndo no
47 NothingToRedo no
50 LineTooLong no
51 LineNotUtf8 no
52 LineSyntax no
53 UnknownPrefix yes
54 BadIri yes
55 FloatLiteral yes
56 WideValue yes
57 UnknownBlank yes
58 ScriptTooLong no";

fn is_told(_: Global, row: &str) -> Result<bool, RowFault> {
    let (code, name, place) = in_three(row, " ")?;
    let code = number(code)?;
    Ok(code_name(code) == name && said(has_place(code)) == place)
}

#[test]
fn codes_have_their_names(rt: HostRuntime) -> Result<(), Fail> {
    all_met(rt.alloc(), CODES, is_told)?;
    holds(Ok(fault_codes().len() == CODES.lines().count()))
}

fn has_name_or_place(code: u32) -> bool {
    !code_name(code).is_empty() || has_place(code)
}

// A row for each number below a thousand that has a name or a place.
fn rows_of_numbers(alloc: Global) -> Result<String, RowFault> {
    let mut rows = String::new(alloc);
    for code in 0..1000 {
        if has_name_or_place(code) {
            let row = format!(in alloc; "{code} {} {}\n", code_name(code), said(has_place(code)))?;
            rows.push_str(row.as_str())?;
        }
    }
    Ok(rows)
}

#[test]
fn other_numbers_have_no_name_and_no_place(rt: HostRuntime) -> Result<(), Fail> {
    let rows = rows_of_numbers(rt.alloc())?;
    holds(Ok(rows.as_str().trim_end() == CODES && !has_name_or_place(u32::MAX)))
}

// Texts, and whether each is a scheme.
const SCHEMES: &str = "\
a|yes
Z|yes
z9|yes
http|yes
A+.-9|yes
a-|yes
urn:x|no
a:|no
1a|no
+a|no
-a|no
.a|no
a_b|no
a/b|no
a%41|no
é|no
aé|no
@|no
[|no
`|no
{|no
aA@|no
|no
a b|no
a\0|no";

fn is_scheme_as_said(_: Global, row: &str) -> Result<bool, RowFault> {
    let (text, wanted) = cut(row, "|")?;
    Ok(said(is_scheme(text.as_bytes())) == wanted)
}

#[test]
fn schemes(rt: HostRuntime) -> Result<(), Fail> {
    all_met(rt.alloc(), SCHEMES, is_scheme_as_said)
}
