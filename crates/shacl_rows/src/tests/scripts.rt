//! Lines, scripts and edits at each limit, and one past it.
use super::runs::all_end_as_due;
use std::test::Fail;

const LINES: &str = "\
== run line_limits
== limits
line 32
== script
xxxxxxxxxxxxxxxxxxxxxxxxxxxxxxxxx
\u{ffff}
begun
== output
report conforms=true results=0
refused line 1: 50 LineTooLong
refused line 2: 51 LineNotUtf8
refused line 3: 52 LineSyntax
== status 7
== run lines of six bytes and of more, whatever is in them
== limits
line 6
== script
report
report\x20
# 1234
# 12345
# é23
# é234
\x20\x20\x20\x20\x20\x20\x20
\u{ffff}\u{ffff}\u{ffff}\u{ffff}\u{ffff}\u{ffff}\u{ffff}
\u{ffff}\u{ffff}\u{ffff}\u{ffff}\u{ffff}\u{ffff}
insert z:s z:p z:o .
count\r
count\x20\r
xxxxxx
xxxxxxx
report\x20$
== output
report conforms=true results=0
report conforms=true results=0
refused line 2: 50 LineTooLong
refused line 4: 50 LineTooLong
refused line 6: 50 LineTooLong
refused line 7: 50 LineTooLong
refused line 8: 50 LineTooLong
refused line 9: 51 LineNotUtf8
refused line 10: 50 LineTooLong
count triples=0 pairs=0 results=0
refused line 12: 50 LineTooLong
refused line 13: 52 LineSyntax
refused line 14: 50 LineTooLong
refused line 15: 50 LineTooLong
== status 7
== run an insertion past the limit of a line
== limits
line 26
== script
insert <e:a> <e:p> <e:b> .
insert <e:a> <e:p> <e:bc> .
remove <e:a> <e:p> <e:b> .\r
count
== output
report conforms=true results=0
ok changed evaluated 0
refused line 2: 50 LineTooLong
refused line 3: 50 LineTooLong
count triples=1 pairs=0 results=0
== status 7
== run a last line at its limit, without a line feed
== limits
line 26
== script
insert <e:a> <e:p> <e:b> .$
== output
report conforms=true results=0
ok changed evaluated 0
== status 0
== run lines at their limit, in pieces of a byte
== limits
line 6
== outside
read bytes 1
== script
report
reports
report
== output
report conforms=true results=0
report conforms=true results=0
refused line 2: 50 LineTooLong
report conforms=true results=0
== status 7
== run a line past its limit, in Turtle
== words
--format=turtle
shapes
data
script
== limits
line 6
== script
counts
reports
== output
@prefix sh: <http://www.w3.org/ns/shacl#> .
[] a sh:ValidationReport ;
  sh:conforms true .
# refused line 1: 52 LineSyntax
# refused line 2: 50 LineTooLong
== status 7
";

const TWO_REPORTS: &str = "\
== script
report
report
== output
report conforms=true results=0
report conforms=true results=0
fault script: 58 ScriptTooLong
== status 3
";

// The lines whose line feed stands within the limit are answered.
const SCRIPTS: &str = "\
== run a script at its limit
== limits
script 14
== output
report conforms=true results=0
report conforms=true results=0
report conforms=true results=0
== status 0
== run the last line feed is past the limit
== limits
script 13
== run a script at its limit, without a line feed
== limits
script 13
== script
report
report$
== output
report conforms=true results=0
report conforms=true results=0
report conforms=true results=0
== status 0
== run a script past its limit, without a line feed
== limits
script 12
== script
report
report$
== run the first line ends at the limit
== limits
script 7
== run the first line feed is past the limit
== limits
script 6
== output
report conforms=true results=0
fault script: 58 ScriptTooLong
== status 3
== run a refused line before the limit
== limits
script 6
== script
begun
report
== output
report conforms=true results=0
refused line 1: 52 LineSyntax
fault script: 58 ScriptTooLong
== status 3
== run an insertion before the limit
== limits
script 27
== script
insert <e:a> <e:p> <e:b> .
count
== output
report conforms=true results=0
ok changed evaluated 0
fault script: 58 ScriptTooLong
== status 3
== run blank lines past the limit
== limits
script 2
== script



== output
report conforms=true results=0
fault script: 58 ScriptTooLong
== status 3
== run in pieces of a byte
== limits
script 13
== outside
read bytes 1
== run in pieces of 7 bytes
== limits
script 13
== outside
read bytes 7
== run a script past its limit, in Turtle
== words
shapes
data
script
--format
turtle
== limits
script 6
== script
count
report
== output
@prefix sh: <http://www.w3.org/ns/shacl#> .
[] a sh:ValidationReport ;
  sh:conforms true .
# count triples=0 pairs=0 results=0
# fault script: 58 ScriptTooLong
== status 3
";

const EDITS: &str = "\
== run full_graph
== limits
triples 3
== data
<a:s> <a:p> <a:o> , <a:q> , <a:r> .
== script
insert <a:s> <a:p> <a:t> .
remove <a:s> <a:p> <a:o> .
insert <a:s> <a:p> <a:t> .
== output
report conforms=true results=0
refused line 1: 40 TooManyTriples
ok changed evaluated 0
ok changed evaluated 0
== status 7
== run full_pool
== limits
terms 65
== script
insert <a:s> <a:p> <a:o> .
insert <a:s> <a:p> <a:q> .
== output
report conforms=true results=0
ok changed evaluated 0
refused line 2: 41 TooManyTerms
== status 7
== run triples before terms
== limits
triples 1
terms 65
== script
insert <a:s> <a:p> <a:o> .
insert <a:s> <a:p> <a:q> .
insert <a:s> <a:p> <a:o> .
remove <a:s> <a:p> <a:q> .
remove <a:s> <a:p> <a:o> .
insert <a:s> <a:p> <a:q> .
insert <a:o> <a:p> <a:s> .
== output
report conforms=true results=0
ok changed evaluated 0
refused line 2: 40 TooManyTriples
ok unchanged evaluated 0
ok unchanged evaluated 0
ok changed evaluated 0
refused line 6: 41 TooManyTerms
ok changed evaluated 0
== status 7
== run triples of the data and of lines, each once
== limits
triples 3
== data
<e:a> <e:p> <e:b> .
<e:a> <e:p> <e:b> .
<e:a> <e:p> <e:b> .
== script
insert <e:a> <e:p> <e:c> .
insert <e:a> <e:p> <e:d> .
insert <e:a> <e:p> <e:e> .
insert <e:a> <e:p> <e:d> .
count
== output
report conforms=true results=0
ok changed evaluated 0
ok changed evaluated 0
refused line 3: 40 TooManyTriples
ok unchanged evaluated 0
count triples=3 pairs=0 results=0
== status 7
== run terms stay where their triples are removed
== limits
terms 65
== script
insert <e:a> <e:p> <e:b> .
remove <e:a> <e:p> <e:b> .
insert <e:a> <e:p> <e:c> .
insert <e:b> <e:p> <e:a> .
== output
report conforms=true results=0
ok changed evaluated 0
ok changed evaluated 0
refused line 3: 41 TooManyTerms
ok changed evaluated 0
== status 7
== run terms of a refused line are not held
== limits
terms 65
== script
insert <e:a> <e:b> <e:a> .
insert <e:c> <e:d> <e:a> .
insert z:s <e:e> <e:f> .
remove <e:g> <e:h> <e:i> .
insert <e:b> <e:c> <e:a> .
insert <e:c> <e:d> <e:a> .
== output
report conforms=true results=0
ok changed evaluated 0
refused line 2: 41 TooManyTerms
refused line 3: 53 UnknownPrefix at 7
ok unchanged evaluated 0
ok changed evaluated 0
refused line 6: 41 TooManyTerms
== status 7
== run three new terms of which two are equal
== limits
terms 64
== script
insert <e:a> <e:a> <e:b> .
insert <e:a> <e:b> <e:b> .
== output
report conforms=true results=0
ok changed evaluated 0
ok changed evaluated 0
== status 0
== run three new terms of which all are equal
== limits
terms 63
== script
insert <e:a> <e:b> <e:b> .
insert <e:a> <e:a> <e:a> .
== output
report conforms=true results=0
refused line 1: 41 TooManyTerms
ok changed evaluated 0
== status 7
== run a refused insertion changes no report
== limits
triples 3
== shapes
<e:S> <http://www.w3.org/ns/shacl#targetNode> <e:a> .
<e:S> <http://www.w3.org/ns/shacl#path> <e:p> .
<e:S> <http://www.w3.org/ns/shacl#hasValue> <e:b> .
== data
<e:a> <e:p> <e:c> , <e:d> , <e:e> .
== script
insert <e:a> <e:p> <e:b> .
report
== output
report conforms=false results=1
result HasValue Violation <e:S> <e:a> <e:p> -
refused line 1: 40 TooManyTriples
report conforms=false results=1
result HasValue Violation <e:S> <e:a> <e:p> -
== status 7
";

#[test]
fn scripts_within_limits(rt: HostRuntime) -> Result<(), Fail> {
    all_end_as_due(&rt, "", LINES)?;
    all_end_as_due(&rt, TWO_REPORTS, SCRIPTS)?;
    all_end_as_due(&rt, "", EDITS)
}
