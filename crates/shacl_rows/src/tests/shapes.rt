//! Lines that load other shapes, where the outside fails or a limit is met.
use super::runs::all_end_as_due;
use std::test::Fail;

const PREFIXES: &str = r#"== prefixes
@prefix sh: <http://www.w3.org/ns/shacl#> .
@prefix e: <http://e/> .
== shapes
e:S sh:targetNode e:a ; sh:path e:p ; sh:minCount 1 . e:T sh:targetNode e:a ; sh:path e:q ; sh:minCount 1 .
== data
e:a e:q e:b .
"#;

// Nothing is answered behind the line that tells of a refused pattern, and no open group is told.
const PATTERNS: &str = r#"== run live_shapes_refused_pattern
== outside
failing pattern 1
== more
e:S sh:targetNode e:a ; sh:pattern "a" .
== script
shapes "more"
== output
report conforms=false results=1
result MinCount Violation <http://e/S> <http://e/a> <http://e/p> -
fault shapes: 32 PatternRefused shape <http://e/S>
== status 3
== run a refused pattern ends the script behind an edit and a refused line
== outside
failing pattern 2
== more
e:S sh:targetNode e:a ; sh:pattern "a" .
== script
shapes "more"
insert e:a e:q e:c .
commit
shapes "more"
begin
report
insert e:a e:q e:d .
== output
report conforms=false results=1
result MinCount Violation <http://e/S> <http://e/a> <http://e/p> -
ok shapes evaluated 1
ok changed evaluated 0
refused line 3: 43 NoGroup
fault shapes: 32 PatternRefused shape <http://e/S>
== status 3
== run a pattern that is none refuses the line alone
== more
e:N sh:targetNode e:a ; sh:pattern "(" .
== script
shapes "more"
report
== output
report conforms=false results=1
result MinCount Violation <http://e/S> <http://e/a> <http://e/p> -
refused line 1: 31 BadPattern
report conforms=false results=1
result MinCount Violation <http://e/S> <http://e/a> <http://e/p> -
== status 7
"#;

// In pieces of 4,096 bytes the shapes and the data take three calls each, the script two before its first
// line, and a text that a line loads three.
const CALLS: &str = r#"== run a text that cannot be read has no answer
== outside
read bytes 4096
failing call 9
further 2
== more
e:S sh:targetNode e:b ; sh:path e:p ; sh:minCount 1 .
== script
shapes "more"
== output
report conforms=false results=1
result MinCount Violation <http://e/S> <http://e/a> <http://e/p> -
== status 4
== run the call behind it
== outside
read bytes 4096
failing call 12
== more
e:S sh:targetNode e:b ; sh:path e:p ; sh:minCount 1 .
== script
shapes "more"
== output
report conforms=false results=1
result MinCount Violation <http://e/S> <http://e/a> <http://e/p> -
ok shapes evaluated 1
== status 4
== run a text behind an answered line cannot be read
== outside
read bytes 4096
failing call 9
further 2
== script
insert <http://e/a> <http://e/p> <http://e/c> .
shapes "more"$
== output
report conforms=false results=1
result MinCount Violation <http://e/S> <http://e/a> <http://e/p> -
ok changed evaluated 1
== status 4
"#;

// The vocabulary has 62 terms, the shapes 6 and the data one.
const LIMITS: &str = r#"== run a text for whose terms there is no room
== limits
terms 69
== more
e:S sh:targetNode e:new ; sh:path e:p ; sh:minCount 1 .
== script
shapes "more"
shapes "shapes"
count
== output
report conforms=false results=1
result MinCount Violation <http://e/S> <http://e/a> <http://e/p> -
refused line 1: 41 TooManyTerms
ok shapes evaluated 0
count triples=1 pairs=2 results=1
== status 7
== run there is room for one
== limits
terms 70
== more
e:S sh:targetNode e:new ; sh:path e:p ; sh:minCount 1 .
== script
shapes "more"
report
insert e:a e:p e:other .
== output
report conforms=false results=1
result MinCount Violation <http://e/S> <http://e/a> <http://e/p> -
ok shapes evaluated 1
report conforms=false results=1
result MinCount Violation <http://e/S> <http://e/new> <http://e/p> -
refused line 3: 41 TooManyTerms
== status 7
== run a text that is too long
== limits
text 180
== more
e:S sh:targetNode e:new ; sh:path e:p ; sh:minCount 1 . # A comment that makes this text longer than the other.
== script
shapes "more"
== output
report conforms=false results=1
result MinCount Violation <http://e/S> <http://e/a> <http://e/p> -
refused line 1: 10 TextTooLong
== status 7
"#;

#[test]
fn loaded_shapes_end_as_due(rt: HostRuntime) -> Result<(), Fail> {
    all_end_as_due(&rt, PREFIXES, PATTERNS)?;
    all_end_as_due(&rt, PREFIXES, CALLS)?;
    all_end_as_due(&rt, PREFIXES, LIMITS)
}
