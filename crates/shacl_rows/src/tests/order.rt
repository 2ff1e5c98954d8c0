//! What no contract says: when a text is opened and read, when an answer is put, and when patterns are built.
//! The calls are counted, so a run that makes one more or one less ends in another way.
use super::runs::all_end_as_due;
use std::test::Fail;

const SHARED: &str = "\
== prefixes
@prefix sh: <http://www.w3.org/ns/shacl#> .
@prefix e: <e:> .
== shapes
e:S sh:targetNode e:a ; sh:path e:p ; sh:hasValue e:b .
== script
insert e:a e:p e:b .
report
== output
report conforms=false results=1
result HasValue Violation <e:S> <e:a> <e:p> -
ok changed evaluated 1
report conforms=true results=0
== status 0
";

// The calls in large pieces: each text is opened, read, and its end is met. They refuse a run that opens a
// text twice, or reads on behind its end.
//
// Both the put of the first answer and the read of the second line would fail: that refuses a run that keeps
// its answers to the end, or that reads past the line at hand before it answers. Both the put of the report
// and the call that opens the script would fail: that refuses a run that opens the script before the report
// is put. And no text is opened before the words are read.
//
// A report and each answer are put in one piece, the usage and the faults of texts by themselves too.
const CALLS: &str = "\
== run each text is opened and read once, so that the ninth call is made
== outside
read bytes 4096
failing call 9
== status 4
== run each text is opened and read once, so that no tenth call is made
== outside
read bytes 4096
failing call 10
== run a line is answered before the next is read, and the put fails
== outside
read bytes 7
failing call 7
failing put 2
== prefixes
== shapes
== script
report
report
== output
report conforms=true results=0
== status 5
== run a line is answered before the next is read, and the read fails
== outside
read bytes 7
failing call 7
== prefixes
== shapes
== script
report
report
== output
report conforms=true results=0
report conforms=true results=0
== status 4
== run the report is put before the script is opened, and the put fails
== outside
failing call 5
failing put 1
== prefixes
== shapes
== output
== status 5
== run the report is put before the script is opened, and the call fails
== outside
failing call 5
== prefixes
== shapes
== output
report conforms=true results=0
== status 4
== run nothing is opened where the words have no reading
== words
shapes
== outside
failing call 1
== output
usage: shacl_keep [--format lines|turtle] [--base IRI] SHAPES DATA [SCRIPT]
== status 2
== run nothing is opened behind a text that is too long
== words
shapes
other
== limits
text 4
== prefixes
== shapes
# one
== output
fault shapes: 10 TextTooLong
== status 3
== run each answer is put in one piece, and the second put fails
== outside
failing put 2
== output
report conforms=false results=1
result HasValue Violation <e:S> <e:a> <e:p> -
== status 5
== run each answer is put in one piece, and the third put fails
== outside
failing put 3
== output
report conforms=false results=1
result HasValue Violation <e:S> <e:a> <e:p> -
ok changed evaluated 1
== status 5
== run sink_fails_at_second_put
== words
shapes
data
== outside
put bytes 64
failing put 2
== prefixes
@prefix sh: <http://www.w3.org/ns/shacl#> .
@prefix rdf: <http://www.w3.org/1999/02/22-rdf-syntax-ns#> .
@prefix rdfs: <http://www.w3.org/2000/01/rdf-schema#> .
@prefix xsd: <http://www.w3.org/2001/XMLSchema#> .
@prefix e: <http://e/> .
== shapes
e:S sh:targetNode e:a ; sh:path e:p ; sh:minCount 1 .
== front
report conforms=false results=1
result MinCount Violation <http://e/S> <http://e/a> <http://e/p> -
== status 5
== run the sink fails at the usage
== words
== outside
put bytes 4
failing put 2
== output
usag$
== status 5
== run the sink fails at a fault of the shapes
== outside
put bytes 4
failing put 2
== shapes
count
== output
faul$
== status 5
== run the sink fails at a fault of the data, in Turtle
== words
--format=turtle
shapes
data
== outside
put bytes 4
failing put 2
== data
count
== output
# fa$
== status 5
";

const NO_DATA: &str = "\
== words
shapes
other
== outside
failing pattern 1
== prefixes
@prefix sh: <http://www.w3.org/ns/shacl#> .
@prefix e: <e:> .
== status 3
";

// They refuse a run that opens the data before the shapes are compiled, one that builds a pattern before all
// shapes are judged by what they state and by what they refer to, and one that builds on behind a refusal.
const JUDGED: &str = r#"== run a rule of shapes is broken, and no pattern is built
== shapes
e:A sh:pattern "a" . e:S sh:in "x" .
== output
fault shapes: 20 BadList shape <e:S> predicate <http://www.w3.org/ns/shacl#in> term "x"
== run there are more shapes than the limit, and no pattern is built
== limits
shapes 1
== shapes
e:A sh:pattern "a" . e:S sh:pattern "b" .
== output
fault shapes: 28 TooManyShapes shape <e:S>
== run shapes refer to themselves, and no pattern is built
== shapes
e:A sh:pattern "a" . e:S sh:not e:S .
== output
fault shapes: 30 Recursive shape <e:S>
== run shapes refer too deep, and no pattern is built
== limits
references 1
== shapes
e:A sh:pattern "a" . e:S sh:not [ sh:not [] ] .
== output
fault shapes: 33 ReferencesTooDeep shape <e:S>
== run a pattern that is none is the last that is built
== outside
failing pattern 2
== shapes
e:A sh:pattern "(" . e:S sh:pattern "b" .
== output
fault shapes: 31 BadPattern shape <e:A>
== run a pattern that the host refuses is the last that is built
== shapes
e:A sh:pattern "a" . e:S sh:pattern "(" .
== output
fault shapes: 32 PatternRefused shape <e:A>
== run bad_and_refused_patterns, a refused one
== prefixes
@prefix sh: <http://www.w3.org/ns/shacl#> .
@prefix rdf: <http://www.w3.org/1999/02/22-rdf-syntax-ns#> .
@prefix rdfs: <http://www.w3.org/2000/01/rdf-schema#> .
@prefix xsd: <http://www.w3.org/2001/XMLSchema#> .
@prefix e: <http://e/> .
== shapes
e:S sh:targetNode e:a ; sh:pattern "a" .
== output
fault shapes: 32 PatternRefused shape <http://e/S>
== run bad_and_refused_patterns, the second is refused
== outside
failing pattern 2
== prefixes
@prefix sh: <http://www.w3.org/ns/shacl#> .
@prefix rdf: <http://www.w3.org/1999/02/22-rdf-syntax-ns#> .
@prefix rdfs: <http://www.w3.org/2000/01/rdf-schema#> .
@prefix xsd: <http://www.w3.org/2001/XMLSchema#> .
@prefix e: <http://e/> .
== shapes
e:S sh:targetNode e:a ; sh:pattern "a" . e:T sh:targetNode e:a ; sh:pattern "b" .
== output
fault shapes: 32 PatternRefused shape <http://e/T>
"#;

const PATTERNS: &str = r#"== prefixes
@prefix sh: <http://www.w3.org/ns/shacl#> .
@prefix e: <e:> .
== shapes
[] sh:pattern "a" ; sh:flags "i" .
_:a sh:pattern "a" .
e:S sh:flags "x" ; sh:not _:a .
e:B sh:pattern "a" ; sh:targetNode "x" , "a" .
e:A sh:pattern "a" ; sh:targetNode "x" ; sh:deactivated true .
== script
report
== status 3
"#;

// They refuse a run that builds a pattern again, or one that none of its shapes has, or that leaves one out
// whose shape is not asked, or takes the shapes in another order.
const BUILT: &str = r#"== run the first pattern is that of the least shape, which is deactivated
== outside
failing pattern 1
== output
fault shapes: 32 PatternRefused shape <e:A>
== run the second pattern
== outside
failing pattern 2
== output
fault shapes: 32 PatternRefused shape <e:B>
== run the third pattern
== outside
failing pattern 3
== output
fault shapes: 32 PatternRefused shape _:s-a
== run the last pattern
== outside
failing pattern 4
== output
fault shapes: 32 PatternRefused shape _:t-1
== run no fifth pattern
== outside
failing pattern 5
== output
report conforms=false results=1
result Pattern Violation <e:B> "x" - "x"
report conforms=false results=1
result Pattern Violation <e:B> "x" - "x"
== status 1
"#;

#[test]
fn texts_answers_and_patterns_come_in_order(rt: HostRuntime) -> Result<(), Fail> {
    all_end_as_due(&rt, SHARED, CALLS)?;
    all_end_as_due(&rt, NO_DATA, JUDGED)?;
    all_end_as_due(&rt, PATTERNS, BUILT)
}
