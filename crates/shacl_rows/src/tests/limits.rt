//! Texts and shapes at each limit, and one past it.
use super::runs::all_end_as_due;
use std::test::Fail;

const CONFORMS: &str = "\
== output
report conforms=true results=0
== status 0
";

// A line of these texts has 20 bytes, and a line more of them one term more. A statement counts whole: a
// fault stands at its start, whichever of its triples is one too many.
const DATA: &str = "\
== run text_limit, four spaces
== limits
text 4
== data
\x20\x20\x20\x20$
== run text_limit, five spaces
== limits
text 4
== data
\x20\x20\x20\x20\x20$
== output
fault data: 10 TextTooLong
== status 3
== run data at each limit
== limits
text 60
triples 3
terms 67
== data
<e:a> <e:p> <e:b> .
<e:a> <e:p> <e:c> .
<e:a> <e:p> <e:d> .
== run a byte too many, before any fault
== limits
text 59
== data
\u{ffff}e:a> <e:p> <e:b> .
<e:a> <e:p> <e:c> .
<e:a> <e:p> <e:d> .
== output
fault data: 10 TextTooLong
== status 3
== run data at its limit, without a line feed
== limits
text 39
== data
<e:a> <e:p> <e:b> .
<e:a> <e:p> <e:c> .$
== run a triple too many
== limits
triples 2
== data
<e:a> <e:p> <e:b> .
<e:a> <e:p> <e:c> .
<e:a> <e:p> <e:d> .
== output
fault data: 8 TooManyTriples at 40
== status 3
== run a repeated triple counts again
== limits
triples 2
== data
<e:a> <e:p> <e:b> .
<e:a> <e:p> <e:b> .
<e:a> <e:p> <e:b> .
== output
fault data: 8 TooManyTriples at 40
== status 3
== run a term too many
== limits
terms 66
== data
<e:a> <e:p> <e:b> .
<e:a> <e:p> <e:c> .
<e:a> <e:p> <e:d> .
== output
fault data: 9 TooManyTerms at 40
== status 3
== run triples before terms
== limits
triples 1
terms 65
== data
<e:a> <e:p> <e:b> .
<e:a> <e:p> <e:c> .
== output
fault data: 8 TooManyTriples at 20
== status 3
== run no terms
== limits
terms 62
== run terms of the vocabulary alone
== limits
terms 62
== data
<http://www.w3.org/ns/shacl#path> <http://www.w3.org/ns/shacl#path> <http://www.w3.org/ns/shacl#path> .
== run the triples of one statement
== limits
triples 2
== data
<e:a> <e:p> <e:b> .
<e:a> <e:p> <e:c> , <e:d> .
== output
fault data: 8 TooManyTriples at 20
== status 3
== run the triples of a collection at the limit
== limits
triples 5
== data
<e:a> <e:p> ( 1 2 ) .
== run the triples of a collection
== limits
triples 4
== data
<e:a> <e:p> ( 1 2 ) .
== output
fault data: 8 TooManyTriples at 0
== status 3
== run the terms of a collection at the limit
== limits
terms 68
== data
<e:a> <e:p> ( 1 2 ) .
== run the terms of a collection
== limits
terms 67
== data
<e:a> <e:p> ( 1 2 ) .
== output
fault data: 9 TooManyTerms at 0
== status 3
== run prefixes and bases are no triples, and a datatype is no term
== limits
triples 1
terms 64
== data
@base <http://e/> .
PREFIX e: <x/>
@prefix f: <http://f/> .
<a> a \"x\"^^e:t .
== run brackets at the limit
== limits
depth 2
== data
<e:a> <e:p> ( [ <e:p> [] ] ) , ( ( ) ) .
== run brackets past the limit
== limits
depth 2
== data
<e:a> <e:p> ( [ <e:p> [] ] ) , ( ( ( ) ) ) .
== output
fault data: 7 TooDeep at 35
== status 3
";

// It has 196 bytes, 3 triples and 4 terms that are not in the vocabulary of 62.
const FIRST_SHAPES: &str = "\
== shapes
<http://e/S> <http://www.w3.org/ns/shacl#targetNode> <http://e/a> .
<http://e/S> <http://www.w3.org/ns/shacl#path> <http://e/p> .
<http://e/S> <http://www.w3.org/ns/shacl#hasValue> <http://e/b> .
== output
report conforms=false results=1
result HasValue Violation <http://e/S> <http://e/a> <http://e/p> -
== status 1
";

// The terms of the shapes are held with those of the data, and their triples are none of the data.
const FIRST: &str = "\
== run shapes at each limit
== limits
text 196
triples 3
terms 66
== run a byte too many
== limits
text 195
== output
fault shapes: 10 TextTooLong
== status 3
== run a triple too many
== limits
triples 2
== output
fault shapes: 8 TooManyTriples at 130
== status 3
== run a term too many
== limits
terms 65
== output
fault shapes: 9 TooManyTerms at 130
== status 3
== run a repeated triple counts again
== limits
triples 3
== shapes
<http://e/S> <http://www.w3.org/ns/shacl#path> <http://e/p> .
<http://e/S> <http://www.w3.org/ns/shacl#path> <http://e/p> .
<http://e/S> <http://www.w3.org/ns/shacl#path> <http://e/p> .
<http://e/S> <http://www.w3.org/ns/shacl#path> <http://e/p> .
== output
fault shapes: 8 TooManyTriples at 186
== status 3
== run terms of the shapes in the data
== limits
terms 66
== data
<http://e/a> <http://e/p> <http://e/S> .
== run one other term
== limits
terms 67
== data
<http://e/a> <http://e/p> <http://e/c> .
== run one other term too many
== limits
terms 66
== data
<http://e/a> <http://e/p> <http://e/c> .
== output
fault data: 9 TooManyTerms at 0
== status 3
== run as many triples of the data as there are of the shapes
== limits
triples 3
== data
<http://e/a> <http://e/p> <http://e/c> .
<http://e/a> <http://e/p> <http://e/d> .
<http://e/a> <http://e/p> <http://e/e> .
== run references_too_deep
== limits
references 1
== shapes
<http://e/S> <http://www.w3.org/ns/shacl#targetNode> <http://e/a> ;
<http://www.w3.org/ns/shacl#not> <http://e/I> .
<http://e/I> <http://www.w3.org/ns/shacl#not> <http://e/J> .
<http://e/J> <http://www.w3.org/ns/shacl#minLength> 1 .
== output
fault shapes: 33 ReferencesTooDeep shape <http://e/S>
== status 3
";

const PREFIXES: &str = "\
== prefixes
@prefix sh: <http://www.w3.org/ns/shacl#> .
@prefix e: <e:> .
";

const SHAPES: &str = r#"== run as many shapes as the limit
== limits
shapes 2
== shapes
e:S sh:targetNode e:a ; sh:not e:T .
== output
report conforms=false results=1
result Not Violation <e:S> <e:a> - <e:a>
== status 1
== run a shape more, whatever else is at fault
== limits
shapes 2
== shapes
_:a sh:in 1 . e:S sh:in 2 . e:T sh:not e:T . _:b sh:path "x" .
== output
fault shapes: 28 TooManyShapes shape _:s-a
== status 3
== run references as deep as the limit
== limits
references 2
== shapes
e:S sh:targetNode e:a ; sh:not [ sh:not [] ] .
== output
report conforms=true results=0
== status 0
== run references that are deeper, before patterns
== limits
references 2
== shapes
e:A sh:pattern "(" . e:T sh:not e:S . e:S sh:not [ sh:not [ sh:not [] ] ] .
== output
fault shapes: 33 ReferencesTooDeep shape <e:S>
== status 3
== run a path as deep as the limit
== limits
path depth 3
== shapes
e:S sh:targetNode e:a ; sh:path [ sh:inversePath [ sh:inversePath e:p ] ] ; sh:minCount 1 .
== output
report conforms=false results=1
result MinCount Violation <e:S> <e:a> (^(^<e:p>)) -
== status 1
== run a path one deeper
== limits
path depth 2
== shapes
e:S sh:targetNode e:a ; sh:path [ sh:inversePath [ sh:inversePath e:p ] ] ; sh:minCount 1 .
== output
fault shapes: 29 PathTooDeep shape <e:S> predicate <http://www.w3.org/ns/shacl#path> term _:t-1
== status 3
== run a path of as many parts as the limit
== limits
path parts 4
== shapes
e:S sh:targetNode e:a ; sh:path ( e:p e:p e:p ) ; sh:minCount 1 .
== output
report conforms=false results=1
result MinCount Violation <e:S> <e:a> (<e:p>/<e:p>/<e:p>) -
== status 1
== run a path of a part more
== limits
path parts 3
== shapes
e:S sh:targetNode e:a ; sh:path ( e:p e:p e:p ) ; sh:minCount 1 .
== output
fault shapes: 29 PathTooDeep shape <e:S> predicate <http://www.w3.org/ns/shacl#path> term _:t-1
== status 3
== run a part that is shared counts as often as it is met
== limits
path parts 4
== shapes
e:S sh:targetNode e:a ; sh:path ( _:up _:up ) ; sh:minCount 1 . _:up sh:inversePath e:p .
== output
fault shapes: 29 PathTooDeep shape <e:S> predicate <http://www.w3.org/ns/shacl#path> term _:t-1
== status 3
"#;

#[test]
fn texts_and_shapes_within_limits(rt: HostRuntime) -> Result<(), Fail> {
    all_end_as_due(&rt, CONFORMS, DATA)?;
    all_end_as_due(&rt, FIRST_SHAPES, FIRST)?;
    all_end_as_due(&rt, PREFIXES, SHAPES)
}
