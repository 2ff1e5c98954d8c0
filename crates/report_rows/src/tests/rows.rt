//! The tables. Terms are those of the vocabulary.

/// The report of the results in `results.rt`, block by block: the format and the text.
pub(super) const REPORTS: &str = r#"lines
| report conforms=false results=4
result MinCount Violation <http://www.w3.org/ns/shacl#NodeShape> <http://www.w3.org/1999/02/22-rdf-syntax-ns#nil> <http://www.w3.org/1999/02/22-rdf-syntax-ns#first> -
message <http://www.w3.org/ns/shacl#in>
result Node Violation <http://www.w3.org/ns/shacl#NodeShape> <http://www.w3.org/ns/shacl#NodeShape> <http://www.w3.org/1999/02/22-rdf-syntax-ns#first> <http://www.w3.org/1999/02/22-rdf-syntax-ns#nil>
message <http://www.w3.org/ns/shacl#in>
detail Closed Violation <http://www.w3.org/ns/shacl#NodeShape> <http://www.w3.org/1999/02/22-rdf-syntax-ns#nil> <http://www.w3.org/1999/02/22-rdf-syntax-ns#type> <http://www.w3.org/ns/shacl#in>
result  Violation <http://www.w3.org/ns/shacl#NodeShape> <http://www.w3.org/ns/shacl#NodeShape> <http://www.w3.org/1999/02/22-rdf-syntax-ns#first> <http://www.w3.org/ns/shacl#in>
message <http://www.w3.org/ns/shacl#in>

turtle
| @prefix sh: <http://www.w3.org/ns/shacl#> .
[] a sh:ValidationReport ;
  sh:conforms false ;
  sh:result [
    a sh:ValidationResult ;
    sh:focusNode <http://www.w3.org/1999/02/22-rdf-syntax-ns#nil> ;
    sh:resultPath <http://www.w3.org/1999/02/22-rdf-syntax-ns#first> ;
    sh:sourceShape <http://www.w3.org/ns/shacl#NodeShape> ;
    sh:sourceConstraintComponent sh:MinCountConstraintComponent ;
    sh:resultMessage <http://www.w3.org/ns/shacl#in> ;
    sh:resultSeverity <http://www.w3.org/ns/shacl#Violation>
  ] ;
  sh:result [
    a sh:ValidationResult ;
    sh:focusNode <http://www.w3.org/ns/shacl#NodeShape> ;
    sh:resultPath <http://www.w3.org/1999/02/22-rdf-syntax-ns#first> ;
    sh:value <http://www.w3.org/1999/02/22-rdf-syntax-ns#nil> ;
    sh:sourceShape <http://www.w3.org/ns/shacl#NodeShape> ;
    sh:sourceConstraintComponent sh:NodeConstraintComponent ;
    sh:resultMessage <http://www.w3.org/ns/shacl#in> ;
    sh:resultSeverity <http://www.w3.org/ns/shacl#Violation> ;
    sh:detail [
      a sh:ValidationResult ;
      sh:focusNode <http://www.w3.org/1999/02/22-rdf-syntax-ns#nil> ;
      sh:resultPath <http://www.w3.org/1999/02/22-rdf-syntax-ns#type> ;
      sh:value <http://www.w3.org/ns/shacl#in> ;
      sh:sourceShape <http://www.w3.org/ns/shacl#NodeShape> ;
      sh:sourceConstraintComponent sh:ClosedConstraintComponent ;
      sh:resultSeverity <http://www.w3.org/ns/shacl#Violation>
    ]
  ] ;
  sh:result [
    a sh:ValidationResult ;
    sh:focusNode <http://www.w3.org/ns/shacl#NodeShape> ;
    sh:resultPath <http://www.w3.org/1999/02/22-rdf-syntax-ns#first> ;
    sh:value <http://www.w3.org/ns/shacl#in> ;
    sh:sourceShape <http://www.w3.org/ns/shacl#NodeShape> ;
    sh:sourceConstraintComponent sh:ConstraintComponent ;
    sh:resultMessage <http://www.w3.org/ns/shacl#in> ;
    sh:resultSeverity <http://www.w3.org/ns/shacl#Violation>
  ] ."#;

/// Paths of no or of one predicate, which is `rdf:type`, by a mark; the text in a line; and that in Turtle.
/// The runs of the program have the others.
pub(super) const PATHS: &str =
    "p : <http://www.w3.org/1999/02/22-rdf-syntax-ns#type> : <http://www.w3.org/1999/02/22-rdf-syntax-ns#type>
^ : (^<http://www.w3.org/1999/02/22-rdf-syntax-ns#type>) : [ sh:inversePath <http://www.w3.org/1999/02/22-rdf-syntax-ns#type> ]
/p : (<http://www.w3.org/1999/02/22-rdf-syntax-ns#type>) : ( <http://www.w3.org/1999/02/22-rdf-syntax-ns#type> )
|p : (<http://www.w3.org/1999/02/22-rdf-syntax-ns#type>) : [ sh:alternativePath ( <http://www.w3.org/1999/02/22-rdf-syntax-ns#type> ) ]
/ : () : (  )
| : () : [ sh:alternativePath (  ) ]
";

/// Answers: what is said, or the code of a fault, and the line, which in Turtle is a comment. A `=` stands at
/// the end of one with a space there.
pub(super) const ANSWERS: &str = r#"changed : ok changed evaluated 18446744073709551615
unchanged : ok unchanged evaluated 0
taken : ok shapes evaluated 3
begun : ok begun
queued : ok queued
abandoned : ok abandoned
dropped : notice: open group dropped
count : count triples=18446744073709551615 pairs=0 results=7
refused : refused line 18446744073709551615: 58 ScriptTooLong
refused by no code : refused line 18446744073709551615: 11 =
refused at : refused line 3: 52 LineSyntax at 17
last fault : fault script: 4294967295  at 18446744073709551615
long shapes : fault shapes: 10 TextTooLong
long data : fault data: 10 TextTooLong
long script : fault script: 58 ScriptTooLong
notice : notice: 1 sh:sparql triples ignored
last notice : notice: 18446744073709551615 sh:sparql triples ignored
usage : usage: shacl_keep [--format lines|turtle] [--base IRI] SHAPES DATA [SCRIPT]
rule : fault shapes: 20 BadList shape <http://www.w3.org/ns/shacl#NodeShape> predicate <http://www.w3.org/ns/shacl#in> term <http://www.w3.org/1999/02/22-rdf-syntax-ns#nil>
no term : fault shapes: 30 Recursive shape =
== each code with its name
1 : fault data: 1 NotUtf8 at 120
2 : fault data: 2 Syntax at 120
3 : fault data: 3 UnknownPrefix at 120
4 : fault data: 4 BadIri at 120
5 : fault data: 5 FloatLiteral at 120
6 : fault data: 6 WideValue at 120
7 : fault data: 7 TooDeep at 120
8 : fault data: 8 TooManyTriples at 120
9 : fault data: 9 TooManyTerms at 120
10 : fault data: 10 TextTooLong at 120
58 : fault data: 58 ScriptTooLong at 120
20 : fault shapes: 20 BadList shape <http://www.w3.org/ns/shacl#in>
21 : fault shapes: 21 TooManyValues shape <http://www.w3.org/ns/shacl#in>
22 : fault shapes: 22 WrongKind shape <http://www.w3.org/ns/shacl#in>
23 : fault shapes: 23 NotOnNodeShape shape <http://www.w3.org/ns/shacl#in>
24 : fault shapes: 24 BadPath shape <http://www.w3.org/ns/shacl#in>
25 : fault shapes: 25 NotAPropertyShape shape <http://www.w3.org/ns/shacl#in>
26 : fault shapes: 26 NotANodeShape shape <http://www.w3.org/ns/shacl#in>
27 : fault shapes: 27 BadFlags shape <http://www.w3.org/ns/shacl#in>
28 : fault shapes: 28 TooManyShapes shape <http://www.w3.org/ns/shacl#in>
29 : fault shapes: 29 PathTooDeep shape <http://www.w3.org/ns/shacl#in>
30 : fault shapes: 30 Recursive shape <http://www.w3.org/ns/shacl#in>
31 : fault shapes: 31 BadPattern shape <http://www.w3.org/ns/shacl#in>
32 : fault shapes: 32 PatternRefused shape <http://www.w3.org/ns/shacl#in>
33 : fault shapes: 33 ReferencesTooDeep shape <http://www.w3.org/ns/shacl#in>
"#;

/// A slice of two triples, block by block: the format and the text.
pub(super) const SLICES: &str = r#"lines
| slice triples=2
triple <http://www.w3.org/ns/shacl#NodeShape> <http://www.w3.org/1999/02/22-rdf-syntax-ns#type> <http://www.w3.org/ns/shacl#in>
triple <http://www.w3.org/ns/shacl#in> <http://www.w3.org/1999/02/22-rdf-syntax-ns#first> <http://www.w3.org/1999/02/22-rdf-syntax-ns#nil>

turtle
| # slice triples=2
# triple <http://www.w3.org/ns/shacl#NodeShape> <http://www.w3.org/1999/02/22-rdf-syntax-ns#type> <http://www.w3.org/ns/shacl#in>
# triple <http://www.w3.org/ns/shacl#in> <http://www.w3.org/1999/02/22-rdf-syntax-ns#first> <http://www.w3.org/1999/02/22-rdf-syntax-ns#nil>"#;
