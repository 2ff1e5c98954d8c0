//! Texts that meet or pass a limit: how many brackets, triples and terms there may be, the shapes and the
//! data, and what they come to, with the terms that the pool then holds. An empty line stands between rows.

pub const ROWS: &str = r##"== brackets

text|1 99 99|¦] ) ( (→
7 at 6

text|1 99 99|¦<a:s> a ( ( $→
7 at 10

text|1 99 99|¦<a:s> a $ ( (→
2 at 0

text|1 99 99|¦@base ( (→
7 at 8

text|1 99 99|¦BASE ( (→
2 at 0

text|1 99 99|¦PREFIX ( ( (→
2 at 0

text|1 99 99|¦PREFIX e: ( (→
2 at 0

text|1 99 99|¦<a:s> a [] , ( ) , ( ) .→
<a:s> <rdf:type> _:a-1
<a:s> <rdf:type> <rdf:nil>
<a:s> <rdf:type> <rdf:nil>
anonymous 1
held <a:s> _:a-1

text|0 99 99|¦→

text|0 99 99|¦<a:s> a () .→
7 at 8

text|0 99 99|¦<a:s> a [ ] .→
<a:s> <rdf:type> _:a-1
anonymous 1
held <a:s> _:a-1

text|0 99 99|¦[ a 1 ] .→
7 at 0

text|0 99 99|¦() a 1 .→
7 at 0

text|0 99 99|¦) a 1 .→
2 at 0

text|0 99 99|¦<a:s> a "(" . # (→
<a:s> <rdf:type> "("
held <a:s> "("

text|1 99 99|¦[ a 1 ] a () .→
_:a-1 <rdf:type> "1"^^<xsd:integer>
_:a-1 <rdf:type> <rdf:nil>
anonymous 1
held _:a-1 "1"^^<xsd:integer>

text|1 99 99|¦() a [ a [] ] .→
<rdf:nil> <rdf:type> _:a-1
_:a-1 <rdf:type> _:a-2
anonymous 2
held _:a-1 _:a-2

text|1 99 99|¦<a:s> a [ a [ a 1 ] ] .→
7 at 12

text|1 99 99|¦<a:s> a [ a ( ) ] .→
7 at 12

text|1 99 99|¦<a:s> a ( [ a 1 ] ) .→
7 at 10

text|1 99 99|¦( [] ) a ( [] ) .→
_:a-1 <rdf:first> _:a-2
_:a-1 <rdf:rest> <rdf:nil>
_:a-1 <rdf:type> _:a-3
_:a-3 <rdf:first> _:a-4
_:a-3 <rdf:rest> <rdf:nil>
anonymous 4
held _:a-1 _:a-2 _:a-3 _:a-4

text|2 99 99|¦[ a ( 1 ) ] a ( [ a 2 ] ) .→
_:a-1 <rdf:type> _:a-2
_:a-2 <rdf:first> "1"^^<xsd:integer>
_:a-2 <rdf:rest> <rdf:nil>
_:a-1 <rdf:type> _:a-3
_:a-3 <rdf:first> _:a-4
_:a-4 <rdf:type> "2"^^<xsd:integer>
_:a-3 <rdf:rest> <rdf:nil>
anonymous 4
held _:a-1 _:a-2 "1"^^<xsd:integer> _:a-3 _:a-4 "2"^^<xsd:integer>

text|2 99 99|¦( ( ( ) ) ) a 1 .→
7 at 4

text|2 99 99|¦[ a [ a ( ) ] ] .→
7 at 8

text|2 99 99|¦<a:s> a ( () ( ( .→
7 at 15

text|1 99 99|¦@prefix e: <a:> ( ( .→
7 at 18

text|1 99 99|¦BASE <a:> ( ( .→
7 at 12

text|1 99 99|¦PREFIX e: <a:> ( (→
7 at 17

text|1 99 99|¦<a:s> a 1 . <a:s> a ( ( ) ) .→
7 at 22
held <a:s> "1"^^<xsd:integer>

text|1 99 99|¦# ( (␊<a:s> a "( (" .→
<a:s> <rdf:type> "( ("
held <a:s> "( ("

text|1 99 99|¦) ) ( ) [ a 1 ] .→
2 at 0

text|1 99 99|¦<a:s> a ( 1 ] , ( 2 ] .→
2 at 0

text|1 99 99|¦( . (→
2 at 0

text|1 99 99|¦( ( .→
7 at 2

text|1 99 99|¦<a:s> a ( (→
7 at 10

text|1 99 99|¦<a:s> a 1.( (→
7 at 12
held <a:s> "1"^^<xsd:integer>

text|1 99 99|¦[ [] [ # ]→
7 at 5

text|1 99 99|¦<a:s> a ( ( e:x ) ) .→
7 at 10

text|1 99 99|¦<a:s> a 1e0 , ( ( .→
7 at 16

text|1 99 99|¦e:s a 1 . ( ( .→
3 at 0

text|1 99 99|¦<a:s> a . ( ( .→
2 at 0

text|1 99 99|¦␂( (→
7 at 5

text|1 99 99|¦<a:é> a ( ( .→
7 at 11

== triples

text|128 1 99|¦<a:s> a 1 , 1 .→
8 at 0

text|128 0 99|¦<a:s> a 1 .→
8 at 0

text|128 0 99|¦@prefix e: <a:> . # none→
prefix e: <a:>

text|128 1 99|¦<a:s> a 1 .→
<a:s> <rdf:type> "1"^^<xsd:integer>
held <a:s> "1"^^<xsd:integer>

text|128 1 99|¦<a:s> a 1 . <a:s> a 1 .→
8 at 12
held <a:s> "1"^^<xsd:integer>

text|128 2 99|¦<a:s> a 1 . <a:s> a 2 , 3 .→
8 at 12
held <a:s> "1"^^<xsd:integer>

text|128 2 99|¦<a:s> a 1 . <a:s> a 1 .→
<a:s> <rdf:type> "1"^^<xsd:integer>
<a:s> <rdf:type> "1"^^<xsd:integer>
held <a:s> "1"^^<xsd:integer>

text|128 1 99|¦<a:s> a 1 . PREFIX e: <a:>→
<a:s> <rdf:type> "1"^^<xsd:integer>
prefix e: <a:>
held <a:s> "1"^^<xsd:integer>

text|128 2 99|¦<a:s> a ( 1 ) .→
8 at 0

text|128 3 99|¦<a:s> a ( 1 ) .→
<a:s> <rdf:type> _:a-1
_:a-1 <rdf:first> "1"^^<xsd:integer>
_:a-1 <rdf:rest> <rdf:nil>
anonymous 1
held <a:s> _:a-1 "1"^^<xsd:integer>

text|128 1 99|¦[ a [] ] .→
_:a-1 <rdf:type> _:a-2
anonymous 2
held _:a-1 _:a-2

text|128 1 99|¦[ a [] ] a 1 .→
8 at 0

text|128 1 99|¦<a:s> a 1 , e:x .→
3 at 12

text|128 1 99|¦<a:s> a 1 , 2 , 1e0 .→
5 at 16

text|128 1 99|¦<a:s> a 1 , 2 , "x"^^<\u0020> .→
4 at 21

text|128 1 99|¦<a:s> a 1 , 1→
2 at 0

text|128 1 99|¦<a:s> a 1 , 2 . e:x a 1 .→
8 at 0

text|128 1 99|¦e:x a 1 , 2 . <a:s> a 1 , 2 .→
3 at 0

text|128 1 99|¦ # c␊ <a:s> a 1 , 2 .→
8 at 6

text|128 1 99|¦␂<a:s> a 1 , 2 .→
8 at 3

text|1 1 99|¦<a:s> a 1 , 2 , ( ( ) ) .→
7 at 18

== terms

text|128 99 64|¦<a:s> a "x"^^<a:t> .→
<a:s> <rdf:type> "x"^^<a:t>
held <a:s> "x"^^<a:t>

text|128 99 63|¦<a:s> a "x"^^<a:t> .→
9 at 0

text|128 99 62|¦# none→

text|128 99 62|¦() a () .→
<rdf:nil> <rdf:type> <rdf:nil>

text|128 99 62|¦<rdf:type> <http://www.w3.org/ns/shacl#in>
<rdf:nil> .→
<rdf:type> <http://www.w3.org/ns/shacl#in> <rdf:nil>

text|128 99 62|¦<a:s> a () .→
9 at 0

text|128 99 62|¦[] a () .→
9 at 0

text|128 99 63|¦[] a () .→
_:a-1 <rdf:type> <rdf:nil>
anonymous 1
held _:a-1

text|128 99 63|¦<a:s> a () .→
<a:s> <rdf:type> <rdf:nil>
held <a:s>

text|128 99 63|¦<a:s> <a:s> <a:s> , <a:s> .→
<a:s> <a:s> <a:s>
<a:s> <a:s> <a:s>
held <a:s>

text|128 99 64|¦<a:s> a 1 , 1 .→
<a:s> <rdf:type> "1"^^<xsd:integer>
<a:s> <rdf:type> "1"^^<xsd:integer>
held <a:s> "1"^^<xsd:integer>

text|128 99 63|¦<a:s> a 1 , 1 .→
9 at 0

text|128 99 65|¦<a:s> a 1 , "1" , "1"@en .→
9 at 0

text|128 99 66|¦<a:s> a 1 , "1" , "1"@en .→
<a:s> <rdf:type> "1"^^<xsd:integer>
<a:s> <rdf:type> "1"
<a:s> <rdf:type> "1"@en
held <a:s> "1"^^<xsd:integer> "1" "1"@en

text|128 99 64|¦<a:s> a 1 . <a:t> a 1 .→
9 at 12
held <a:s> "1"^^<xsd:integer>

text|128 99 64|¦<a:s> a 1 . <a:s> a 1 .→
<a:s> <rdf:type> "1"^^<xsd:integer>
<a:s> <rdf:type> "1"^^<xsd:integer>
held <a:s> "1"^^<xsd:integer>

text|128 99 64|¦@prefix e: <a:> . @base <http://h/> . e:s a 1 .→
<a:s> <rdf:type> "1"^^<xsd:integer>
prefix e: <a:>
base <http://h/>
held <a:s> "1"^^<xsd:integer>

text|128 99 64|¦<a:s> a [] .→
<a:s> <rdf:type> _:a-1
anonymous 1
held <a:s> _:a-1

text|128 99 64|¦<a:s> a 1 , "1"^^<xsd:integer> .→
<a:s> <rdf:type> "1"^^<xsd:integer>
<a:s> <rdf:type> "1"^^<xsd:integer>
held <a:s> "1"^^<xsd:integer>

text|128 99 64|¦<a:s> a "x"@en , "x"@EN .→
<a:s> <rdf:type> "x"@en
<a:s> <rdf:type> "x"@en
held <a:s> "x"@en

text|128 99 64|¦<a:s> a "1"@en , "1"^^<rdf:langString> .→
9 at 0

text|128 99 63|¦<a:s> a <http://a/b/c/../c/s> , <http://a/b/c/s> .→
9 at 0

text|128 99 64|¦<s> a <../c/s> , <http://a/b/c/s> , 1 .→
<http://a/b/c/s> <rdf:type> <http://a/b/c/s>
<http://a/b/c/s> <rdf:type> <http://a/b/c/s>
<http://a/b/c/s> <rdf:type> "1"^^<xsd:integer>
held <http://a/b/c/s> "1"^^<xsd:integer>

text|128 99 64|¦_:a a _:b , _:a .→
_:d-a <rdf:type> _:d-b
_:d-a <rdf:type> _:d-a
label a
label b
held _:d-a _:d-b

text|128 99 64|¦<a:s> a ( 1 ) .→
9 at 0

text|128 99 65|¦<a:s> a ( 1 ) .→
<a:s> <rdf:type> _:a-1
_:a-1 <rdf:first> "1"^^<xsd:integer>
_:a-1 <rdf:rest> <rdf:nil>
anonymous 1
held <a:s> _:a-1 "1"^^<xsd:integer>

text|128 1 62|¦<a:s> a 1 , 2 .→
8 at 0

text|128 2 62|¦<a:s> a 1 , 2 .→
9 at 0

text|128 1 62|¦<a:s> a 1 . <a:s> a 2 .→
9 at 0

text|128 2 63|¦<a:s> a () . <a:s> a <a:t> , () .→
8 at 13
held <a:s>

text|128 3 63|¦<a:s> a () . <a:s> a <a:t> , () .→
9 at 13
held <a:s>

text|128 99 62|¦<a:s> a e:x .→
3 at 8

text|128 99 62|¦<a:s> a 1 , 1e0 .→
5 at 12

text|128 99 62|¦<a:s> a 1 , 2→
2 at 0

text|128 99 62|¦<a:s> a 1 . $→
9 at 0

text|1 99 62|¦<a:s> a 1 , ( ( ) ) .→
7 at 14"##;
