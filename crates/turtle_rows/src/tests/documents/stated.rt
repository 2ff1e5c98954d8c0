//! What texts state beside their triples, and what is left of them in a pool: the limits, the shapes and the
//! data, and what they come to, with the terms that the pool then holds. An empty line stands between rows.

pub const ROWS: &str = r##"== what a text states, and its prefixes, labels and base

text|128 99 99|¦<a:s> <a:p> <a:o> , <a:o> .→
<a:s> <a:p> <a:o>
<a:s> <a:p> <a:o>
held <a:s> <a:p> <a:o>

text|128 99 99|¦[ <a:p> 1 ;; <a:q> 2 ; ; ] <a:r> 3 ; .→
_:a-1 <a:p> "1"^^<xsd:integer>
_:a-1 <a:q> "2"^^<xsd:integer>
_:a-1 <a:r> "3"^^<xsd:integer>
anonymous 1
held _:a-1 <a:p> "1"^^<xsd:integer> <a:q> "2"^^<xsd:integer> <a:r> "3"^^<xsd:integer>

text|128 99 99|¦ ␊# only a comment→

text|128 99 99|¦␂<a:s> a 1 .→
<a:s> <rdf:type> "1"^^<xsd:integer>
held <a:s> "1"^^<xsd:integer>

text|128 99 99|¦@prefix e: <http://e/> . e:a e:b e:c .→
<http://e/a> <http://e/b> <http://e/c>
prefix e: <http://e/>
held <http://e/a> <http://e/b> <http://e/c>

text|128 99 99|¦prefix e: <http://e/> pReFiX : <http://f/> e: : :a .→
<http://e/> <http://f/> <http://f/a>
prefix : <http://f/>
prefix e: <http://e/>
held <http://e/> <http://f/> <http://f/a>

text|128 99 99|¦@prefix e: <a:> . e:x e:p e:x . @prefix e: <b:> . e:x e:p e:x .→
<a:x> <a:p> <a:x>
<b:x> <b:p> <b:x>
prefix e: <b:>
held <a:x> <a:p> <b:x> <b:p>

text|128 99 99|¦BASE <http://h/i/j> base <../k/> <l> a <> .→
<http://h/k/l> <rdf:type> <http://h/k/>
base <http://h/k/>
held <http://h/k/l> <http://h/k/>

text|128 99 99|¦@base <http://h/a?q#f> . @prefix e: <#> . <> e:g <?> .→
<http://h/a?q> <http://h/a?q#g> <http://h/a?>
prefix e: <http://h/a?q#>
base <http://h/a?q#f>
held <http://h/a?q> <http://h/a?q#g> <http://h/a?>

text|128 99 99|¦@prefix z: <a:z> . @prefix a: <a:a> . @prefix : <a:> . @prefix a.b: <a:ab> . @prefix é: <a:e> .→
prefix : <a:>
prefix a: <a:a>
prefix a.b: <a:ab>
prefix z: <a:z>
prefix é: <a:e>

text|128 99 99|¦@prefix e: <http://e/> .@base <http://h/> .→
prefix e: <http://e/>
base <http://h/>

text|128 99 99|¦@base <//h> . <x> a <//> .→
<http://h/x> <rdf:type> <http://>
base <http://h>
held <http://h/x> <http://>

text|128 99 99|¦@base <\u0067> . @prefix e: <\u0061:> . <h> a e:u .→
<http://a/b/c/h> <rdf:type> <a:u>
prefix e: <a:>
base <http://a/b/c/g>
held <http://a/b/c/h> <a:u>

text|128 99 99|¦_:z <a:p> _:a , _:z , _:9 , _:Z .→
_:d-z <a:p> _:d-a
_:d-z <a:p> _:d-z
_:d-z <a:p> _:d-9
_:d-z <a:p> _:d-Z
label 9
label Z
label a
label z
held _:d-z <a:p> _:d-a _:d-9 _:d-Z

text|128 99 99|¦_:_ a _:é , _:a-1 , _:d-x .→
_:d-_ <rdf:type> _:d-é
_:d-_ <rdf:type> _:d-a-1
_:d-_ <rdf:type> _:d-d-x
label _
label a-1
label d-x
label é
held _:d-_ _:d-é _:d-a-1 _:d-d-x

text|128 99 99|¦(1 [ <a:p> (2) ] _:x) <a:q> [] .→
_:a-1 <rdf:first> "1"^^<xsd:integer>
_:a-1 <rdf:rest> _:a-2
_:a-2 <rdf:first> _:a-3
_:a-3 <a:p> _:a-4
_:a-4 <rdf:first> "2"^^<xsd:integer>
_:a-4 <rdf:rest> <rdf:nil>
_:a-2 <rdf:rest> _:a-5
_:a-5 <rdf:first> _:d-x
_:a-5 <rdf:rest> <rdf:nil>
_:a-1 <a:q> _:a-6
label x
anonymous 6
held _:a-1 "1"^^<xsd:integer> _:a-2 _:a-3 <a:p> _:a-4 "2"^^<xsd:integer> _:a-5 _:d-x <a:q> _:a-6

text|128 99 99|¦[ <a:p> ( [] [] ) ] .→
_:a-1 <a:p> _:a-2
_:a-2 <rdf:first> _:a-3
_:a-2 <rdf:rest> _:a-4
_:a-4 <rdf:first> _:a-5
_:a-4 <rdf:rest> <rdf:nil>
anonymous 5
held _:a-1 <a:p> _:a-2 _:a-3 _:a-4 _:a-5

text|128 99 99|¦<a:s> a "x"@en , "x"@en-GB , "x"@EN-gb-X1 .→
<a:s> <rdf:type> "x"@en
<a:s> <rdf:type> "x"@en-gb
<a:s> <rdf:type> "x"@en-gb-x1
held <a:s> "x"@en "x"@en-gb "x"@en-gb-x1

text|128 99 99|¦␂<a:s> a e:x .→
3 at 11

== one pool for two texts, and terms that are left

text|128 99 68|<a:s> a _:b , [] .¦_:b a <a:s> , [] , 1 .→
<a:s> <rdf:type> _:s-b
<a:s> <rdf:type> _:t-1
label b
anonymous 1
held <a:s> _:s-b _:t-1
_:d-b <rdf:type> <a:s>
_:d-b <rdf:type> _:a-1
_:d-b <rdf:type> "1"^^<xsd:integer>
label b
anonymous 1
held <a:s> _:s-b _:t-1 _:d-b _:a-1 "1"^^<xsd:integer>

text|128 99 67|<a:s> a _:b , [] .¦_:b a <a:s> , [] , 1 .→
<a:s> <rdf:type> _:s-b
<a:s> <rdf:type> _:t-1
label b
anonymous 1
held <a:s> _:s-b _:t-1
9 at 0
held <a:s> _:s-b _:t-1

text|128 99 66|¦$→
2 at 0

text|128 99 66|¦<a:s> a 1 . <a:t> a 2→
2 at 12
held <a:s> "1"^^<xsd:integer>

text|128 99 66|¦<a:s> a 1 . [ a 2 ; <a:t> ( 3 ] .→
2 at 12
held <a:s> "1"^^<xsd:integer>

text|128 99 66|¦<a:s> a 1 . <a:t> a 2 , e:x .→
3 at 24
held <a:s> "1"^^<xsd:integer>

text|128 99 66|¦<a:s> a 1 . <a:t> a 2 , 3 .→
9 at 12
held <a:s> "1"^^<xsd:integer>

text|128 99 66|¦<a:s> a 1 . <a:t> a 1 . <a:s> a 2 , 3 .→
9 at 24
held <a:s> "1"^^<xsd:integer> <a:t>"##;
