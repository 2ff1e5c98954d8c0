//! What a document states, and a text with the token behind it

pub const ROWS: &str = r##"== IRIs over the base and the prefixes of a document
term|¦<g> .→to 3 <http://a/b/c/g>
term|¦<#s> "x"→to 4 <http://a/b/c/d;p?q#s>
term|PREFIX e: <http://e/>¦e:→to 2 <http://e/>
term|@prefix e: <h/> .¦e:x.→to 3 <http://a/b/c/h/x>
term|@prefix e: <http://e/> .¦e:a\,b→to 6 <http://e/a,b>
term|¦ e:→3 at 1
term|¦#c␊ :x→3 at 4
term|¦ <a:\u003e>→4 at 1
== blank nodes by their printed names, and labels that are none
term|_:x a _:y .¦_:d-y .→to 5 _:d-y
term|_:x a _:y .¦ _:d-z→57 at 1
term|_:x.y a _:x .¦_:d-x.→to 5 _:d-x
term|[] a [] .¦_:a-2→to 5 _:a-2
term|[] a [] .¦_:a-3→57 at 0
== literals with what belongs to them, and their faults
term|¦-5 .→to 2 "-5"^^<xsd:integer>
term|¦5.→to 1 "5"^^<xsd:integer>
term|¦1.50→to 4 "1.50"^^<xsd:decimal>
term|¦true→to 4 "true"^^<xsd:boolean>
term|¦5@en→to 1 "5"^^<xsd:integer>
term|¦ 1e0→5 at 1
term|¦123456789012345678901234567890123456789→6 at 0
term|¦'''x'''→to 7 "x"
term|¦"x"@en-US .→to 9 "x"@en-us
term|¦"x" @en→to 7 "x"@en
term|¦"x" #c␊@en→to 10 "x"@en
term|¦"x"@en^^<a:t>→to 6 "x"@en
term|¦"x"@→to 3 "x"
term|¦'x'^^→to 3 "x"
term|¦'x'^^ 5→to 3 "x"
term|¦'x'^^"y"→to 3 "x"
term|¦'x'^^_:d-x→to 3 "x"
term|¦'x'^^a→to 3 "x"
term|¦'x'^^@en→to 3 "x"
term|¦'x'^^ ^^<a:t>→to 3 "x"
term|¦'x'^^ ^→to 3 "x"
term|¦'x'^→to 3 "x"
term|¦'x' <a:t>→to 3 "x"
term|¦"x"^^<t>→to 8 "x"^^<http://a/b/c/t>
term|¦"x"^^<xsd:string>→to 46 "x"
term|@prefix e: <http://e/> .¦"x" ^^ #c␊ e:t→to 14 "x"^^<http://e/t>
term|¦ "x" ^^ e:t→3 at 8
term|¦"x"^^ <a:\u003e>→4 at 6
== tokens at which no term begins
term|¦→2 at 0
term|¦ #c→2 at 3
term|¦a→2 at 0
term|¦ a <a:b>→2 at 1
term|¦.→2 at 0
term|¦,→2 at 0
term|¦;→2 at 0
term|¦(→2 at 0
term|¦)→2 at 0
term|¦[→2 at 0
term|¦]→2 at 0
term|¦[]→2 at 0
term|[] a [] .¦ [ ]→2 at 1
term|¦^^<a:b>→2 at 0
term|¦@en→2 at 0
term|¦@prefix→2 at 0
term|¦PREFIX→2 at 0
term|¦base→2 at 0
"##;
