//! How many bytes a line may have, a line with a character for each byte, and what it is read as.

pub const ROWS: &str = "\
== beside the limit of a line
line|0|→nothing
line|0| →the line is refused with code 50
line|2|   →the line is refused with code 50
line|3|   →nothing
line|5|report→the line is refused with code 50
line|6|report→report
line|6|report →the line is refused with code 50
line|7|report →report
line|0|report→the line is refused with code 50
line|4|count→the line is refused with code 50
line|5|count→count
line|9|insert z:s→the line is refused with code 50
line|10|insert z:s→the line is refused with code 52
line|19|insert z:s e:p e:o .→the line is refused with code 50
line|20|insert z:s e:p e:o .→the line is refused with code 53 at byte 7
line|25|insert <a:s> <a:p> <a:o> .→the line is refused with code 50
line|26|insert <a:s> <a:p> <a:o> .→insert <a:s> <a:p> <a:o>
line|3|# \u{c3}\u{a9}→the line is refused with code 50
line|4|# \u{c3}\u{a9}→nothing
line|0|\u{ff}→the line is refused with code 50
line|1|\u{ff}\u{ff}→the line is refused with code 50
line|6|report\u{ff}→the line is refused with code 50
line|8|insert z:s \u{ff}→the line is refused with code 50
== line feeds, which no line of a script has
line|99|␉␍␊ →nothing
line|99|␍#c␊␉→nothing
line|99|␊report␊→report
line|99|insert␊<a:s> <a:p> <a:o> .→insert <a:s> <a:p> <a:o>
line|99|report #c␊x→the line is refused with code 52
line|99|slice␊<a:s> <a:n>→slice <a:s> <a:n>
line|99|shapes \"\"\"a␊b\"\"\"→shapes [a␊b]
line|99|shapes␊\"n\"→shapes [n]
line|99|shapes \"a␊b\"→the line is refused with code 52
== names of files that are not there
line|99|shapes \"\"→shapes []
line|99|shapes ''→shapes []
line|99|shapes \"\"\"\"\"\"→shapes []
line|99|shapes ''''''→shapes []
line|99|shapes \"shapes/two.ttl\"→shapes [shapes/two.ttl]
line|99|shapes \"../two shapes.ttl\"→shapes [../two shapes.ttl]
line|99|shapes \"\\t\\n\\r\\f\"→shapes [␉␊␍␌]
== each form, and each fault
line|99|report→report
line|99|  count  →count
line|99|begin#commit→begin
line|99|commit#→commit
line|99|abandon→abandon
line|99|undo→undo
line|99|␍redo→redo
line|99|#report→nothing
line|99|insert <a:s><a:p><a:o>.→insert <a:s> <a:p> <a:o>
line|99|remove <a:s>a<a:o>.→remove <a:s> <rdf:type> <a:o>
line|99|insert :s \u{c3}\u{a9}:p e:a\\,b .→insert <http://d/s> <http://f/p> <http://e/a,b>
line|99|insert <s> <../p> <#o> .→insert <http://b/c/s> <http://b/p> <http://b/c/#o>
line|99|remove _:a-1 e:p _:a-4 .→remove _:a-1 <http://e/p> _:a-4
line|99|insert e:s e:p \"o\" ^^ <t> .→insert <http://e/s> <http://e/p> \"o\"^^<http://b/c/t>
line|99|insert e:s e:p -1.50 .→insert <http://e/s> <http://e/p> \"-1.50\"^^<xsd:decimal>
line|99|slice _:s-x e:a→slice _:s-x <http://e/a>
line|99|slice _:t-4294967295 e:a→slice _:t-4294967295 <http://e/a>
line|99|slice e:S \"o\"@EN→slice <http://e/S> \"o\"@en
line|99|shapes \"\"\"n\"\"\"→shapes [n]
line|99|shapes '''n'''→shapes [n]
line|99|reports→the line is refused with code 52
line|99|insert e:s e:p \"o\" ^^ z:t .→the line is refused with code 53 at byte 22
line|99|insert e:s <a:\\u003c> e:o .→the line is refused with code 54 at byte 11
line|99|insert e:s e:p 1e0.→the line is refused with code 55 at byte 15
line|99|insert e:s e:p \"12020-01-01\"^^x:date .→the line is refused with code 56 at byte 15
line|99|insert e:s e:p _:x .→the line is refused with code 57 at byte 15
line|99|insert z:s _:x e:o .→the line is refused with code 52
line|99|insert e:s z:p _:x .→the line is refused with code 53 at byte 11
line|99|slice e:S _:s-x→the line is refused with code 57 at byte 10
";
